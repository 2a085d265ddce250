// The limit of operations: no register counts more, no row of classes is longer, and no stored count is larger.
// A register's released step is at most its count.
#![tactic(auto)]

ghost use Rattle.std.specs.Prelude.{◌≡◌};
ghost use Rattle.refusals.specs.Refusals.{refusal_of};
ghost use Rattle.count_limit.specs.Limit.{count_refusal, released_refusal};

use refusals::Refusal;

// The largest count that is accepted.
pub const COUNT_LIMIT: u64 = 1024;

// Refuses a count above the limit.
#[tactic(auto, using(crate::proofs::Limit::within_limit, crate::proofs::Limit::above_limit), unfolding(crate::specs::Limit::count_limit))]
pub fn check_count(n: u64) -> Result<(), Refusal>
    ensures { refusal_of result ≡ count_refusal n }
{
    if n <= COUNT_LIMIT {
        Ok(())
    } else {
        Err(Refusal::CountTooHigh)
    }
}

// Refuses a released step above this count.
#[tactic(auto, using(crate::proofs::Limit::released_within, crate::proofs::Limit::released_above))]
pub fn check_released(n: u64, released: u64) -> Result<(), Refusal>
    ensures { refusal_of result ≡ released_refusal n released }
{
    if released <= n {
        Ok(())
    } else {
        Err(Refusal::ReleasedTooHigh)
    }
}
