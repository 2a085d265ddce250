// The pairs of an archive, 0x48. They are read where they stand, and no value holds them.
// A pair stays one number of four bytes, as the order of pairs and the public `pair_at` have it.
ghost use Rattle.std.specs.Prelude.{◌≡◌, ◌&&◌, ltb};
ghost use Rattle.refusals.specs.Refusals.{refusal_of};
ghost use Rattle.stored_form.specs.Reader.{read_head_by, head_reading};
ghost use Rattle.stored_form.specs.Pairs.{later, earlier, pairs_length, pair_within, pairs_refusal, decode_pairs, read_pairs_field, read_pairs, offset_reading, without_value, pair_at};

use crate::head::Body;
use crate::{Cursor, PAIR_LENGTH, PAIRS, PAIRS_LIMIT, head, numbers};
use refusals::Refusal;

// The number of a pair's later operation.
pub fn later(p: u64) -> u64
    ensures { result ≡ later p }
{
    p / 65536
}

// The number of a pair's earlier operation.
pub fn earlier(p: u64) -> u64
    ensures { result ≡ earlier p }
{
    p % 65536
}

// Whether this is the length of 1 to 2,048 pairs.
#[tactic(auto, unfolding(crate::specs::Pairs::pairs_length))]
fn pairs_allow(len: usize) -> bool
    ensures { result ≡ pairs_length len }
{
    0 < len && len <= PAIRS_LIMIT && len % PAIR_LENGTH == 0
}

// Whether a pair names two of n operations: the earlier at least 1 and below the later, the later at most n.
#[tactic(auto, unfolding(crate::specs::Pairs::pair_within))]
fn pair_within(n: u64, p: u64) -> bool
    ensures { result ≡ pair_within n p }
{
    1 <= earlier(p) && earlier(p) < later(p) && later(p) <= n
}

// Whether a pair comes after the pair `last` and is within n.
fn pair_follows(n: u64, last: u64, p: u64) -> bool
    ensures { result ≡ (ltb last p && pair_within n p) }
{
    last < p && pair_within(n, p)
}

// Refuses the pairs of a body if one of them breaks a rule.
#[tactic(auto, using(crate::proofs::PairBytes::pair_stops, crate::proofs::PairBytes::pair_goes_on, crate::proofs::PairBytes::pairs_over), unfolding(crate::specs::Pairs::pairs_refusal, jacobian::specs::Checks::unless))]
fn check_pairs(n: u64, body: &[u8]) -> Result<(), Refusal>
    ensures { refusal_of result ≡ pairs_refusal n (decode_pairs body.now) }
{
    let mut last = 0;
    for bytes in body.chunks_exact(PAIR_LENGTH) {
        let p = numbers::decode_number(bytes);
        if !pair_follows(n, last, p) {
            return Err(Refusal::WrongPair);
        }
        last = p;
    }
    Ok(())
}

impl Cursor {
    // The head of the field 0x48 at this offset.
    fn read_pairs_head(self, s: &[u8]) -> Result<Body, Refusal>
        ensures { head_reading result ≡ read_head_by 0x48 pairs_length s.now self.at }
    {
        self.read_head_by(PAIRS, pairs_allow(head::length_at(s, self.at)), s)
    }

    // Reads the field 0x48 of an archive with n operations: the offset after it.
    #[tactic(auto, using(crate::proofs::PairBytes::cut_stops, crate::proofs::PairBytes::pairs_inside, crate::proofs::PairBytes::check_stops_pairs, crate::proofs::PairBytes::pairs_pass))]
    fn read_pairs_field(self, n: u64, s: &[u8]) -> Result<Cursor, Refusal>
        ensures { offset_reading result ≡ without_value (read_pairs_field n s.now self.at) }
    {
        // A head is taken apart by `let .. else`, a rule of the project; `?` would do.
        let head = self.read_pairs_head(s);
        let Ok(body) = head else {
            return Err(head.unwrap_err());
        };
        check_pairs(n, body.bytes(s))?;
        Ok(body.next)
    }
}

// Reads the pairs of an archive with n operations, which follow these: the offset after the pairs.
// There are none if no byte is left; a byte other than 0x48 is refused.
#[tactic(auto, using(crate::proofs::PairBytes::none_left, crate::proofs::PairBytes::rest_refused, crate::proofs::PairBytes::field_follows))]
pub fn read_pairs(n: u64, s: &[u8], at: Cursor) -> Result<Cursor, Refusal>
    ensures { offset_reading result ≡ without_value (read_pairs n s.now at.at) }
{
    match s.get(at.at) {
        None => Ok(at),
        Some(&PAIRS) => at.read_pairs_field(n, s),
        Some(_) => Err(Refusal::BytesRemain),
    }
}

// Pair i of those that begin at an offset, and 0 if the input ends before it does.
// It is no Option, since the definition answers 0 there.
#[tactic(auto, using(crate::proofs::PairBytes::pair_beyond, crate::proofs::PairBytes::pair_there))]
pub fn pair_at(s: &[u8], at: usize, i: usize) -> u64
    ensures { result ≡ pair_at s.now at i }
{
    if s.len().saturating_sub(at) / PAIR_LENGTH <= i {
        return 0;
    }
    let first = at + PAIR_LENGTH * i;
    numbers::decode_number(&s[first..first + PAIR_LENGTH])
}
