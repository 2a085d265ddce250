// A walk over a lent row of classes, newest first: the undo rule, once for each class, leads from the last seal to the
// earliest. The checks, in the stored order: 106 and 107 of the curve, 109 for more classes than the limit, then 104,
// 110 and 111 of the last seal and of each class.
ghost use Rattle.std.specs.Prelude.{◌≡◌};
ghost use Rattle.refusals.specs.Refusals.{refusal_of};
ghost use Rattle.seal_register.specs.RowWalk.{reached, row_walk_answer, RowWalkAnswers};
ghost use Rattle.seal_register.specs.internal.RowSteps.{start_refusal, class_result};

use jacobian::{Class, Curve};
use refusals::Refusal;

// The end of a walk for C, which has no Result: the earliest seal with 0, or a refusal's number with the neutral class.
#[repr(C)]
#[derive(Clone, Copy, PartialEq, Eq)]
pub struct RowWalk {
    pub refusal: u32,
    pub seal: Class,
}

// The checks before the first step over n classes; where n is not 0, that step checks the curve and the last seal.
#[tactic(auto, using(crate::proofs::RowSteps::start_empty, crate::proofs::RowSteps::start_above, crate::proofs::RowSteps::start_within, binary_field::proofs::Refusing::number_positive))]
fn check_start(curve: Curve, last: Class, classes: usize) -> Result<(), Refusal>
    ensures { refusal_of result ≡ start_refusal curve last classes }
{
    if classes == 0 {
        return jacobian::check_class(curve, last);
    }
    let count = classes as u64;
    match count_limit::check_count(count) {
        Ok(()) => Ok(()),
        Err(_) => history::check_curve_and_count(curve, count),
    }
}

// The earliest seal, or the first refusal.
#[tactic(auto, using(crate::proofs::RowSteps::walk_rules))]
fn earliest_seal(curve: Curve, last: Class, row: &[Class]) -> Result<Class, Refusal>
    ensures { class_result result ≡ row_walk_answer curve last row.now }
{
    check_start(curve, last, row.len())?;
    let mut seal = last;
    for class in row {
        seal = jacobian::subtract_and_halve(curve, seal, *class)?.class;
    }
    Ok(seal)
}

// The earliest seal, from which commits of the row's classes, oldest first, lead to the last one; or the refusal of the
// first check that fails.
#[tactic(auto, using(crate::proofs::Promises::row_promised, jacobian::proofs::ByValue::Answers::refused_verdict, binary_field::proofs::Refusing::number_positive), unfolding(jacobian::specs::Answer::verdict_of))]
pub fn seal_walk_row(curve: Curve, last: Class, row: &[Class]) -> RowWalk
    ensures { RowWalkAnswers curve last row.now (reached result) }
{
    match earliest_seal(curve, last, row) {
        Ok(seal) => RowWalk { refusal: 0, seal },
        Err(refusal) => RowWalk {
            refusal: refusal.number(),
            seal: jacobian::neutral(),
        },
    }
}
