// The letters of the report's lines.
ghost use Rattle.std.specs.Prelude.{◌≡◌};
ghost use Rattle.walk_report.specs.{Walk.opposed, Steps.letter_before};

use crate::{Report, Stage};
use jacobian::{Class, Curve};

// Whether a is the opposite of b; where that call refuses b, the neutral class stands for the opposite.
fn opposed(curve: Curve, a: Class, b: Class) -> bool
    ensures { result ≡ opposed curve a b }
{
    a == crate::class_of(jacobian::opposite(curve, b))
}

// The letter of the operation a, where r is the state at the next older one, if there is one: M for a neutral class,
// else R if the older one is to be undone next and a is its opposite, else -.
#[tactic(auto, unfolding(crate::specs::Walk::mark, archive::specs::Archive::neutral))]
pub(crate) fn letter_before(curve: Curve, a: Class, r: Report) -> u8
    ensures { result ≡ letter_before curve a r }
{
    if a.degree == 0 {
        b'M'
    } else if matches!(r.stage, Stage::Undo) && opposed(curve, a, r.operation) {
        b'R'
    } else {
        b'-'
    }
}
