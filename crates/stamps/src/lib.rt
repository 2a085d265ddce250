// The class of a stamp, by value: of eight candidates x the first for which y² + y = f(x) has a root, with the root
// whose lowest bit is 0. The checks come in this order: 106 and 107 for the curve, 115 for the stamp, and 116 where no
// candidate has a root.
#![tactic(auto)]

ghost use Rattle.std.specs.Prelude.{◌-◌, ◌<◌, ◌^◌, ◌≡◌};
ghost use Rattle.refusals.specs.Refusals.{refusal_of};
ghost use Rattle.jacobian.specs.Answer.{reply};
ghost use Rattle.stamps.specs.Stamps.{point_class, first_class, stamp_refusal, stamped, stamp_answer};

mod polynomial;

use crate::polynomial::Polynomial;
use jacobian::{Class, CountedClass, Curve, curves};
use refusals::Refusal;

// The number of candidates of a stamp.
const CANDIDATES: u64 = 8;

// The class of the point (x, y).
#[tactic(auto, unfolding(crate::specs::Stamps::point_class))]
fn point(x: u64, y: u64) -> Class
    ensures { result ≡ point_class x y }
{
    Class {
        degree: 1,
        u: [x, 0, 0],
        v: [y, 0, 0],
    }
}

// The class of the first candidate that has one, with no reduction step, else refusal 116.
fn first_class(f: Polynomial, s: u64) -> Result<CountedClass, Refusal>
    requires { s < 2 ^ (f.d - 3) }
    ensures { reply result ≡ stamped 0 (first_class f.d f.coefficients s) }
{
    for i in 0..CANDIDATES {
        let x = CANDIDATES * s + i;
        if let Some(y) = binary_field::quadratic_root(f.d, f.value_at(x))? {
            return Ok(CountedClass {
                class: point(x, y),
                steps: 0,
            });
        }
    }
    Err(Refusal::StampWithoutClass)
}

// The checks of a stamp before any candidate is tried. The candidates of all smaller numbers make up the field.
fn check_stamp(curve: Curve, s: u64) -> Result<(), Refusal>
    ensures { refusal_of result ≡ stamp_refusal curve s }
{
    curves::check_curve(curve)?;
    if s < binary_field::bound(curve.degree) / CANDIDATES {
        Ok(())
    } else {
        Err(Refusal::StampTooLarge)
    }
}

// The class of a stamp on a curve.
pub fn stamp(curve: Curve, s: u64) -> Result<CountedClass, Refusal>
    ensures { reply result ≡ stamp_answer curve s }
{
    check_stamp(curve, s)?;
    let f = Polynomial {
        d: curve.degree,
        coefficients: curves::f_row(curve),
    };
    first_class(f, s)
}
