// A curve by value: its coefficients, its checks, and its f as a row.
// Only `coefficients`, `curve_with` and `f_row` name the struct's f3, f1 and f0.
ghost use Rattle.std.specs.Prelude.{◌≡◌};
ghost use Rattle.refusals.specs.Refusals.{refusal_of};
ghost use Rattle.binary_field.specs.Answer.{below};
ghost use Rattle.jacobian.specs.Curves.{coefficients, curve_with, blank_curve, curve_refusal, f_row};
ghost use Rattle.row_theory.specs.Row.{filled};

use crate::Curve;
use class_rows::row::Row;
use refusals::Refusal;

// The number of coefficients of a curve.
pub const COEFFICIENTS: usize = 3;

// The coefficients in the stored order, the highest power first.
#[tactic(auto, unfolding(crate::specs::Curves::coefficients))]
pub fn coefficients(c: Curve) -> [u64; COEFFICIENTS]
    ensures { result ≡ coefficients c }
{
    [c.f3, c.f1, c.f0]
}

// The curve over the field of degree d with these coefficients.
#[tactic(auto, unfolding(crate::specs::Curves::curve_with))]
pub fn curve_with(d: u8, cs: [u64; COEFFICIENTS]) -> Curve
    ensures { result ≡ curve_with d cs }
{
    Curve {
        degree: d,
        f3: cs[0],
        f1: cs[1],
        f0: cs[2],
    }
}

// The coefficients of f, the lowest first.
#[tactic(auto, unfolding(row_theory::specs::Row::filled, crate::specs::Curves::f_row))]
pub fn f_row(c: Curve) -> Row
    ensures { result ≡ filled (f_row c) }
{
    [c.f0, c.f1, 0, c.f3, 0, 0, 0, 1, 0, 0, 0, 0]
}

// The curve of a record before its first field.
#[tactic(auto, unfolding(crate::specs::Curves::blank_curve))]
pub fn blank_curve() -> Curve
    ensures { result ≡ blank_curve }
{
    curve_with(5, [0; COEFFICIENTS])
}

// Is every number below m?
pub(crate) fn all_below(m: u64, numbers: &[u64]) -> bool
    ensures { result ≡ below m numbers.now }
{
    numbers.iter().all(|&x| x < m)
}

// The checks of a curve.
pub fn check_curve(c: Curve) -> Result<(), Refusal>
    ensures { refusal_of result ≡ curve_refusal c }
{
    binary_field::check_degree(c.degree)?;
    if all_below(binary_field::bound(c.degree), &coefficients(c)) {
        Ok(())
    } else {
        Err(Refusal::CurveCoefficient)
    }
}
