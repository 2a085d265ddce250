// Pairs of rows of coefficients, for the calls on classes by value in the crate above: whether a pair is a reduced
// divisor of the curve of the row f, and the operations on one such pair and on two. Each function checks its rows, by
// one division for each pair. The quotient w = (v² + v + f) / u serves the double and the half.
#![tactic(auto)]

ghost use mathlib.Core.Path.{◌≡◌};
ghost use Rattle.class_rows.specs.{Checked.is_divisor, Answer.UnaryAnswers, Answer.BinaryAnswers};

mod composition;
mod curve;
mod element;
mod euclid;
mod halving;
mod quotient;
pub mod reduction;
pub mod row;
mod sums;

use crate::curve::Curve;
use crate::reduction::CountedRows;
use crate::row::{Row, RowPair};

// The operations on one pair.
#[derive(Clone, Copy)]
pub enum Unary {
    Opposite,
    Double,
    Half,
}

// The operations on two pairs.
#[derive(Clone, Copy)]
pub enum Binary {
    Sum,
    DoubleAndAdd,
    SubtractAndHalve,
}

// Is the pair a reduced divisor of the curve?
pub fn is_divisor(d: u8, f: Row, a: RowPair) -> bool
    ensures { result ≡ is_divisor d f a }
{
    match Curve::of_row(d, f) {
        Some(curve) => curve.cofactor_of_divisor(a).is_some(),
        None => false,
    }
}

// The operation on one pair, or `None` where it is no divisor. The half of a divisor is the only divisor whose double is
// the one given.
pub fn unary_rows(op: Unary, d: u8, f: Row, a: RowPair) -> Option<CountedRows>
    ensures { UnaryAnswers op d f a result }
{
    let curve = Curve::of_row(d, f)?;
    let w = curve.cofactor_of_divisor(a)?;
    Some(curve.unary(op, a, w))
}

// The operation on two pairs, or `None` where one is no divisor. The half of the first less the second is the only
// divisor that doubled, plus the second, is the first.
// The second is checked first: where an operation's class is refused, the seal, mostly valid, costs no division.
pub fn binary_rows(op: Binary, d: u8, f: Row, a: RowPair, b: RowPair) -> Option<CountedRows>
    ensures { BinaryAnswers op d f a b result }
{
    let curve = Curve::of_row(d, f)?;
    curve.cofactor_of_divisor(b)?;
    let w = curve.cofactor_of_divisor(a)?;
    Some(curve.binary(op, a, w, b))
}
