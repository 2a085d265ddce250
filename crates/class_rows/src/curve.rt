// A curve y² + y = f over an accepted field, and the check of a pair on it. The division that decides whether the pair is
// a reduced divisor also gives the cofactor, (v² + v + f) / u.
ghost use Rattle.std.specs.Prelude.{◌≤◌, ◌<◌, ◌≡◌, ◌↔◌, true, ◌&&◌, IsTrue, EachIndex, slice_index, MatchOption};
ghost use Rattle.binary_field.specs.Answer.{bound};
ghost use Rattle.binary_field_theory.specs.Element.{is_degree};
ghost use Rattle.row_theory.specs.{Field.𝔸, Field.poly, Row.InRange, Row.Stands, Row.row_len};
ghost use Rattle.class_rows.specs.Checked.{is_curve, is_pair};
ghost use Rattle.class_rows.specs.internal.Check.{CheckedRows};

use crate::element::Field;
use crate::row::{Division, Row, RowPair, length};

// A curve by its field and the row of f, which is monic of degree 7.
#[derive(Clone, Copy)]
pub(crate) struct Curve {
    pub field: Field,
    pub f: Row,
    ghost monic_of_degree_7: { is_curve field.degree f ≡ true },
}

impl Field {
    // Is every number an element?
    fn is_row(self, r: Row) -> bool
        ensures { IsTrue result ↔ EachIndex r (λ i. slice_index r i < bound self.degree) }
    {
        let bound = binary_field::bound(self.degree);
        r.iter().all(|n| *n < bound)
    }

    // The row of v² + v + f.
    pub(crate) fn curve_value(self, f: Row, v: Row) -> Row
        requires f_in { InRange self.degree f }
        requires v_in { InRange self.degree v }
        requires short { row_len self.degree v ≤ 6 }
        ensures { let d = self.degree in Stands d result ((𝔸 d).ring.add ((𝔸 d).ring.add ((𝔸 d).ring.mul (poly d v) (poly d v)) (poly d v)) (poly d f)) }
    {
        let square = self.square_row(v);
        let sum = self.sum_rows(square, v);
        self.sum_rows(sum, f)
    }
}

impl Curve {
    // The curve of a row, or `None` where the degree is not accepted or f is not monic of degree 7.
    pub(crate) fn of_row(degree: u8, f: Row) -> Option<Curve>
        ensures { MatchOption result (¬ ((is_degree degree && is_curve degree f) ≡ true)) (λ c. (c.field.degree ≡ degree) × (c.f ≡ f)) }
    {
        let field = Field::of_degree(degree)?;
        if field.is_row(f) && length(f) == 8 && f[7] == 1 {
            Some(Curve { field, f })
        } else {
            None
        }
    }

    // Is u monic of degree at most 3, and v of smaller degree?
    fn is_pair(self, a: RowPair) -> bool
        ensures { result ≡ is_pair self.field.degree a }
    {
        let n = length(a.u);
        self.field.is_row(a.u)
            && self.field.is_row(a.v)
            && n <= 4
            && length(a.v) < n
            && a.u[n - 1] == 1
    }

    // The cofactor of a divisor, or `None` where the pair is none: is v² + v + f a multiple of u?
    pub(crate) fn cofactor_of_divisor(self, a: RowPair) -> Option<Row>
        ensures { CheckedRows self.field.degree self.f a result }
    {
        if !self.is_pair(a) {
            return None;
        }
        let value = self.field.curve_value(self.f, a.v);
        let Division {
            quotient,
            remainder,
        } = self.field.divide(value, a.u);
        if length(remainder) == 0 {
            Some(quotient)
        } else {
            None
        }
    }
}
