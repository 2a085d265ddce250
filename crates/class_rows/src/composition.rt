// Cantor's composition for a sum, from the coefficients of any greatest common divisor, with short polynomials.
ghost use Rattle.std.specs.Prelude.{◌≡◌};
ghost use Rattle.class_group.specs.Composition.{compose, joined};
ghost use Rattle.class_group.specs.Curve.{Curve as TheoryCurve};
ghost use Rattle.row_theory.specs.{Field.𝔸, Field.poly, Row.InRange, Row.Stands, internal.Compose.Short, internal.Compose.multiple};
ghost use Rattle.class_rows.specs.{Pair.StandsPair, Pair.rows_pair, internal.Bezout.Combines};
ghost use Rattle.class_rows.specs.Core.{OnCurve, ReducedRows};

use crate::curve::Curve;
use crate::element::Field;
use crate::euclid::Combination;
use crate::row::{Row, RowPair, length, one};

impl Field {
    // The pair [d1 d2, v1 + d1 (m mod d2) modulo d1 d2].
    fn joined_rows(self, d1: Row, d2: Row, v1: Row, m: Row) -> RowPair
        requires d1_short { Short self.degree 4 d1 }
        requires d2_short { Short self.degree 4 d2 }
        requires v1_in { InRange self.degree v1 }
        requires m_in { InRange self.degree m }
        requires d1_nonzero { let d = self.degree in ¬ (poly d d1 ≡ (𝔸 d).ring.zero) }
        requires d2_nonzero { let d = self.degree in ¬ (poly d d2 ≡ (𝔸 d).ring.zero) }
        ensures { let d = self.degree in StandsPair d result (joined (𝔸 d) (poly d d1) (poly d d2) (poly d v1) (poly d m)) }
    {
        let u = self.product_rows(d1, d2);
        let k = self.divide(m, d2).remainder;
        let p = self.product_rows(d1, k);
        let s = self.sum_rows(v1, p);
        let v = self.divide(s, u).remainder;
        RowPair { u, v }
    }

    // The row of s1 (v1 + v2) + s3 w1, from the coefficients of the two uses of Euclid's rule.
    fn multiple_row(self, sum: Row, w: Row, first: Combination, second: Combination) -> Row
        requires sum_short { Short self.degree 3 sum }
        requires w_short { Short self.degree 8 w }
        requires first_s { Short self.degree 4 first.s }
        requires second_s { Short self.degree 4 second.s }
        requires second_t { Short self.degree 4 second.t }
        ensures { let d = self.degree in Stands d result (multiple d sum w first.s second.s second.t) }
    {
        let s1 = self.product_rows(second.s, first.s);
        let p = self.product_rows(s1, sum);
        let q = self.product_rows(second.t, w);
        self.sum_rows(p, q)
    }
}

impl Curve {
    // The composition where u1 and u2 have a common divisor: e is the greatest common divisor of these and v1 + v2 + 1.
    fn compose_common(self, a: RowPair, b: RowPair, first: Combination) -> RowPair
        requires a_reduced { ReducedRows self.field.degree self.f a }
        requires b_reduced { ReducedRows self.field.degree self.f b }
        requires combines { Combines self.field.degree a.u b.u first }
        ensures { let d = self.field.degree in (C : TheoryCurve (𝔸 d)) → OnCurve d self.f C → StandsPair d result (compose C (rows_pair d a) (rows_pair d b)) }
    {
        let sum = self.field.sum_rows(a.v, b.v);
        let c = self.field.sum_rows(sum, one());
        let second = self.field.bezout(first.g, c);
        let w = self.cofactor(a);
        let m = self.field.multiple_row(sum, w, first, second);
        let d1 = self.field.divide(a.u, second.g).quotient;
        let d2 = self.field.divide(b.u, second.g).quotient;
        self.field.joined_rows(d1, d2, a.v, m)
    }

    // The composition of two reduced pairs. Where u1 and u2 have no common divisor, only the coefficient of u1 is
    // needed.
    pub(crate) fn compose(self, a: RowPair, b: RowPair) -> RowPair
        requires a_reduced { ReducedRows self.field.degree self.f a }
        requires b_reduced { ReducedRows self.field.degree self.f b }
        ensures { let d = self.field.degree in (C : TheoryCurve (𝔸 d)) → OnCurve d self.f C → StandsPair d result (compose C (rows_pair d a) (rows_pair d b)) }
    {
        let first = self.field.bezout(a.u, b.u);
        if length(first.g) != 1 {
            return self.compose_common(a, b, first);
        }
        let sum = self.field.sum_rows(a.v, b.v);
        let m = self.field.product_rows(first.s, sum);
        self.field.joined_rows(a.u, b.u, a.v, m)
    }
}
