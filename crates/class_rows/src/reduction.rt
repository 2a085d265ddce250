// Cantor's reduction, and the double.
// The cofactor w = (v² + v + f) / u is found once for each step, by an exact division.
// For a double it is computed from that of the class by squares: no polynomial of degree 10 is divided.
// Pairs and cofactors are passed beside their curve: a struct with their facts would hold the curve once more for each.
ghost use Rattle.std.specs.Prelude.{◌<◌};
ghost use Rattle.class_group.specs.Curve.{Curve as TheoryCurve};
ghost use Rattle.class_group.specs.Reduction.{reduction_step, reduce};
ghost use Rattle.class_group.specs.Operations.{counted_double};
ghost use Rattle.row_theory.specs.{Field.𝔸, Row.row_len};
ghost use Rattle.class_rows.specs.{Pair.StandsPair, Pair.rows_pair, Core.OnCurve, Core.ReducedRows, Core.StandsCounted};
ghost use Rattle.class_rows.specs.internal.Cofactor.{CofactorRow, SemiReducedRows, SquaredRows};

use crate::curve::Curve;
use crate::row::{Division, Row, RowPair, length, one};

// A reduced pair, and how many reduction steps led to it.
#[derive(Clone, Copy)]
pub struct CountedRows {
    pub pair: RowPair,
    pub steps: u32,
}

// The composition of a double: u² with the remainder v of v² + f modulo u², and the quotient.
#[derive(Clone, Copy)]
struct Squared {
    pub pair: RowPair,
    pub quotient: Row,
}

impl Curve {
    // The cofactor (v² + v + f) / u.
    pub(crate) fn cofactor(self, a: RowPair) -> Row
        requires { SemiReducedRows self.field.degree self.f a }
        ensures { CofactorRow self.field.degree self.f a result }
    {
        let value = self.field.curve_value(self.f, a.v);
        self.field.quotient(value, a.u)
    }

    // One reduction step, given the cofactor w.
    fn step(self, a: RowPair, w: Row) -> RowPair
        requires semi_reduced { SemiReducedRows self.field.degree self.f a }
        requires cofactor { CofactorRow self.field.degree self.f a w }
        ensures { let d = self.field.degree in (C : TheoryCurve (𝔸 d)) → OnCurve d self.f C → StandsPair d result (reduction_step C (rows_pair d a)) }
    {
        let next = self.field.monic(w);
        let other = self.field.sum_rows(a.v, one());
        let rest = self.field.divide(other, next).remainder;
        RowPair { u: next, v: rest }
    }

    // The reduction of a pair of degree 4 to 6, given the cofactor w.
    fn reduce_with(self, a: RowPair, w: Row) -> CountedRows
        requires semi_reduced { SemiReducedRows self.field.degree self.f a }
        requires long { 4 < row_len self.field.degree a.u }
        requires cofactor { CofactorRow self.field.degree self.f a w }
        ensures { let d = self.field.degree in (C : TheoryCurve (𝔸 d)) → OnCurve d self.f C → StandsCounted d result (reduce C (rows_pair d a)) }
    {
        let once = self.step(a, w);
        if length(once.u) <= 4 {
            return CountedRows {
                pair: once,
                steps: 1,
            };
        }
        let next = self.cofactor(once);
        CountedRows {
            pair: self.step(once, next),
            steps: 2,
        }
    }

    // The reduction of a pair of degree at most 6.
    pub(crate) fn reduce(self, a: RowPair) -> CountedRows
        requires { SemiReducedRows self.field.degree self.f a }
        ensures { let d = self.field.degree in (C : TheoryCurve (𝔸 d)) → OnCurve d self.f C → StandsCounted d result (reduce C (rows_pair d a)) }
    {
        if length(a.u) <= 4 {
            return CountedRows { pair: a, steps: 0 };
        }
        let w = self.cofactor(a);
        self.reduce_with(a, w)
    }

    // u², and v² + f divided by it.
    fn squared(self, a: RowPair) -> Squared
        requires { ReducedRows self.field.degree self.f a }
        ensures { SquaredRows self.field.degree self.f a result }
    {
        let square = self.field.square_row(a.u);
        let other = self.field.square_row(a.v);
        let sum = self.field.sum_rows(other, self.f);
        let Division {
            quotient,
            remainder,
        } = self.field.divide(sum, square);
        Squared {
            pair: RowPair {
                u: square,
                v: remainder,
            },
            quotient,
        }
    }

    // The cofactor of the double's composition: with w that of the class and q the quotient, w² + q + q² u².
    fn squared_cofactor(self, a: RowPair, w: Row, s: Squared) -> Row
        requires reduced { ReducedRows self.field.degree self.f a }
        requires long { 2 < row_len self.field.degree a.u }
        requires squared { SquaredRows self.field.degree self.f a s }
        requires cofactor { CofactorRow self.field.degree self.f a w }
        ensures { CofactorRow self.field.degree self.f s.pair result }
    {
        let square = self.field.square_row(w);
        let factor = self.field.square_row(s.quotient);
        let product = self.field.product_rows(factor, s.pair.u);
        let sum = self.field.sum_rows(square, s.quotient);
        self.field.sum_rows(sum, product)
    }

    // The double of a reduced pair, given its cofactor w.
    pub(crate) fn double(self, a: RowPair, w: Row) -> CountedRows
        requires reduced { ReducedRows self.field.degree self.f a }
        requires cofactor { CofactorRow self.field.degree self.f a w }
        ensures { let d = self.field.degree in (C : TheoryCurve (𝔸 d)) → OnCurve d self.f C → StandsCounted d result (counted_double C (rows_pair d a)) }
    {
        let s = self.squared(a);
        if length(a.u) <= 2 {
            return CountedRows {
                pair: s.pair,
                steps: 0,
            };
        }
        let next = self.squared_cofactor(a, w, s);
        self.reduce_with(s.pair, next)
    }
}
