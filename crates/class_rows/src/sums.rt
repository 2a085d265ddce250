// The operations on reduced pairs: sum and opposite, the two rules that move a seal, and the choice of an operation.
ghost use Rattle.class_group.specs.Curve.{Curve as TheoryCurve};
ghost use Rattle.class_group.specs.{Mumford.opposite, Operations.counted_sum, Moves.counted_double_and_add, Moves.counted_subtract_and_halve};
ghost use Rattle.row_theory.specs.{Field.𝔸, Row.InRange};
ghost use Rattle.class_rows.specs.{Pair.StandsPair, Pair.rows_pair, internal.Cofactor.CofactorRow};
ghost use Rattle.class_rows.specs.Core.{OnCurve, ReducedRows, StandsCounted};
ghost use Rattle.class_rows.specs.Operations.{unary, binary};

use crate::curve::Curve;
use crate::reduction::CountedRows;
use crate::row::{Row, RowPair, length, one};
use crate::{Binary, Unary};

impl Curve {
    // The sum: compose, then reduce.
    fn sum(self, a: RowPair, b: RowPair) -> CountedRows
        requires a_reduced { ReducedRows self.field.degree self.f a }
        requires b_reduced { ReducedRows self.field.degree self.f b }
        ensures { let d = self.field.degree in (C : TheoryCurve (𝔸 d)) → OnCurve d self.f C → StandsCounted d result (counted_sum C (rows_pair d a) (rows_pair d b)) }
    {
        let composed = self.compose(a, b);
        self.reduce(composed)
    }

    // The opposite. The neutral pair is its own opposite.
    fn opposite(self, a: RowPair) -> RowPair
        requires u_in { InRange self.field.degree a.u }
        requires v_in { InRange self.field.degree a.v }
        ensures { let d = self.field.degree in (C : TheoryCurve (𝔸 d)) → StandsPair d result (opposite C (rows_pair d a)) }
    {
        if length(a.u) < 2 {
            return a;
        }
        let v = self.field.sum_rows(a.v, one());
        RowPair { v, ..a }
    }

    // Twice the first pair, whose cofactor is w, plus the second, with the steps of both.
    fn double_and_add(self, a: RowPair, w: Row, b: RowPair) -> CountedRows
        requires a_reduced { ReducedRows self.field.degree self.f a }
        requires cofactor { CofactorRow self.field.degree self.f a w }
        requires b_reduced { ReducedRows self.field.degree self.f b }
        ensures { let d = self.field.degree in (C : TheoryCurve (𝔸 d)) → OnCurve d self.f C → StandsCounted d result (counted_double_and_add C (rows_pair d a) (rows_pair d b)) }
    {
        let doubled = self.double(a, w);
        let summed = self.sum(doubled.pair, b);
        CountedRows {
            pair: summed.pair,
            steps: doubled.steps + summed.steps,
        }
    }

    // The half of the first pair less the second, with the steps of the difference.
    fn subtract_and_halve(self, a: RowPair, b: RowPair) -> CountedRows
        requires a_reduced { ReducedRows self.field.degree self.f a }
        requires b_reduced { ReducedRows self.field.degree self.f b }
        ensures { let d = self.field.degree in (C : TheoryCurve (𝔸 d)) → OnCurve d self.f C → StandsCounted d result (counted_subtract_and_halve C (rows_pair d a) (rows_pair d b)) }
    {
        let opposed = self.opposite(b);
        let difference = self.sum(a, opposed);
        let w = self.cofactor(difference.pair);
        CountedRows {
            pair: self.half(difference.pair, w),
            steps: difference.steps,
        }
    }

    // The operation on one reduced pair, whose cofactor is w.
    // The operations stay an enum: the definitions and theorems on them go by its cases.
    pub(crate) fn unary(self, op: Unary, a: RowPair, w: Row) -> CountedRows
        requires reduced { ReducedRows self.field.degree self.f a }
        requires cofactor { CofactorRow self.field.degree self.f a w }
        ensures { let d = self.field.degree in (C : TheoryCurve (𝔸 d)) → OnCurve d self.f C → StandsCounted d result (unary op C (rows_pair d a)) }
    {
        match op {
            Unary::Opposite => CountedRows {
                pair: self.opposite(a),
                steps: 0,
            },
            Unary::Double => self.double(a, w),
            Unary::Half => CountedRows {
                pair: self.half(a, w),
                steps: 0,
            },
        }
    }

    // The operation on two reduced pairs; w is the cofactor of the first.
    pub(crate) fn binary(self, op: Binary, a: RowPair, w: Row, b: RowPair) -> CountedRows
        requires a_reduced { ReducedRows self.field.degree self.f a }
        requires cofactor { CofactorRow self.field.degree self.f a w }
        requires b_reduced { ReducedRows self.field.degree self.f b }
        ensures { let d = self.field.degree in (C : TheoryCurve (𝔸 d)) → OnCurve d self.f C → StandsCounted d result (binary op C (rows_pair d a) (rows_pair d b)) }
    {
        match op {
            Binary::Sum => self.sum(a, b),
            Binary::DoubleAndAdd => self.double_and_add(a, w, b),
            Binary::SubtractAndHalve => self.subtract_and_halve(a, b),
        }
    }
}
