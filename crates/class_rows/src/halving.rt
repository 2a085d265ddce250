// The half of a class: the only class whose double is the one given, computed from the coefficients by a rule for each
// degree.
ghost use Rattle.std.specs.Prelude.{◌+◌, ◌≤◌, ◌<◌, ◌^◌, ◌≡◌, get_or};
ghost use Rattle.char2_algebra.specs.Square.{sqrt};
ghost use Rattle.class_group.specs.Curve.{Curve as TheoryCurve};
ghost use Rattle.class_group.specs.Half.{quadratic, half, half_of_degree_1, half_of_degree_2, half_of_degree_3};
ghost use Rattle.class_group.specs.Half.{first_lift};
ghost use Rattle.row_theory.specs.{Field.degree_of, Field.F, Field.𝔸, Field.el, Field.poly, internal.Elements.Is, Row.InRange, Row.Stands, Row.row_len};
ghost use Rattle.row_theory.specs.internal.Halving.{HalvingRows, even_quartic, root_pair, rows_triple};
ghost use Rattle.row_theory.specs.internal.Halving.{second_square, second_remainder};
ghost use Rattle.class_rows.specs.{Pair.StandsPair, Pair.rows_pair, internal.Cofactor.CofactorRow};
ghost use Rattle.class_rows.specs.Core.{OnCurve, ReducedRows};

use crate::curve::Curve;
use crate::element::Field;
use crate::row::{Row, RowPair, ZERO, length, low_row, one};

impl Field {
    // The row of k2 x² + k1 x + k0.
    fn quadratic_row(self, k2: u64, k1: u64, k0: u64) -> Row
        requires k2_in { k2 < 2 ^ degree_of self.degree }
        requires k1_in { k1 < 2 ^ degree_of self.degree }
        requires k0_in { k0 < 2 ^ degree_of self.degree }
        ensures { let d = self.degree in Stands d result (quadratic (𝔸 d) (el d k2) (el d k1) (el d k0)) }
    {
        low_row(k0, k1, k2, 0, 0)
    }

    // The row of m2 x⁴ + m1 x² + m0.
    fn quartic_row(self, m2: u64, m1: u64, m0: u64) -> Row
        requires m2_in { m2 < 2 ^ degree_of self.degree }
        requires m1_in { m1 < 2 ^ degree_of self.degree }
        requires m0_in { m0 < 2 ^ degree_of self.degree }
        ensures { let d = self.degree in Stands d result (even_quartic (𝔸 d) (el d m2) (el d m1) (el d m0)) }
    {
        low_row(m0, 0, m1, 0, m2)
    }

    // The row of a + k b for a short k. No product is computed where a coefficient is 0 or 1.
    fn add_product(self, a: Row, k: Row, b: Row) -> Row
        requires a_in { InRange self.degree a }
        requires k_in { InRange self.degree k }
        requires b_in { InRange self.degree b }
        requires room { row_len self.degree k + row_len self.degree b ≤ 13 }
        ensures { let d = self.degree in Stands d result ((𝔸 d).ring.add (poly d a) ((𝔸 d).ring.mul (poly d k) (poly d b))) }
    {
        let p = self.product_rows(k, b);
        self.sum_rows(a, p)
    }

    // The row of w + k + m u: the third polynomial of a lift, where m stands for k².
    fn lifted_row(self, w: Row, k: Row, m: Row, u: Row) -> Row
        requires w_in { InRange self.degree w }
        requires k_in { InRange self.degree k }
        requires m_in { InRange self.degree m }
        requires u_in { InRange self.degree u }
        requires room { row_len self.degree m + row_len self.degree u ≤ 13 }
        ensures { let d = self.degree in Stands d result ((𝔸 d).ring.add ((𝔸 d).ring.add (poly d w) (poly d k)) ((𝔸 d).ring.mul (poly d m) (poly d u))) }
    {
        let s = self.sum_rows(w, k);
        self.add_product(s, m, u)
    }

    // The row of v + k u + 1: the second polynomial after a lift and a step.
    fn exchanged_row(self, v: Row, k: Row, u: Row) -> Row
        requires v_in { InRange self.degree v }
        requires k_in { InRange self.degree k }
        requires u_in { InRange self.degree u }
        requires room { row_len self.degree k + row_len self.degree u ≤ 13 }
        ensures { let d = self.degree in Stands d result ((𝔸 d).ring.add ((𝔸 d).ring.add (poly d v) ((𝔸 d).ring.mul (poly d k) (poly d u))) (𝔸 d).ring.one) }
    {
        let s = self.add_product(v, k, u);
        self.sum_rows(s, one())
    }

    // The pair [a, v modulo a] for a square p = a².
    fn root_pair(self, p: Row, v: Row) -> RowPair
        requires p_in { InRange self.degree p }
        requires v_in { InRange self.degree v }
        requires nonzero { let d = self.degree in ¬ (sqrt (𝔸 d) (poly d p) ≡ (𝔸 d).ring.zero) }
        ensures { let d = self.degree in StandsPair d result (root_pair (𝔸 d) (poly d p) (poly d v)) }
    {
        let root = self.root_row(p);
        let rest = self.divide(v, root).remainder;
        RowPair { u: root, v: rest }
    }

    // Degree 1: a lift by k2 = √w5, k1 = √w3, k0 = √(w1 + k1), and a step.
    fn half_of_degree_1(self, u: Row, v: Row, w: Row) -> RowPair
        requires { HalvingRows self.degree 2 u v w }
        ensures { let d = self.degree in StandsPair d result (half_of_degree_1 (𝔸 d) (rows_triple d u v w)) }
    {
        let k2 = self.root(w[5]);
        let k1 = self.root(w[3]);
        let s = self.sum(w[1], k1);
        let k0 = self.root(s);
        let k = self.quadratic_row(k2, k1, k0);
        let m = self.quartic_row(w[5], w[3], s);
        let p = self.lifted_row(w, k, m, u);
        let q = self.exchanged_row(v, k, u);
        self.root_pair(p, q)
    }

    // Degree 2 with u1 other than 0: a lift by k2 = 1/√u1, k1 = √(w3/u1), k0 = √((w1 + k1)/u1), and a step. The square
    // is u1 w + u1 k + (x⁴ + w3 x² + w1 + k1) u.
    fn lifted_half_of_degree_2(self, u: Row, v: Row, w: Row) -> RowPair
        requires rows { HalvingRows self.degree 3 u v w }
        requires u1_nonzero { ¬ (get_or u 1 0 ≡ 0) }
        ensures { let d = self.degree in StandsPair d result (half_of_degree_2 (𝔸 d) (rows_triple d u v w)) }
    {
        let i = self.inverse(u[1]);
        let k2 = self.root(i);
        let y = self.product(w[3], i);
        let k1 = self.root(y);
        let s = self.sum(w[1], k1);
        let z = self.product(s, i);
        let k0 = self.root(z);
        let k = self.quadratic_row(k2, k1, k0);
        let m = self.quartic_row(1, w[3], s);
        let cw = self.scale(u[1], w);
        let ck = self.scale(u[1], k);
        let p = self.lifted_row(cw, ck, m, u);
        let q = self.exchanged_row(v, k, u);
        self.root_pair(p, q)
    }

    // Degree 2: where u1 is 0, u is a square.
    fn half_of_degree_2(self, u: Row, v: Row, w: Row) -> RowPair
        requires { HalvingRows self.degree 3 u v w }
        ensures { let d = self.degree in StandsPair d result (half_of_degree_2 (𝔸 d) (rows_triple d u v w)) }
    {
        if u[1] == 0 {
            self.root_pair(u, v)
        } else {
            self.lifted_half_of_degree_2(u, v, w)
        }
    }

    // Degree 3, the first lift, by r = √w3: w + r + w3 u, which is x⁴ + e2 x² + t² x + e0.
    fn first_lift(self, u: Row, w: Row, r: u64) -> Row
        requires u_in { InRange self.degree u }
        requires w_in { InRange self.degree w }
        requires root { let d = self.degree in Is d r ((F d).root (el d (get_or w 3 0))) }
        requires room { row_len self.degree u ≤ 5 }
        ensures { let d = self.degree in Stands d result (first_lift (𝔸 d) (poly d u) (poly d w)) }
    {
        let k = self.quadratic_row(0, 0, r);
        let m = self.quartic_row(0, 0, w[3]);
        self.lifted_row(w, k, m, u)
    }

    // Degree 3, the square after the second lift by (x + q)/t: t² u + t x + t q + (x² + g) s, where t² is the
    // coefficient of x in s and g is q².
    fn second_square(self, u: Row, s: Row, t: u64, q: u64, g: u64) -> Row
        requires u_in { InRange self.degree u }
        requires s_in { InRange self.degree s }
        requires t_in { t < 2 ^ degree_of self.degree }
        requires q_in { q < 2 ^ degree_of self.degree }
        requires g_in { g < 2 ^ degree_of self.degree }
        requires room { row_len self.degree s ≤ 5 }
        ensures { let d = self.degree in Stands d result (second_square (𝔸 d) (poly d u) (poly d s) (el d t) (el d q) (el d g)) }
    {
        let tq = self.product(t, q);
        let k = self.quadratic_row(0, t, tq);
        let m = self.quartic_row(0, 1, g);
        let eu = self.scale(s[1], u);
        self.lifted_row(eu, k, m, s)
    }

    // Degree 3, the second polynomial: v + r (u + a) + i z, where z is (x + q) s modulo a.
    fn second_remainder(self, u: Row, v: Row, s: Row, a: Row, r: u64, i: u64, q: u64) -> Row
        requires u_in { InRange self.degree u }
        requires v_in { InRange self.degree v }
        requires s_in { InRange self.degree s }
        requires a_in { InRange self.degree a }
        requires r_in { r < 2 ^ degree_of self.degree }
        requires i_in { i < 2 ^ degree_of self.degree }
        requires q_in { q < 2 ^ degree_of self.degree }
        requires u_short { row_len self.degree u ≤ 4 }
        requires a_cubic { row_len self.degree a ≡ 4 }
        ensures { let d = self.degree in Stands d result (second_remainder (𝔸 d) (poly d u) (poly d v) (poly d s) (poly d a) (el d r) (el d i) (el d q)) }
    {
        let b = self.divide(s, a).remainder;
        let y = self.quadratic_row(0, 1, q);
        let p = self.product_rows(y, b);
        let z = self.divide(p, a).remainder;
        let h = self.sum_rows(u, a);
        let l = self.add_multiple(v, r, h, 0);
        self.add_multiple(l, i, z, 0)
    }

    // Degree 3: where t is 0 the first lift is a square; else a second lift, by (x + q)/t with q = √(u1 + 1/t), and a
    // step.
    fn half_of_degree_3(self, u: Row, v: Row, w: Row) -> RowPair
        requires { HalvingRows self.degree 4 u v w }
        ensures { let d = self.degree in StandsPair d result (half_of_degree_3 (𝔸 d) (rows_triple d u v w)) }
    {
        let r = self.root(w[3]);
        let s = self.first_lift(u, w, r);
        let t = self.root(s[1]);
        if t == 0 {
            let k = self.quadratic_row(0, 0, r);
            let o = self.exchanged_row(v, k, u);
            return self.root_pair(s, o);
        }
        let i = self.inverse(t);
        let g = self.sum(u[1], i);
        let q = self.root(g);
        let p = self.second_square(u, s, t, q, g);
        let a = self.root_row(p);
        let o = self.second_remainder(u, v, s, a, r, i, q);
        RowPair { u: a, v: o }
    }
}

impl Curve {
    // The half of a reduced pair, given its cofactor w. The neutral class is its own half.
    pub(crate) fn half(self, a: RowPair, w: Row) -> RowPair
        requires reduced { ReducedRows self.field.degree self.f a }
        requires cofactor { CofactorRow self.field.degree self.f a w }
        ensures { let d = self.field.degree in (C : TheoryCurve (𝔸 d)) → OnCurve d self.f C → StandsPair d result (half C (rows_pair d a)) }
    {
        match length(a.u) {
            0 | 1 => RowPair { u: one(), v: ZERO },
            2 => self.field.half_of_degree_1(a.u, a.v, w),
            3 => self.field.half_of_degree_2(a.u, a.v, w),
            _ => self.field.half_of_degree_3(a.u, a.v, w),
        }
    }
}
