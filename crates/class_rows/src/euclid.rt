// Euclid's extended rule: recursion on the remainder, whose degree falls at each call.
ghost use Rattle.std.specs.Prelude.{ℕ, ◌+◌, ◌≤◌, ◌<◌, ◌^◌, ◌≡◌, List};
ghost use Rattle.row_theory.specs.{Field.degree_of, Field.𝔸, Field.el, Field.poly, Row.InRange, Row.Stands, Row.row_len};
ghost use Rattle.class_rows.specs.internal.Bezout.{Combines};

use crate::element::Field;
use crate::row::{Division, Row, ZERO, length, low_row, one};

// A common divisor g = s a + t b.
#[derive(Clone, Copy)]
pub(crate) struct Combination {
    pub g: Row,
    pub s: Row,
    pub t: Row,
}

impl Field {
    // The constant c.
    fn constant(self, c: u64) -> Row
        requires { c < 2 ^ degree_of self.degree }
        ensures { let d = self.degree in Stands d result ((𝔸 d).con (el d c)) }
    {
        low_row(c, 0, 0, 0, 0)
    }

    // The greatest common divisor of a and 0: a made monic.
    fn bezout_zero(self, a: Row) -> Combination
        requires { InRange self.degree a }
        ensures { let d = self.degree in (b : List ℕ) → row_len d b ≡ 0 → Combines d a b result }
    {
        if length(a) == 0 {
            return Combination {
                g: ZERO,
                s: ZERO,
                t: ZERO,
            };
        }
        let c = self.leading(a).inverse;
        Combination {
            g: self.scale(c, a),
            s: self.constant(c),
            t: ZERO,
        }
    }

    // The greatest common divisor of any polynomial and a constant other than 0: 1.
    fn bezout_constant(self, b: Row) -> Combination
        requires b_in { InRange self.degree b }
        requires constant { row_len self.degree b ≡ 1 }
        ensures { (a : List ℕ) → Combines self.degree a b result }
    {
        let c = self.leading(b).inverse;
        Combination {
            g: one(),
            s: ZERO,
            t: self.constant(c),
        }
    }

    // One step back: from g = s b + t r and a = q b + r, g = t a + (s + t q) b.
    fn substituted(self, q: Row, r: Combination) -> Combination
        requires q_in { InRange self.degree q }
        requires s_in { InRange self.degree r.s }
        requires t_in { InRange self.degree r.t }
        requires room { row_len self.degree r.t + row_len self.degree q ≤ 13 }
        ensures { let d = self.degree in (result.g ≡ r.g) × (result.s ≡ r.t) × Stands d result.t ((𝔸 d).ring.add (poly d r.s) ((𝔸 d).ring.mul (poly d r.t) (poly d q))) }
    {
        let Combination { g, s, t } = r;
        let product = self.product_rows(t, q);
        let next = self.sum_rows(s, product);
        Combination { g, s: t, t: next }
    }

    // The monic greatest common divisor of a and b, as a combination of them. s and t are not unique: the contract says
    // what holds of them.
    pub(crate) fn bezout(self, a: Row, b: Row) -> Combination
        requires a_in { InRange self.degree a }
        requires b_in { InRange self.degree b }
        requires a_short { row_len self.degree a ≤ 4 }
        requires b_short { row_len self.degree b ≤ 4 }
        ensures { Combines self.degree a b result }
    {
        match length(b) {
            0 => self.bezout_zero(a),
            1 => self.bezout_constant(b),
            _ => {
                let Division {
                    quotient,
                    remainder,
                } = self.divide(a, b);
                let r = self.bezout(b, remainder);
                self.substituted(quotient, r)
            }
        }
    }
}
