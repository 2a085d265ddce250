// The quotient alone, with half of the products of a division, where the division is exact or the remainder not needed.
ghost use Rattle.std.specs.Prelude.{ℕ, ◌<◌, ◌≡◌, get_or};
ghost use Rattle.char2_algebra.specs.Lead.{Monic};
ghost use Rattle.row_theory.specs.{Field.𝔸, Field.poly, internal.Elements.Is, Row.InRange, Row.Stands};

use crate::element::Field;
use crate::row::{Row, ZERO, length};

impl Field {
    // The coefficient of x^k in q b, where q has no coefficient below x^from.
    fn product_at(self, q: Row, b: Row, from: usize, k: usize) -> u64
        requires q_in { InRange self.degree q }
        requires b_in { InRange self.degree b }
        requires within { k < 12 }
        requires blank { (i : ℕ) → i < from → get_or q i 0 ≡ 0 }
        ensures { let d = self.degree in Is d result ((𝔸 d).coeff ((𝔸 d).ring.mul (poly d q) (poly d b)) k) }
    {
        let mut sum: u64 = 0;
        for j in from..k + 1 {
            sum = self.sum(sum, self.product(q[j], b[k - j]));
        }
        sum
    }

    // The quotient of a by b, which is monic, the highest coefficient first.
    pub(crate) fn quotient(self, a: Row, b: Row) -> Row
        requires a_in { InRange self.degree a }
        requires b_in { InRange self.degree b }
        requires monic { let d = self.degree in Monic (𝔸 d) (poly d b) }
        ensures { let d = self.degree in Stands d result ((𝔸 d).quot (poly d a) (poly d b)) }
    {
        let top = length(b) - 1;
        let mut q = ZERO;
        for k in (top..length(a)).rev() {
            let s = k - top;
            q[s] = self.sum(a[k], self.product_at(q, b, s + 1, k));
        }
        q
    }
}
