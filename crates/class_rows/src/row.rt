// Polynomials as rows of twelve coefficients by value, the lowest first.
ghost use Rattle.std.specs.Prelude.{ℕ, suc, ◌+◌, ◌≤◌, ◌<◌, ◌^◌, ◌≡◌, [], ◌∷◌};
ghost use Rattle.char2_algebra.specs.{Lead.lead, Lead.monic_of, Square.sqrt};
ghost use Rattle.row_theory.specs.{Field.degree_of, Field.𝔸, Field.el, Field.poly, internal.Elements.Inverts, Row.InRange, Row.Stands, Row.filled, Row.places, Row.row_len, internal.Elements.x_power};

use crate::element::Field;

// The number of coefficients of a row.
pub const ROW_LENGTH: usize = 12;

// The coefficients, the lowest first, and 0 after them.
// A row alone is an array, so its range (`InRange`) is a `requires` of each function that takes one.
pub type Row = [u64; ROW_LENGTH];

// The row of the polynomial 0.
pub(crate) const ZERO: Row = [0; ROW_LENGTH];

// A Mumford pair as two rows.
#[derive(Clone, Copy)]
pub struct RowPair {
    pub u: Row,
    pub v: Row,
}

// The quotient and the remainder of a division.
#[derive(Clone, Copy)]
pub(crate) struct Division {
    pub quotient: Row,
    pub remainder: Row,
}

// The index of the leading coefficient, and its inverse.
#[derive(Clone, Copy)]
pub(crate) struct Lead {
    pub top: usize,
    pub inverse: u64,
}

// One more than the index of the last number that is not 0: the degree plus one.
pub fn length(a: Row) -> usize
    ensures { result ≡ places a }
{
    for n in (0..ROW_LENGTH).rev() {
        if a[n] != 0 {
            return n + 1;
        }
    }
    0
}

// The row of the five lowest coefficients. The literal stands once.
pub(crate) fn low_row(c0: u64, c1: u64, c2: u64, c3: u64, c4: u64) -> Row
    ensures { result ≡ filled (c0 ∷ c1 ∷ c2 ∷ c3 ∷ c4 ∷ []) }
{
    [c0, c1, c2, c3, c4, 0, 0, 0, 0, 0, 0, 0]
}

// The polynomial 1.
pub(crate) fn one() -> Row
    ensures { (d : ℕ) → Stands d result (𝔸 d).ring.one }
{
    low_row(1, 0, 0, 0, 0)
}

impl Field {
    // The index and the inverse of the leading coefficient. 1 is not inverted.
    pub(crate) fn leading(self, a: Row) -> Lead
        requires a_in { InRange self.degree a }
        requires nonzero { let d = self.degree in ¬ (poly d a ≡ (𝔸 d).ring.zero) }
        ensures within { result.top < 12 }
        ensures top { row_len self.degree a ≡ suc result.top }
        ensures inverse { let d = self.degree in Inverts d result.inverse (lead (𝔸 d) (poly d a)) }
    {
        let top = length(a) - 1;
        Lead {
            top,
            inverse: self.inverse(a[top]),
        }
    }

    // The sum.
    pub(crate) fn sum_rows(self, a: Row, b: Row) -> Row
        requires a_in { InRange self.degree a }
        requires b_in { InRange self.degree b }
        ensures { let d = self.degree in Stands d result ((𝔸 d).ring.add (poly d a) (poly d b)) }
    {
        self.add_multiple(a, 1, b, 0)
    }

    // The row of a + c x^shift b. No product is computed where c is 0 or 1.
    pub(crate) fn add_multiple(self, a: Row, c: u64, b: Row, shift: usize) -> Row
        requires a_in { InRange self.degree a }
        requires c_in { c < 2 ^ degree_of self.degree }
        requires b_in { InRange self.degree b }
        requires room { row_len self.degree b + shift ≤ 12 }
        ensures { let d = self.degree in Stands d result ((𝔸 d).ring.add (poly d a) ((𝔸 d).ring.mul ((𝔸 d).con (el d c)) ((𝔸 d).ring.mul (x_power d shift) (poly d b)))) }
    {
        if c == 0 {
            return a;
        }
        let mut r = a;
        for i in 0..length(b) {
            r[shift + i] = self.sum(r[shift + i], self.product(c, b[i]));
        }
        r
    }

    // The row of c a.
    pub(crate) fn scale(self, c: u64, a: Row) -> Row
        requires c_in { c < 2 ^ degree_of self.degree }
        requires a_in { InRange self.degree a }
        ensures { let d = self.degree in Stands d result ((𝔸 d).ring.mul ((𝔸 d).con (el d c)) (poly d a)) }
    {
        self.add_multiple(ZERO, c, a, 0)
    }

    // The square: the squares of the coefficients, at the even powers.
    pub(crate) fn square_row(self, a: Row) -> Row
        requires a_in { InRange self.degree a }
        requires short { row_len self.degree a ≤ 6 }
        ensures { let d = self.degree in Stands d result ((𝔸 d).ring.mul (poly d a) (poly d a)) }
    {
        let mut r = ZERO;
        for i in 0..length(a) {
            r[i + i] = self.square(a[i]);
        }
        r
    }

    // The product.
    pub(crate) fn product_rows(self, a: Row, b: Row) -> Row
        requires a_in { InRange self.degree a }
        requires b_in { InRange self.degree b }
        requires room { row_len self.degree a + row_len self.degree b ≤ 13 }
        ensures { let d = self.degree in Stands d result ((𝔸 d).ring.mul (poly d a) (poly d b)) }
    {
        let mut r = ZERO;
        for i in 0..length(a) {
            // A row that a call answers is bound before it replaces another: the check does not cover the assignment of a call.
            let next = self.add_multiple(r, a[i], b, i);
            r = next;
        }
        r
    }

    // Quotient and remainder. The leading coefficient of b is inverted once, and not at all where it is 1.
    pub(crate) fn divide(self, a: Row, b: Row) -> Division
        requires a_in { InRange self.degree a }
        requires b_in { InRange self.degree b }
        requires nonzero { let d = self.degree in ¬ (poly d b ≡ (𝔸 d).ring.zero) }
        ensures { let d = self.degree in Stands d result.quotient ((𝔸 d).quot (poly d a) (poly d b)) × Stands d result.remainder ((𝔸 d).rem (poly d a) (poly d b)) }
    {
        let Lead { top, inverse } = self.leading(b);
        let mut low = b;
        low[top] = 0;
        let mut quotient = ZERO;
        let mut remainder = a;
        for k in (top..length(a)).rev() {
            let c = self.product(remainder[k], inverse);
            quotient[k - top] = c;
            remainder[k] = 0;
            // A row that a call answers is bound before it replaces another: the check does not cover the assignment of a call.
            let next = self.add_multiple(remainder, c, low, k - top);
            remainder = next;
        }
        Division {
            quotient,
            remainder,
        }
    }

    // a divided by its leading coefficient.
    pub(crate) fn monic(self, a: Row) -> Row
        requires a_in { InRange self.degree a }
        requires nonzero { let d = self.degree in ¬ (poly d a ≡ (𝔸 d).ring.zero) }
        ensures { let d = self.degree in Stands d result (monic_of (𝔸 d) (poly d a)) }
    {
        let Lead { top, inverse } = self.leading(a);
        if inverse == 1 {
            return a;
        }
        let mut low = a;
        low[top] = 0;
        let mut r = self.scale(inverse, low);
        r[top] = 1;
        r
    }

    // The square root of a polynomial without odd powers: the square roots of the even coefficients.
    pub(crate) fn root_row(self, a: Row) -> Row
        requires { InRange self.degree a }
        ensures { let d = self.degree in Stands d result (sqrt (𝔸 d) (poly d a)) }
    {
        let mut r = ZERO;
        for i in 0..(length(a) + 1) / 2 {
            r[i] = self.root(a[i + i]);
        }
        r
    }
}
