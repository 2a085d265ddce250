// The polynomial of a curve over the field of an accepted degree, and its value at an element.
ghost use Rattle.std.specs.Prelude.{◌<◌, ◌^◌, ◌≡◌};
ghost use Rattle.binary_field_theory.specs.Element.{Accepted};
ghost use Rattle.row_theory.specs.{Field.degree_of, Field.F, Field.el, Row.InRange, internal.Elements.Is};
ghost use Rattle.stamps.specs.Stamps.{value_at};

use class_rows::row::Row;

// A polynomial with elements of the field of degree d as coefficients, the lowest first.
// The field is not class_rows's `Field`, which is private to that crate; a polynomial has no rows of its own.
#[derive(Clone, Copy)]
pub(crate) struct Polynomial {
    pub d: u8,
    pub coefficients: Row,
    ghost accepted: { Accepted d },
    ghost in_range: { InRange d coefficients },
}

impl Polynomial {
    // r x + a, by the calls on elements. No product is computed where r is 0.
    fn times_plus(self, r: u64, x: u64, a: u64) -> u64
        requires { (r < 2 ^ degree_of self.d) × (x < 2 ^ degree_of self.d) × (a < 2 ^ degree_of self.d) }
        ensures { let d = self.d in Is d result ((F d).ring.add (el d a) ((F d).ring.mul (el d x) (el d r))) }
    {
        if r == 0 {
            return a;
        }
        let p = binary_field::product(self.d, x, r).unwrap();
        binary_field::sum(self.d, a, p).unwrap()
    }

    // The value at x, by Horner's rule.
    pub(crate) fn value_at(self, x: u64) -> u64
        requires { x < 2 ^ self.d }
        ensures { result ≡ value_at self.d self.coefficients x }
    {
        let mut r = 0;
        for &a in self.coefficients.iter().rev() {
            r = self.times_plus(r, x, a);
        }
        r
    }
}
