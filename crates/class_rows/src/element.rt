// An accepted field, GF(2^5) or GF(2^61), and its elements by the calls of binary_field. Each method requires numbers in
// range, so that the call is not refused.
ghost use Rattle.std.specs.Prelude.{◌<◌, ◌^◌, ◌≡◌, MatchOption};
ghost use Rattle.binary_field_theory.specs.Element.{Accepted};
ghost use Rattle.row_theory.specs.{Field.degree_of, Field.F, Field.el, internal.Elements.Is, internal.Elements.Inverts};
ghost use lib.Dec.{T_prop};

// A field by its degree, which is accepted.
#[derive(Clone, Copy)]
pub(crate) struct Field {
    pub degree: u8,
    ghost accepted: { Accepted degree } by { T_prop _ },
}

impl Field {
    // The field of a degree, or `None` where the degree is not accepted.
    pub(crate) fn of_degree(degree: u8) -> Option<Field>
        ensures { MatchOption result (¬ Accepted degree) (λ field. field.degree ≡ degree) }
    {
        binary_field::check_degree(degree).ok()?;
        Some(Field { degree })
    }

    // The sum.
    pub(crate) fn sum(self, a: u64, b: u64) -> u64
        requires a_in { a < 2 ^ degree_of self.degree }
        requires b_in { b < 2 ^ degree_of self.degree }
        ensures { let d = self.degree in Is d result ((F d).ring.add (el d a) (el d b)) }
    {
        binary_field::sum(self.degree, a, b).unwrap()
    }

    // The product. No call is made where a factor is 0 or 1.
    pub(crate) fn product(self, a: u64, b: u64) -> u64
        requires a_in { a < 2 ^ degree_of self.degree }
        requires b_in { b < 2 ^ degree_of self.degree }
        ensures { let d = self.degree in Is d result ((F d).ring.mul (el d a) (el d b)) }
    {
        match a {
            0 => 0,
            1 => b,
            _ => match b {
                0 => 0,
                1 => a,
                _ => binary_field::product(self.degree, a, b).unwrap(),
            },
        }
    }

    // The square.
    pub(crate) fn square(self, a: u64) -> u64
        requires { a < 2 ^ degree_of self.degree }
        ensures { let d = self.degree in Is d result ((F d).ring.mul (el d a) (el d a)) }
    {
        binary_field::square(self.degree, a).unwrap()
    }

    // The square root.
    pub(crate) fn root(self, a: u64) -> u64
        requires { a < 2 ^ degree_of self.degree }
        ensures { let d = self.degree in Is d result ((F d).root (el d a)) }
    {
        binary_field::square_root(self.degree, a).unwrap()
    }

    // The inverse of an element that is shown not to be 0; 1 is its own inverse. Every division goes through this
    // function.
    pub(crate) fn inverse(self, a: u64) -> u64
        requires a_in { a < 2 ^ degree_of self.degree }
        requires nonzero { ¬ (a ≡ 0) }
        ensures { let d = self.degree in Inverts d result (el d a) }
    {
        if a == 1 {
            1
        } else {
            binary_field::inverse(self.degree, a).unwrap()
        }
    }
}
