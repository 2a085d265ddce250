// Squaring an element again and again: once in a step in the field of a degree, or six times in GF(2^61).
ghost use Rattle.std.specs.Prelude.{◌≡◌, ℕ, ◌*◌, ◌<◌, ◌^◌};
ghost use Rattle.binary_field_theory.specs.Element.{squarings};
ghost use Rattle.binary_field.specs.declared.degree.Degree.{Degree};
ghost use Rattle.binary_field.specs.declared.degree.Degree.TheVariants.{SixtyOne};
ghost use Rattle.binary_field.specs.Degree.{degree_number};

use crate::degree::Degree;
use crate::{multisquaring, spreading};

// A step that squares an element of a field a fixed number of times. A degree is the step of one squaring in its field.
pub(crate) trait Squaring: Copy {
    ghost field_degree: { Self → Degree };

    ghost times: { ℕ };

    fn degree(self) -> Degree
        ensures { result ≡ field_degree self };

    // An element, squared that many times.
    fn step(self, a: u64) -> u64
        requires { a < 2 ^ degree_number (field_degree self) }
        ensures { result ≡ squarings (degree_number (field_degree self)) times a };
}

impl Squaring for Degree {
    ghost field_degree = { λ degree. degree };

    ghost times = { 1 };

    fn degree(self) -> Degree {
        self
    }

    #[tactic(auto, unfolding(binary_field_theory::specs::Element::squarings))]
    fn step(self, a: u64) -> u64 {
        spreading::square_of(self, a)
    }
}

// Six squarings in one step, in GF(2^61).
#[derive(Clone, Copy)]
pub(crate) struct Sixfold;

impl Squaring for Sixfold {
    ghost field_degree = { λ _. SixtyOne };

    ghost times = { 6 };

    fn degree(self) -> Degree {
        Degree::SixtyOne
    }

    fn step(self, a: u64) -> u64 {
        multisquaring::multisquare(a)
    }
}

// An element squared by n steps.
pub(crate) fn stepped<S: Squaring>(by: S, a: u64, n: u8) -> u64
    requires { a < 2 ^ degree_number (S.field_degree by) }
    ensures { let d = degree_number (S.field_degree by) in
        (result ≡ squarings d (n * S.times) a) × (result < 2 ^ d) }
{
    let mut power = a;
    for _ in 0..n {
        power = by.step(power);
    }
    power
}
