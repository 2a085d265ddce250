// Trace and half-trace of an element a: they say whether y² + y = a has a root, and give one.
ghost use Rattle.std.specs.Prelude.{◌≡◌, ◌*◌, ◌<◌, ◌^◌};
ghost use Rattle.binary_field_theory.specs.Carryless.{◌⊕◌};
ghost use Rattle.binary_field_theory.specs.Element.{squarings};
ghost use Rattle.binary_field_theory.specs.Quadratic.{trace, half_trace};
ghost use Rattle.binary_field.specs.Degree.{degree_number};

use crate::degree::Degree;
use crate::squaring;
use crate::squaring::{Sixfold, Squaring};

// The trace: the sum of bits 0 and d - 2.
#[tactic(auto, using(binary_field_theory::proofs::Words::HalfTraces::trace_by_digits, crate::proofs::Degrees::accepted))]
pub(crate) fn trace_of(degree: Degree, a: u64) -> u64
    requires { a < 2 ^ degree_number degree }
    ensures { result ≡ trace (degree_number degree) a }
{
    let d = u8::from(degree);
    (a ^ (a >> (d - 2))) % 2
}

// x, squared by n steps, plus y.
fn terms_joined<S: Squaring>(by: S, x: u64, n: u8, y: u64) -> u64
    requires { let d = degree_number (S.field_degree by) in (x < 2 ^ d) × (y < 2 ^ d) }
    ensures { let d = degree_number (S.field_degree by) in
        (result ≡ squarings d (n * S.times) x ⊕ y) × (result < 2 ^ d) }
{
    squaring::stepped(by, x, n) ^ y
}

// The half-trace in GF(2^5): the three terms a + a^4 + a^16.
fn half_trace_5(a: u64) -> u64
    requires { a < 2 ^ 5 }
    ensures { result ≡ half_trace 5 a }
{
    let h2 = terms_joined(Degree::Five, a, 2, a);
    terms_joined(Degree::Five, h2, 2, a)
}

// The half-trace in GF(2^61): the 31 terms a + a^4 + .. + a^(2^60), by the chain 1, 2, 3, 6, 12, 24, 30, 31.
// From j terms and k terms, 2 j squarings of the k terms and a sum make j + k terms.
fn half_trace_61(a: u64) -> u64
    requires { a < 2 ^ 61 }
    ensures { result ≡ half_trace 61 a }
{
    let h2 = terms_joined(Degree::SixtyOne, a, 2, a);
    let h3 = terms_joined(Degree::SixtyOne, h2, 2, a);
    let h6 = terms_joined(Sixfold, h3, 1, h3);
    let h12 = terms_joined(Sixfold, h6, 2, h6);
    let h24 = terms_joined(Sixfold, h12, 4, h12);
    let h30 = terms_joined(Sixfold, h24, 2, h6);
    terms_joined(Degree::SixtyOne, h30, 2, a)
}

// The half-trace. The degrees have chains of different steps, which share `terms_joined` alone.
pub(crate) fn half_trace_of(degree: Degree, a: u64) -> u64
    requires { a < 2 ^ degree_number degree }
    ensures { result ≡ half_trace (degree_number degree) a }
{
    match degree {
        Degree::Five => half_trace_5(a),
        Degree::SixtyOne => half_trace_61(a),
    }
}
