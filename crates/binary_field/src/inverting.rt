// The inverse of an element a other than 0: its power 2^d - 2 = 2 (2^(d-1) - 1), by an addition chain (Itoh and
// Tsujii). From the powers 2^j - 1 and 2^k - 1 of a, k squarings and one product make the power 2^(j+k) - 1.
ghost use Rattle.std.specs.Prelude.{◌≡◌, ◌-◌, ◌*◌, ◌<◌, ◌^◌};
ghost use Rattle.binary_field_theory.specs.Element.{product, squarings, power};
ghost use Rattle.binary_field.specs.Degree.{degree_number};

use crate::degree::Degree;
use crate::squaring::{Sixfold, Squaring};
use crate::{carryless, spreading, squaring};

// x, squared by n steps, times y.
#[tactic(auto, using(binary_field_theory::proofs::Words::ChainSteps::multiplied, crate::proofs::Degrees::accepted))]
fn joined<S: Squaring>(by: S, x: u64, n: u8, y: u64) -> u64
    requires { let d = degree_number (S.field_degree by) in (x < 2 ^ d) × (y < 2 ^ d) }
    ensures { let d = degree_number (S.field_degree by) in
        (result ≡ product d (squarings d (n * S.times) x) y) × (result < 2 ^ d) }
{
    carryless::product_of(by.degree(), squaring::stepped(by, x, n), y)
}

// The inverse in GF(2^5), by the chain 1, 2, 4.
fn inverse_5(a: u64) -> u64
    requires { a < 2 ^ 5 }
    ensures { result ≡ power 5 a (2 ^ 5 - 2) }
{
    let a2 = joined(Degree::Five, a, 1, a);
    let a4 = joined(Degree::Five, a2, 2, a2);
    spreading::square_of(Degree::Five, a4)
}

// The inverse in GF(2^61), by the chain 1, 2, 3, 6, 12, 24, 48, 60. From 6 on, six squarings are made at once.
fn inverse_61(a: u64) -> u64
    requires { a < 2 ^ 61 }
    ensures { result ≡ power 61 a (2 ^ 61 - 2) }
{
    let a2 = joined(Degree::SixtyOne, a, 1, a);
    let a3 = joined(Degree::SixtyOne, a2, 1, a);
    let a6 = joined(Degree::SixtyOne, a3, 3, a3);
    let a12 = joined(Sixfold, a6, 1, a6);
    let a24 = joined(Sixfold, a12, 2, a12);
    let a48 = joined(Sixfold, a24, 4, a24);
    let a60 = joined(Sixfold, a48, 2, a12);
    spreading::square_of(Degree::SixtyOne, a60)
}

// The inverse of an element other than 0. The degrees have chains of different steps, which share `joined` alone.
pub(crate) fn inverse_of(degree: Degree, a: u64) -> u64
    requires { a < 2 ^ degree_number degree }
    ensures { let d = degree_number degree in result ≡ power d a (2 ^ d - 2) }
{
    match degree {
        Degree::Five => inverse_5(a),
        Degree::SixtyOne => inverse_61(a),
    }
}
