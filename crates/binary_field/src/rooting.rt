// The square root of an element a = e^2 + t o^2: e plus o times the root of t.
// e has the bits of a at even positions, o those at odd positions.
ghost use Rattle.std.specs.Prelude.{◌≡◌, ◌<◌, ◌^◌};
ghost use Rattle.binary_field_theory.specs.Carryless.{clmul};
ghost use Rattle.binary_field_theory.specs.Element.{product, square, root};
ghost use Rattle.binary_field_theory.specs.Spreading.{evens};
ghost use Rattle.binary_field.specs.Degree.{degree_number};

use crate::carryless;
use crate::carryless::Words;
use crate::degree::Degree;

// The bits at even positions, gathered in runs of doubling length.
fn evens_of(n: u64) -> u64
    ensures { result ≡ evens 32 n }
{
    let ones = n & 0x5555_5555_5555_5555;
    let twos = (ones ^ (ones >> 1)) & 0x3333_3333_3333_3333;
    let fours = (twos ^ (twos >> 2)) & 0x0f0f_0f0f_0f0f_0f0f;
    let eights = (fours ^ (fours >> 4)) & 0x00ff_00ff_00ff_00ff;
    let sixteens = (eights ^ (eights >> 8)) & 0x0000_ffff_0000_ffff;
    (sixteens ^ (sixteens >> 16)) & 0xffff_ffff
}

// The carry-less product of n, of thirty bits, and r = t^62 + t^61 + .. + t^31 + t^6 + t^5 + t^4 + t.
// The square of r is t modulo the modulus of degree 61.
// The run of 32 powers of t is the product of t^31, 1 + t, 1 + t^2, 1 + t^4, 1 + t^8 and 1 + t^16.
fn wide_times_root(n: u64) -> Words
    requires { n < 2 ^ 30 }
    ensures { result ≡ clmul n 0x7fff_ffff_8000_0072 }
{
    let twos = n ^ (n << 1);
    let fours = twos ^ (twos << 2);
    let eights = fours ^ (fours << 4);
    let sixteens = eights ^ (eights << 8);
    let run = sixteens ^ (sixteens << 16);
    let rest = ((n << 1) ^ (n << 4)) ^ ((n << 5) ^ (n << 6));
    Words {
        lo: ((run << 31) ^ rest) & 0x1fff_ffff_ffff_ffff,
        hi: run >> 30,
    }
}

// n times the square root of t: its square is t times the square of n.
fn times_root_of_t(degree: Degree, n: u64) -> u64
    requires { (n < 2 ^ degree_number degree) × (n < 2 ^ 30) }
    ensures { let d = degree_number degree in (square d result ≡ product d 2 (square d n)) × (result < 2 ^ d) }
{
    match degree {
        Degree::Five => carryless::product_of(Degree::Five, n, 0x1b),
        Degree::SixtyOne => carryless::fold_61(wide_times_root(n)),
    }
}

// The square root of an element, from its bits at even and at odd positions.
#[tactic(auto, using(binary_field_theory::proofs::Words::Roots::root_made, binary_field_theory::proofs::Words::Roots::odd_below, crate::proofs::Degrees::accepted))]
pub(crate) fn root_of(degree: Degree, a: u64) -> u64
    requires { a < 2 ^ degree_number degree }
    ensures { result ≡ root (degree_number degree) a }
{
    let e = evens_of(a);
    let o = evens_of(a >> 1);
    e ^ times_root_of_t(degree, o)
}
