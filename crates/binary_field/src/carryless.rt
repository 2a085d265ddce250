// The product of two elements without a table or a branch, by carry-less products made of integer products.
// The remainder multiplies the modulus by each high bit, 0 or 1. The leading term of the multiple cancels the bit, so
// that only its other terms are added.
ghost use Rattle.std.specs.Prelude.{◌≡◌, ℕ, ◌+◌, ◌*◌, ◌^◌, ◌<◌};
ghost use Rattle.binary_field_theory.specs.Carryless.{clmul, remainder};
ghost use Rattle.binary_field_theory.specs.Element.{low, product};
ghost use Rattle.binary_field.specs.Degree.{degree_number};

use crate::degree::Degree;
use std::marker::Model;

// The carry-less product of two 32-bit numbers. Each is cut into four parts by bit position modulo 4.
// In the integer product of two parts at most eight ones meet at a position, so that their count fits the four bits up
// to the next position. The lowest bit of the count is the exclusive or of the ones.
#[tactic(auto, using(crate::proofs::Masks::both_masked))]
pub(crate) fn clmul32(a: u64, b: u64) -> u64
    requires { (a < 2 ^ 32) × (b < 2 ^ 32) }
    ensures { result ≡ clmul a b }
{
    let a0 = a & 0x1111_1111;
    let a1 = a & 0x2222_2222;
    let a2 = a & 0x4444_4444;
    let a3 = a & 0x8888_8888;
    let b0 = b & 0x1111_1111;
    let b1 = b & 0x2222_2222;
    let b2 = b & 0x4444_4444;
    let b3 = b & 0x8888_8888;
    let z0 = ((a0 * b0) ^ (a1 * b3)) ^ ((a2 * b2) ^ (a3 * b1));
    let z1 = ((a0 * b1) ^ (a1 * b0)) ^ ((a2 * b3) ^ (a3 * b2));
    let z2 = ((a0 * b2) ^ (a1 * b1)) ^ ((a2 * b0) ^ (a3 * b3));
    let z3 = ((a0 * b3) ^ (a1 * b2)) ^ ((a2 * b1) ^ (a3 * b0));
    ((z0 & 0x1111_1111_1111_1111) ^ (z1 & 0x2222_2222_2222_2222))
        ^ ((z2 & 0x4444_4444_4444_4444) ^ (z3 & 0x8888_8888_8888_8888))
}

// A number of up to 122 bits in two words.
#[derive(Drop)]
pub(crate) struct Words {
    pub(crate) lo: u64,
    pub(crate) hi: u64,
}

impl Model for Words {
    ghost Value = { ℕ };

    ghost view = { λ w. w.hi * 2 ^ 61 + w.lo };

    ghost invariant = { λ w. (w.lo < 2 ^ 61) × (w.hi < 2 ^ 61) };
}

// The carry-less product of two 61-bit numbers by Karatsuba's rule: three products of halves of 31 and 30 bits.
pub(crate) fn wide_product(a: u64, b: u64) -> Words
    requires { (a < 2 ^ 61) × (b < 2 ^ 61) }
    ensures { result ≡ clmul a b }
{
    let a0 = a & 0x7fff_ffff;
    let b0 = b & 0x7fff_ffff;
    let a1 = a >> 31;
    let b1 = b >> 31;
    let low = clmul32(a0, b0);
    let high = clmul32(a1, b1);
    let both = clmul32(a0 ^ a1, b0 ^ b1);
    let middle = both ^ (low ^ high);
    Words {
        lo: (low ^ (middle << 31)) & 0x1fff_ffff_ffff_ffff,
        hi: (middle >> 30) ^ (high << 1),
    }
}

// The carry-less product of bits and m, by integer products of bits six apart.
// m has six bits, so that multiples by bits six apart do not overlap and nothing is carried.
// Two octal digits are six bits.
#[tactic(auto, using(crate::proofs::Masks::one_masked))]
fn multiples(bits: u64, m: u64) -> u64
    requires { (bits < 2 ^ 58) × (m < 2 ^ 6) }
    ensures { result ≡ clmul bits m }
{
    let m0 = (bits & 0o01_01_01_01_01_01_01_01_01_01) * m;
    let m1 = (bits & 0o02_02_02_02_02_02_02_02_02_02) * m;
    let m2 = (bits & 0o04_04_04_04_04_04_04_04_04_04) * m;
    let m3 = (bits & 0o10_10_10_10_10_10_10_10_10_10) * m;
    let m4 = (bits & 0o20_20_20_20_20_20_20_20_20_20) * m;
    let m5 = (bits & 0o40_40_40_40_40_40_40_40_40_40) * m;
    ((m0 ^ m1) ^ (m2 ^ m3)) ^ (m4 ^ m5)
}

// The remainder modulo t^5 + t^2 + 1. The bits of the multiples above t^4 are folded once more.
pub(crate) fn fold_5(n: u64) -> u64
    requires { n < 2 ^ 10 }
    ensures { result ≡ remainder 5 (low 5) n }
{
    let first = multiples(n >> 5, 0b101);
    let second = multiples(first >> 5, 0b101);
    ((n & 0x1f) ^ (first & 0x1f)) ^ second
}

// The remainder modulo t^61 + t^5 + t^2 + t + 1. The bits from t^117 on, whose multiples reach above t^60, are folded
// first, each by a product of its own. Then the bits below are folded, with those of the first multiples above t^60.
pub(crate) fn fold_61(w: Words) -> u64
    ensures { result ≡ remainder 61 (low 61) w }
{
    let Words { lo, hi } = w;
    let first = multiples(hi >> 56, 0b10_0111);
    let second = multiples((hi & 0xff_ffff_ffff_ffff) ^ (first >> 5), 0b10_0111);
    (lo ^ ((first & 0x1f) << 56)) ^ second
}

// The product of two elements. Only the degree is tested: no branch, no loop end and no index depends on an element.
pub(crate) fn product_of(degree: Degree, a: u64, b: u64) -> u64
    requires { (a < 2 ^ degree_number degree) × (b < 2 ^ degree_number degree) }
    ensures { result ≡ product (degree_number degree) a b }
{
    match degree {
        Degree::Five => fold_5(clmul32(a, b)),
        Degree::SixtyOne => fold_61(wide_product(a, b)),
    }
}
