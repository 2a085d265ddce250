// n times a class, and a class halved k times, by value.
// The refusal is that of the first check that fails: 106 and 107 of the curve, then 104, 110 and 111 of the class, then
// 118 of n or 119 of k.
ghost use Rattle.std.specs.Prelude.{◌≤◌, ◌<◌, ◌/◌, ◌^◌, ◌≡◌};
ghost use Rattle.refusals.specs.Refusals.{refusal_of};
ghost use Rattle.jacobian.specs.Answer.{Accepts};
ghost use Rattle.seal_licence.specs.Multiples.{multiple_limit, class_result, multiple_class, halved_class, multiple_refusal, halvings_refusal, multiple_answer, HalvingsAnswers};

use jacobian::{Class, Curve};
use refusals::Refusal;

// One more than the largest n: 2^61, so that n has at most 61 binary digits.
pub const MULTIPLE_LIMIT: u64 = 0x2000_0000_0000_0000;

// The largest k.
pub const HALVINGS_LIMIT: u64 = 64;

// n times a class from n / 2 times it: the double, plus the class where n is odd.
fn doubled(curve: Curve, a: Class, n: u64, half: Class) -> Class
    requires { Accepts curve a × (half ≡ multiple_class curve a (n / 2)) }
    ensures { result ≡ multiple_class curve a n }
{
    if n % 2 == 1 {
        return jacobian::double_and_add(curve, half, a).unwrap().class;
    }
    jacobian::double(curve, half).unwrap().class
}

// Bit length of n: n / 2^r is 0.
fn digits(n: u64) -> u32
    requires { n < multiple_limit }
    ensures { (result ≤ 61) × (n / 2 ^ result ≡ 0) }
{
    u64::BITS - n.leading_zeros()
}

// n times an accepted class, by the binary digits of n, the highest first.
fn multiple_of_accepted(curve: Curve, a: Class, n: u64) -> Class
    requires { Accepts curve a × (n < multiple_limit) }
    ensures { result ≡ multiple_class curve a n }
{
    let mut times = jacobian::neutral();
    for i in (0..digits(n)).rev() {
        times = doubled(curve, a, n >> i, times);
    }
    times
}

// An accepted class halved k times.
fn halved_of_accepted(curve: Curve, a: Class, k: u64) -> Class
    requires { Accepts curve a }
    ensures { result ≡ halved_class curve a k }
{
    let mut half = a;
    for _ in 0..k {
        half = jacobian::half(curve, half).unwrap().class;
    }
    half
}

// The checks of n times a class.
#[tactic(auto, using(binary_field::proofs::Refusing::stops_first, binary_field::proofs::Refusing::goes_on), unfolding(crate::specs::Multiples::multiple_refusal, jacobian::specs::Checks::unless))]
fn check_multiple(curve: Curve, a: Class, n: u64) -> Result<(), Refusal>
    ensures { refusal_of result ≡ multiple_refusal curve a n }
{
    jacobian::check_class(curve, a)?;
    if MULTIPLE_LIMIT <= n {
        return Err(Refusal::MultipleTooLarge);
    }
    Ok(())
}

// The checks of a class halved k times.
#[tactic(auto, using(binary_field::proofs::Refusing::stops_first, binary_field::proofs::Refusing::goes_on), unfolding(crate::specs::Multiples::halvings_refusal, jacobian::specs::Checks::unless))]
fn check_halvings(curve: Curve, a: Class, k: u64) -> Result<(), Refusal>
    ensures { refusal_of result ≡ halvings_refusal curve a k }
{
    jacobian::check_class(curve, a)?;
    if HALVINGS_LIMIT < k {
        return Err(Refusal::TooManyHalvings);
    }
    Ok(())
}

// n times a class.
#[tactic(auto, using(crate::proofs::Answers::multiple_stops, crate::proofs::Answers::multiple_given))]
pub fn multiple(curve: Curve, a: Class, n: u64) -> Result<Class, Refusal>
    ensures { class_result result ≡ multiple_answer curve a n }
{
    check_multiple(curve, a, n)?;
    Ok(multiple_of_accepted(curve, a, n))
}

// A class halved k times: the one class that k doublings take to it.
#[tactic(auto, using(crate::proofs::Theorems::halvings_stop, crate::proofs::Theorems::halvings_given, crate::proofs::Answers::halvings_accepted))]
pub fn halvings(curve: Curve, a: Class, k: u64) -> Result<Class, Refusal>
    ensures { HalvingsAnswers curve a k (class_result result) }
{
    check_halvings(curve, a, k)?;
    Ok(halved_of_accepted(curve, a, k))
}
