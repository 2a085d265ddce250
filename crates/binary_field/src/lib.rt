// Elements of GF(2^5) and GF(2^61): numbers below 2^d whose bit i is the coefficient of t^i.
// A call refuses with 106 for a degree other than 5 and 61, then with 110 for a number of 2^d or more.
// The inverse then refuses 0 with 117.
#![tactic(auto)]

ghost use Rattle.std.specs.Prelude.{◌≡◌, ◌^◌, ltb, [], ◌∷◌};
ghost use Rattle.binary_field.specs.Checks.{unless};
ghost use Rattle.binary_field.specs.Degree.{degree_number};
ghost use Rattle.refusals.specs.Refusals.{refusal_of};
ghost use Rattle.binary_field.specs.Answer.{reply, below, bound, degree_refusal, sum_reply, product_reply, square_reply, root_reply, inverse_reply, solution_reply, quadratic_reply};

mod carryless;
mod degree;
mod inverting;
mod multisquaring;
mod quadratics;
mod rooting;
mod spreading;
mod squaring;

use crate::degree::Degree;
use refusals::Refusal;

// The number of elements of the field of degree d, 2^d; 0 for a refused degree.
pub fn bound(d: u8) -> u64
    ensures { result ≡ bound d }
{
    match Degree::try_from(d) {
        Ok(degree) => degree.bound(),
        Err(_) => 0,
    }
}

// Refuses a degree other than 5 and 61.
pub fn check_degree(d: u8) -> Result<(), Refusal>
    ensures { refusal_of result ≡ degree_refusal d }
{
    Degree::try_from(d)?;
    Ok(())
}

// Refuses a number that is no element of the field.
fn check_element(degree: Degree, a: u64) -> Result<(), Refusal>
    ensures { refusal_of result ≡ unless (below (2 ^ degree_number degree) (a ∷ [])) 110 }
{
    if a < degree.bound() {
        Ok(())
    } else {
        Err(Refusal::NotAnElement)
    }
}

// Refuses two numbers of which one is no element of the field.
fn check_elements(degree: Degree, a: u64, b: u64) -> Result<(), Refusal>
    ensures { refusal_of result ≡ unless (below (2 ^ degree_number degree) (a ∷ b ∷ [])) 110 }
{
    check_element(degree, a)?;
    check_element(degree, b)
}

// Refuses 0, which has no inverse.
fn check_invertible(a: u64) -> Result<(), Refusal>
    ensures { refusal_of result ≡ unless (ltb 0 a) 117 }
{
    match a {
        0 => Err(Refusal::ZeroHasNoInverse),
        _ => Ok(()),
    }
}

// The sum of two elements.
#[tactic(auto, using(crate::proofs::Replies::answering), unfolding(crate::specs::Answer::sum_reply))]
pub fn sum(d: u8, a: u64, b: u64) -> Result<u64, Refusal>
    ensures { reply result ≡ sum_reply d a b }
{
    let degree = Degree::try_from(d)?;
    check_elements(degree, a, b)?;
    Ok(a ^ b)
}

// The product of two elements.
#[tactic(auto, using(crate::proofs::Replies::answering), unfolding(crate::specs::Answer::product_reply))]
pub fn product(d: u8, a: u64, b: u64) -> Result<u64, Refusal>
    ensures { reply result ≡ product_reply d a b }
{
    let degree = Degree::try_from(d)?;
    check_elements(degree, a, b)?;
    Ok(carryless::product_of(degree, a, b))
}

// The square of an element.
#[tactic(auto, using(crate::proofs::Replies::answering), unfolding(crate::specs::Answer::square_reply))]
pub fn square(d: u8, a: u64) -> Result<u64, Refusal>
    ensures { reply result ≡ square_reply d a }
{
    let degree = Degree::try_from(d)?;
    check_element(degree, a)?;
    Ok(spreading::square_of(degree, a))
}

// The square root of an element.
#[tactic(auto, using(crate::proofs::Replies::answering), unfolding(crate::specs::Answer::root_reply))]
pub fn square_root(d: u8, a: u64) -> Result<u64, Refusal>
    ensures { reply result ≡ root_reply d a }
{
    let degree = Degree::try_from(d)?;
    check_element(degree, a)?;
    Ok(rooting::root_of(degree, a))
}

// The inverse of an element. 0 has none and is refused.
#[tactic(auto, using(crate::proofs::Replies::answering, crate::proofs::Replies::inverse_refuses, crate::proofs::Replies::inverse_answers, crate::proofs::Replies::inverse_refused, crate::proofs::Replies::then_invertible))]
pub fn inverse(d: u8, a: u64) -> Result<u64, Refusal>
    ensures { reply result ≡ inverse_reply d a }
{
    // 0 is tested last, after the degree and the range.
    let degree = Degree::try_from(d)?;
    check_element(degree, a)?;
    check_invertible(a)?;
    Ok(inverting::inverse_of(degree, a))
}

// The root of y² + y = a with lowest bit 0: the half-trace of a with that bit cleared, if the trace of a is 0.
#[tactic(auto, using(crate::proofs::Replies::answering, crate::proofs::Replies::quadratic_refused))]
pub fn quadratic_root(d: u8, a: u64) -> Result<Option<u64>, Refusal>
    ensures { solution_reply result ≡ quadratic_reply d a }
{
    let degree = Degree::try_from(d)?;
    check_element(degree, a)?;
    if quadratics::trace_of(degree, a) != 0 {
        return Ok(None);
    }
    let h = quadratics::half_trace_of(degree, a);
    Ok(Some(h ^ (h % 2)))
}
