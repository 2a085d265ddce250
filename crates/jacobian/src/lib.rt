// Reduced divisor classes on y² + y = f(x) over GF(2^5) and GF(2^61), by value.
// The checks come in the stored order: 106 and 107 for the curve, then 104, 110 and 111 for each class.
// A call takes the curve beside its classes, since one curve has many of them.
#![tactic(auto)]

ghost use Rattle.std.specs.Prelude.{ℕ, ◌≡◌, Some, is_some};
ghost use Rattle.class_group.specs.Reduction.{Counted};
ghost use Rattle.row_theory.specs.Field.{Poly};
ghost use Rattle.class_rows.specs.{Core.StandsCounted, declared.reduction.CountedRows.CountedRows as TheRows};
ghost use Rattle.refusals.specs.Refusals.{refusal_of};
ghost use Rattle.jacobian.specs.{Checks.unless, Checks.◌or_else◌, Curves.curve_refusal, internal.Refusals.form_refusal, internal.Refusals.FormRefusalOfTwo};
ghost use Rattle.jacobian.specs.Answer.{neutral_class, refusal, verdict, reply, answered, curve_answer, membership_answer, unary_answer, opposite_answer, double_answer, HalfAnswers, binary_answer, sum_answer, double_and_add_answer, SubtractAndHalveAnswers};

pub mod classes;
pub mod curves;

use class_rows::reduction::CountedRows;
use class_rows::{Binary, Unary, binary_rows, unary_rows};
use refusals::Refusal;

// A curve. Curves and classes have C's layout, since a register in C's layout contains them.
#[repr(C)]
#[derive(Clone, Copy, PartialEq, Eq)]
pub struct Curve {
    pub degree: u8,
    pub f3: u64,
    pub f1: u64,
    pub f0: u64,
}

// A class: the degree of u, the coefficients of u below its leading 1, and those of v, the lowest power first.
#[repr(C)]
#[derive(Clone, Copy, PartialEq, Eq)]
pub struct Class {
    pub degree: u64,
    pub u: [u64; 3],
    pub v: [u64; 3],
}

// A class with the number of reduction steps that led to it.
#[derive(Clone, Copy)]
pub struct CountedClass {
    pub class: Class,
    pub steps: u32,
}

// The neutral class [1, 0].
#[tactic(auto, unfolding(crate::specs::Answer::neutral_class))]
pub fn neutral() -> Class
    ensures { result ≡ neutral_class }
{
    Class {
        degree: 0,
        u: [0, 0, 0],
        v: [0, 0, 0],
    }
}

// The checks of a call on one class before the division.
#[tactic(auto, using(crate::proofs::ByValue::Checks::accepted_curve, binary_field::proofs::Refusing::stops_first, binary_field::proofs::Refusing::goes_on))]
fn check_curve_and_form(c: Curve, a: Class) -> Result<(), Refusal>
    ensures { refusal_of result ≡ (curve_refusal c or_else form_refusal c.degree a) }
{
    curves::check_curve(c)?;
    classes::check_form(c.degree, a)
}

// The checks of a call on one class.
pub fn check_class(curve: Curve, a: Class) -> Result<(), Refusal>
    ensures { refusal_of result ≡ refusal curve a }
{
    check_curve_and_form(curve, a)?;
    classes::check_divisor(curve, a)
}

// The checks of a call on two classes before the divisions. What passes is in form, and need not be a divisor.
// The first class's 111 comes before the second's 104 and 110.
fn check_forms(c: Curve, a: Class, b: Class) -> Result<(), Refusal>
    ensures { FormRefusalOfTwo c a b (refusal_of result) }
{
    check_curve_and_form(c, a)?;
    if let Err(refusal) = classes::check_form(c.degree, b) {
        classes::check_divisor(c, a)?;
        return Err(refusal);
    }
    Ok(())
}

// The class of the rows with their steps; where no rows are given, those that were checked are no divisors.
fn answered(rows: Option<CountedRows>) -> Result<CountedClass, Refusal>
    ensures { (d : ℕ) (D : Counted (Poly d)) → ((r : TheRows) → rows ≡ Some r → StandsCounted d r D) → reply result ≡ answered d (unless (is_some rows) 111) D }
{
    let CountedRows { pair, steps } = rows.ok_or(Refusal::NotAClass)?;
    Ok(CountedClass {
        class: pair.into(),
        steps,
    })
}

// The body of the calls on one class.
fn on_one(op: Unary, curve: Curve, a: Class) -> Result<CountedClass, Refusal>
    ensures { reply result ≡ unary_answer op curve a }
{
    check_curve_and_form(curve, a)?;
    let f = curves::f_row(curve);
    answered(unary_rows(op, curve.degree, f, a.rows()))
}

// The body of the calls on two classes. It is not the body of the calls on one: the checks of two come in another order.
fn on_two(op: Binary, curve: Curve, a: Class, b: Class) -> Result<CountedClass, Refusal>
    ensures { reply result ≡ binary_answer op curve a b }
{
    check_forms(curve, a, b)?;
    let f = curves::f_row(curve);
    let left = a.rows();
    let right = b.rows();
    answered(binary_rows(op, curve.degree, f, left, right))
}

// Is the pair a class of the curve? This is `check_class` under the product's name, with its own definition.
#[tactic(auto, using(crate::proofs::ByValue::Answers::verdict_of_number), unfolding(crate::specs::Answer::membership_answer))]
pub fn membership(curve: Curve, a: Class) -> Result<(), Refusal>
    ensures { verdict result ≡ membership_answer curve a }
{
    check_class(curve, a)
}

// The opposite of a class.
#[tactic(auto, unfolding(crate::specs::Answer::opposite_answer))]
pub fn opposite(curve: Curve, a: Class) -> Result<CountedClass, Refusal>
    ensures { reply result ≡ opposite_answer curve a }
{
    on_one(Unary::Opposite, curve, a)
}

// The double of a class.
#[tactic(auto, unfolding(crate::specs::Answer::double_answer))]
pub fn double(curve: Curve, a: Class) -> Result<CountedClass, Refusal>
    ensures { reply result ≡ double_answer curve a }
{
    on_one(Unary::Double, curve, a)
}

// The half of a class: the class whose double is the one given.
pub fn half(curve: Curve, a: Class) -> Result<CountedClass, Refusal>
    ensures { HalfAnswers curve a (reply result) }
{
    on_one(Unary::Half, curve, a)
}

// The sum of two classes.
#[tactic(auto, unfolding(crate::specs::Answer::sum_answer))]
pub fn sum(curve: Curve, a: Class, b: Class) -> Result<CountedClass, Refusal>
    ensures { reply result ≡ sum_answer curve a b }
{
    on_two(Binary::Sum, curve, a, b)
}

// Twice a class plus another, as a commit moves a seal.
#[tactic(auto, unfolding(crate::specs::Answer::double_and_add_answer))]
pub fn double_and_add(curve: Curve, a: Class, b: Class) -> Result<CountedClass, Refusal>
    ensures { reply result ≡ double_and_add_answer curve a b }
{
    on_two(Binary::DoubleAndAdd, curve, a, b)
}

// The half of a class less another, as an undo moves a seal back.
pub fn subtract_and_halve(curve: Curve, a: Class, b: Class) -> Result<CountedClass, Refusal>
    ensures { SubtractAndHalveAnswers curve a b (reply result) }
{
    on_two(Binary::SubtractAndHalve, curve, a, b)
}

// Is the curve accepted? This is `check_curve` under the product's name, with its own definition.
#[tactic(auto, using(crate::proofs::ByValue::Answers::verdict_of_number), unfolding(crate::specs::Answer::curve_answer))]
pub fn accepts_curve(curve: Curve) -> Result<(), Refusal>
    ensures { verdict result ≡ curve_answer curve }
{
    curves::check_curve(curve)
}
