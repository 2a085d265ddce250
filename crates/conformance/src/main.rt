// Answers calls on classes that it reads from standard input, one line for each.
//
// A case is 138 bytes: the call, the degree d, f3, f1 and f0, and two classes; the calls on one class ignore the
// second. A class is its degree, u0, u1, u2, v0, v1 and v2. All numbers but d take eight bytes, high byte first. The
// calls are
//
//     1 membership                            7 double of the half
//     2 opposite                              8 double, with its reduction steps
//     3 double                                9 sum, with its reduction steps
//     4 half                                 10 double of the first class, and the second added
//     5 sum                                  11 the second class subtracted from the first, and the half
//     6 half of the double                   12 is the curve accepted?
//    13 the class of a stamp, which is the number at the first class's degree
//    14 the first class times a number, which is the one at the second class's degree
//    15 the first class halved as often as that number says
//
// The line is the class as degree, u and v with colons between, coefficients from the highest power down in hexadecimal
// with commas between, then for 8 and 9 a space and the number of steps; for 1 and 12 `accepted`; or `refused` and the
// refusal's number. Any other first byte is answered by `no such call`, and fewer than 138 bytes at the end by
// `cut short`.
#![tactic(auto)]

ghost use Rattle.std.specs.Prelude.{◌≡◌, Some};
ghost use Rattle.jacobian.specs.Answer.{verdict, reply};
ghost use Rattle.seal_licence.specs.Multiples.{class_result};
ghost use Rattle.text.specs.Line.{with_bytes};
ghost use Rattle.conformance.specs.Texts.{verdict_text, result_text, reply_text, counted_text, half_of_double, double_of_half, case_text};
ghost use Rattle.conformance.specs.internal.Lengths.{text_short};

use jacobian::{Class, CountedClass, Curve};
use refusals::Refusal;
use seal_licence::multiples;
use std::io;
use text::Line;
use trial_text::{Case, Trial};

// The trial of the calls on classes.
#[derive(Drop)]
struct Classes;

impl Trial for Classes {
    ghost text_of = { λ _ case. Some (case_text case) };

    ghost after = { λ classes _. classes };

    #[tactic(auto, unfolding(crate::specs::Texts::call_text))]
    fn answer(&mut self, case: Case) -> Option<Line> {
        let (curve, a, b) = (case.curve(), case.class(3), case.class(10));
        let mut line = Line::new();
        // The byte is the input's format, so the calls are no enum.
        match case.call() {
            1 => push_accepted(&mut line, jacobian::membership(curve, a)),
            2 => push_answer(&mut line, jacobian::opposite(curve, a)),
            3 => push_answer(&mut line, jacobian::double(curve, a)),
            4 => push_answer(&mut line, jacobian::half(curve, a)),
            5 => push_answer(&mut line, jacobian::sum(curve, a, b)),
            6 => push_answer(&mut line, half_of_double(curve, a)),
            7 => push_answer(&mut line, double_of_half(curve, a)),
            8 => push_counted(&mut line, jacobian::double(curve, a)),
            9 => push_counted(&mut line, jacobian::sum(curve, a, b)),
            10 => push_answer(&mut line, jacobian::double_and_add(curve, a, b)),
            11 => push_answer(&mut line, jacobian::subtract_and_halve(curve, a, b)),
            12 => push_accepted(&mut line, jacobian::accepts_curve(curve)),
            13 => push_answer(&mut line, stamps::stamp(curve, a.degree)),
            14 => push_class(&mut line, multiples::multiple(curve, a, b.degree)),
            15 => push_class(&mut line, multiples::halvings(curve, a, b.degree)),
            _ => line.push_bytes(b"no such call"),
        }
        Some(line)
    }

    ghost has_room = { λ _ case. text_short case };
}

// Appends that a call accepted, or its refusal.
fn push_accepted(line: &mut Line, answer: Result<(), Refusal>)
    ensures { line.new ≡ with_bytes line.old (verdict_text (verdict answer)) }
{
    match answer {
        Ok(()) => line.push_bytes(b"accepted"),
        Err(refusal) => line.push_refusal(refusal.number()),
    }
}

// Appends a class, or its refusal.
fn push_class(line: &mut Line, answer: Result<Class, Refusal>)
    ensures { line.new ≡ with_bytes line.old (result_text (class_result answer)) }
{
    match answer {
        Ok(class) => line.push_class(class.degree, class.u, class.v, class.degree),
        Err(refusal) => line.push_refusal(refusal.number()),
    }
}

// Appends a class without its number of reduction steps, or its refusal.
// Each trial has a `push_answer` of its own, since what an answer appends differs.
fn push_answer(line: &mut Line, answer: Result<CountedClass, Refusal>)
    ensures { line.new ≡ with_bytes line.old (reply_text (reply answer)) }
{
    push_class(line, answer.map(|counted| counted.class));
}

// Appends a class with its number of reduction steps, or its refusal.
#[tactic(auto, using(text::proofs::Appending::both))]
fn push_counted(line: &mut Line, answer: Result<CountedClass, Refusal>)
    ensures { line.new ≡ with_bytes line.old (counted_text (reply answer)) }
{
    push_answer(line, answer);
    if let Ok(counted) = answer {
        line.push(b' ');
        line.push_decimal(u64::from(counted.steps));
    }
}

// The half of the double, or the refusal of the double.
#[tactic(auto, unfolding(crate::specs::Texts::half_of_double))]
fn half_of_double(curve: Curve, class: Class) -> Result<CountedClass, Refusal>
    ensures { reply result ≡ half_of_double curve class }
{
    jacobian::half(curve, jacobian::double(curve, class)?.class)
}

// The double of the half, or the refusal of the half.
#[tactic(auto, unfolding(crate::specs::Texts::double_of_half))]
fn double_of_half(curve: Curve, class: Class) -> Result<CountedClass, Refusal>
    ensures { reply result ≡ double_of_half curve class }
{
    jacobian::double(curve, jacobian::half(curve, class)?.class)
}

fn main(rt: HostRuntime) -> io::Result<()> {
    Classes.run(&mut [0; 138], &mut rt.stdin(), &mut rt.stdout())
}
