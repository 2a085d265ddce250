// Answers calls on elements that it reads from standard input, one line for each.
//
// A case is 18 bytes: the call (1 sum, 2 product, 3 square, 4 square root, 5 inverse, 6 the root of y² + y = a with
// lowest bit 0), the degree, and two numbers of eight bytes, high byte first; the calls on one element ignore the
// second number. The line is the element in hexadecimal, for 6 `no root` where there is none, or `refused` and the
// refusal's number. Any other first byte is answered by `no such call`, and fewer than 18 bytes at the end by
// `cut short`.
#![tactic(auto)]

ghost use Rattle.std.specs.Prelude.{◌≡◌, Some};
ghost use Rattle.binary_field.specs.Answer.{reply, solution_reply};
ghost use Rattle.text.specs.Line.{with_bytes};
ghost use Rattle.element_trial.specs.Texts.{reply_text, root_text, case_text};
ghost use Rattle.element_trial.specs.internal.Lengths.{text_short};

use refusals::Refusal;
use std::io;
use text::Line;
use trial_text::{Case, Trial};

// The trial of the calls on elements.
#[derive(Drop)]
struct Elements;

impl Trial for Elements {
    ghost text_of = { λ _ case. Some (case_text case) };

    ghost after = { λ elements _. elements };

    #[tactic(auto, unfolding(crate::specs::Texts::call_text))]
    fn answer(&mut self, case: Case) -> Option<Line> {
        let (d, a, b) = (case.degree(), case.number(0), case.number(1));
        let mut line = Line::new();
        // The byte is the input's format, so the calls are no enum.
        match case.call() {
            1 => push_answer(&mut line, binary_field::sum(d, a, b)),
            2 => push_answer(&mut line, binary_field::product(d, a, b)),
            3 => push_answer(&mut line, binary_field::square(d, a)),
            4 => push_answer(&mut line, binary_field::square_root(d, a)),
            5 => push_answer(&mut line, binary_field::inverse(d, a)),
            6 => push_root(&mut line, binary_field::quadratic_root(d, a)),
            _ => line.push_bytes(b"no such call"),
        }
        Some(line)
    }

    ghost has_room = { λ _ case. text_short case };
}

// Appends an element, or its refusal.
// Each trial has a `push_answer` of its own, since what an answer appends differs.
fn push_answer(line: &mut Line, answer: Result<u64, Refusal>)
    ensures { line.new ≡ with_bytes line.old (reply_text (reply answer)) }
{
    match answer {
        Ok(element) => line.push_hexadecimal(element),
        Err(refusal) => line.push_refusal(refusal.number()),
    }
}

// Appends a root of the quadratic equation, that there is none, or its refusal.
fn push_root(line: &mut Line, answer: Result<Option<u64>, Refusal>)
    ensures { line.new ≡ with_bytes line.old (root_text (solution_reply answer)) }
{
    match answer {
        Ok(Some(root)) => line.push_hexadecimal(root),
        Ok(None) => line.push_bytes(b"no root"),
        Err(refusal) => line.push_refusal(refusal.number()),
    }
}

fn main(rt: HostRuntime) -> io::Result<()> {
    Elements.run(&mut [0; 18], &mut rt.stdin(), &mut rt.stdout())
}
