// Answers calls on one history register that it reads from standard input, one line for each.
//
// A case is 154 bytes: the call (0 start, 1 commit, 2 undo, 3 show, 4 release), the degree d, f3, f1 and f0, the count,
// the seal, the released step and an operation's class. A class is its degree, u0, u1, u2, v0, v1 and v2. All numbers
// but d take eight bytes, high byte first. A start takes d to the released step as the register and ignores the class;
// a commit and an undo take the class alone, and a release nothing, on the register that the call before returned, also
// after a refusal. Before the first start the register has degree 0.
//
// For a commit, an undo and a release the line is the count, the released step and the seal, or `refused` and the
// refusal's number; the seal is printed as degree, u and v with colons between, coefficients from the highest power
// down in hexadecimal with commas between. For a show it is every number of the register, whether or not it passes the
// checks.
// A start has no line. Any other first byte is answered by `no such call`, and fewer than 154 bytes at the end by
// `cut short`.
#![tactic(auto)]

ghost use Rattle.std.specs.Prelude.{◌≡◌, [], ◌∷◌};
ghost use Rattle.jacobian.specs.{Answer.neutral_class, Curves.curve_with};
ghost use Rattle.history.specs.Register.{register_reply};
ghost use Rattle.text.specs.Line.{with_bytes};
ghost use Rattle.history_trial.specs.Texts.{counts_text, spaced_class, reply_text, register_text, started, case_text, case_register};
ghost use Rattle.history_trial.specs.internal.Lengths.{text_short};

use history::{Register, RegisterAnswer};
use jacobian::Class;
use std::io;
use text::Line;
use trial_text::{Case, Trial};

// The trial of the calls on a register: the register that the last call returned.
#[derive(Drop)]
struct Registers {
    register: Register,
}

impl Trial for Registers {
    ghost text_of = { λ trial case. case_text trial.register case };

    ghost after = { λ trial case. record { register = case_register trial.register case } };

    #[tactic(auto, unfolding(crate::specs::Texts::call_text, crate::specs::Texts::register_after))]
    fn answer(&mut self, case: Case) -> Option<Line> {
        let mut line = Line::new();
        // The byte is the input's format, so the calls are no enum.
        match case.call() {
            0 => {
                self.register = started(case);
                return None;
            }
            1 => self.push_answer(&mut line, self.register.commit(case.class(12))),
            2 => self.push_answer(&mut line, self.register.undo(case.class(12))),
            3 => push_register(&mut line, self.register),
            4 => self.push_answer(&mut line, self.register.release()),
            _ => line.push_bytes(b"no such call"),
        }
        Some(line)
    }

    ghost has_room = { λ trial case. text_short trial.register case };
}

impl Registers {
    // Keeps the register of an answer, and appends its count, released step and seal, or the refusal.
    // Each trial has a `push_answer` of its own, since what an answer appends differs.
    #[tactic(auto, using(text::proofs::Appending::both))]
    fn push_answer(&mut self, line: &mut Line, answer: RegisterAnswer)
        ensures kept { self.new.register ≡ answer.register }
        ensures told { line.new ≡ with_bytes line.old (reply_text (register_reply answer)) }
    {
        self.register = answer.register;
        match answer.outcome {
            Ok(()) => {
                push_counts(line, self.register);
                push_class(line, self.register.seal, self.register.seal.degree);
            }
            Err(refusal) => line.push_refusal(refusal.number()),
        }
    }
}

// The register that a case starts.
#[tactic(auto, unfolding(crate::specs::Texts::started))]
fn started(case: Case) -> Register
    ensures { result ≡ started case.entry.bytes.now }
{
    Register {
        curve: case.curve(),
        count: case.number(3),
        seal: case.class(4),
        released: case.number(11),
    }
}

// Appends the count and the released step.
#[tactic(auto, using(text::proofs::Appending::both), unfolding(crate::specs::Texts::counts_text))]
fn push_counts(line: &mut Line, register: Register)
    ensures { line.new ≡ with_bytes line.old (counts_text register) }
{
    line.push_decimal(register.count);
    line.push(b' ');
    line.push_decimal(register.released);
}

// Appends a blank and a class, of u and v the coefficients below x^n.
#[tactic(auto, using(text::proofs::Appending::both), unfolding(crate::specs::Texts::spaced_class))]
fn push_class(line: &mut Line, class: Class, n: u64)
    ensures { line.new ≡ with_bytes line.old (spaced_class class n) }
{
    line.push(b' ');
    line.push_class(class.degree, class.u, class.v, n);
}

// Appends all numbers of a register.
#[tactic(auto, using(text::proofs::Appending::both), unfolding(crate::specs::Texts::register_text, crate::specs::Texts::lowest_first))]
fn push_register(line: &mut Line, register: Register)
    ensures { line.new ≡ with_bytes line.old (register_text register) }
{
    let [highest, middle, lowest] = jacobian::curves::coefficients(register.curve);
    line.push_decimal(u64::from(register.curve.degree));
    line.push(b' ');
    line.push_row(3, [lowest, middle, highest]);
    line.push(b' ');
    push_counts(line, register);
    push_class(line, register.seal, 3);
}

// The register before the first start. Its degree is 0, so every call refuses it.
fn unset() -> Register
    ensures { result ≡ record { curve = curve_with 0 (0 ∷ 0 ∷ 0 ∷ []); count = 0; seal = neutral_class; released = 0 } }
{
    Register {
        curve: jacobian::curves::curve_with(0, [0; jacobian::curves::COEFFICIENTS]),
        count: 0,
        seal: jacobian::neutral(),
        released: 0,
    }
}

fn main(rt: HostRuntime) -> io::Result<()> {
    let mut trial = Registers { register: unset() };
    trial.run(&mut [0; 154], &mut rt.stdin(), &mut rt.stdout())
}
