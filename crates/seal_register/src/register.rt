// One register kept for a session and changed in place (docs/SPECIFICATION.md, 8).
// A call copies the register, makes the call by value and, if accepted, writes the new register back; a refusal writes
// no byte. It answers 0 for an acceptance, else the refusal's number: a function that C calls cannot return an enum.
ghost use Rattle.std.specs.Prelude.{◌≡◌};
ghost use Rattle.history.specs.Register.{register_reply, commit_answer, release_answer, UndoAnswers};
ghost use Rattle.seal_register.specs.{InPlace.in_place, internal.Kept.kept};

use history::{Register, RegisterAnswer};
use jacobian::Class;

// The lent register becomes the one of an accepted answer; the result is 0, or the number of the refusal.
#[tactic(auto, using(crate::proofs::Answer::kept_accepted, crate::proofs::Answer::kept_refused))]
fn keep(answer: RegisterAnswer, register: &mut Register) -> u32
    ensures { in_place result register.new ≡ kept register.old (register_reply answer) }
{
    match answer.outcome {
        Ok(()) => {
            *register = answer.register;
            0
        }
        Err(refusal) => refusal.number(),
    }
}

// The lent register becomes the one after a commit; on a refusal it stays as it was.
#[tactic(auto, using(crate::proofs::Answer::kept_step))]
pub fn seal_register_commit(register: &mut Register, class: Class) -> u32
    ensures { in_place result register.new ≡ commit_answer register.old class }
{
    keep(register.commit(class), register)
}

// The lent register becomes the one after an undo; on a refusal it stays as it was.
#[tactic(auto, using(crate::proofs::Answer::kept_step, history::proofs::Promises::undo_promised))]
pub fn seal_register_undo(register: &mut Register, class: Class) -> u32
    ensures { UndoAnswers register.old class (in_place result register.new) }
{
    keep(register.undo(class), register)
}

// The lent register becomes the one after a release; on a refusal it stays as it was.
#[tactic(auto, using(crate::proofs::Answer::kept_release))]
pub fn seal_register_release(register: &mut Register) -> u32
    ensures { in_place result register.new ≡ release_answer register.old }
{
    keep(register.release(), register)
}
