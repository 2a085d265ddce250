// The static library for C of the calls on lent memory (include/seal_register.h): each is the call of that name of
// seal_register.
#![tactic(auto)]

ghost use Rattle.std.specs.Prelude.{◌≡◌};
ghost use Rattle.history.specs.Register.{commit_answer, release_answer, UndoAnswers};
ghost use Rattle.seal_register.specs.{InPlace.in_place, RowWalk.reached, RowWalk.RowWalkAnswers};

use history::Register;
use jacobian::{Class, Curve};
use seal_register::walk::RowWalk;
use seal_register::{register, walk};

// The lent register becomes the one after a commit; on a refusal it stays as it was.
#[unsafe(no_mangle)]
pub extern "C" fn seal_register_commit(register: &mut Register, class: Class) -> u32
    ensures { in_place result register.new ≡ commit_answer register.old class }
{
    register::seal_register_commit(register, class)
}

// The lent register becomes the one after an undo; on a refusal it stays as it was.
#[unsafe(no_mangle)]
pub extern "C" fn seal_register_undo(register: &mut Register, class: Class) -> u32
    ensures { UndoAnswers register.old class (in_place result register.new) }
{
    register::seal_register_undo(register, class)
}

// The lent register becomes the one after a release; on a refusal it stays as it was.
#[unsafe(no_mangle)]
pub extern "C" fn seal_register_release(register: &mut Register) -> u32
    ensures { in_place result register.new ≡ release_answer register.old }
{
    register::seal_register_release(register)
}

// The earliest seal, from which commits of the row's classes, oldest first, lead to the last one; or the refusal of the
// first check that fails.
#[unsafe(no_mangle)]
pub extern "C" fn seal_walk_row(curve: Curve, last: Class, row: &[Class]) -> RowWalk
    ensures { RowWalkAnswers curve last row.now (reached result) }
{
    walk::seal_walk_row(curve, last, row)
}
