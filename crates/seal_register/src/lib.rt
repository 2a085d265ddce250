// Calls on lent memory: commit, undo and release on a lent register, and a walk over a lent row of classes.
#![tactic(auto)]

pub mod register;
pub mod walk;
