// The calls for C on whole archives.
#![tactic(auto)]

pub mod suppress;
