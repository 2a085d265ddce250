// The calls for C on byte areas.
#![tactic(auto)]

pub mod calls;
