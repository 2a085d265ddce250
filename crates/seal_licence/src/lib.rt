// n times a class and a class halved k times, by value and for C; a library of its own.
#![tactic(auto)]

pub mod calls;
pub mod multiples;
