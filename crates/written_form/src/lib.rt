// Writing the stored form: fields pushed to the bytes of an output, and the response of a call on byte areas.
#![tactic(auto)]

pub mod effect;
pub mod ranges;
pub mod writing;
