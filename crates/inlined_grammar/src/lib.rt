//! Programs in which the bodies of helpers stand in for their calls are of the grammar, and can be written. Laws alone: they do nothing.
#![tactic(auto)]

pub mod laws;
pub mod worked;
