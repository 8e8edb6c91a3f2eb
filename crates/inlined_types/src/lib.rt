//! Where the inlined program is well typed, the helpers of the program with calls fit. Laws alone: they do nothing.
#![tactic(auto)]

pub mod laws;
pub mod worked;
