//! That the fault which is kept of tokens with calls is the one of the grammar with calls. Laws alone: they do nothing.
#![tactic(auto)]

pub mod laws;
pub mod worked;
