//! Programs that are equal but for places do the same and are well typed alike. Laws alone: they do nothing.
#![tactic(auto)]

pub mod laws;
pub mod worked;
