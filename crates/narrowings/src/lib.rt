//! Narrowed walks: a program in which one fetch asks only for the rows that the walk over it wants. Laws of them.
#![tactic(auto)]

pub mod laws;
pub mod worked;
