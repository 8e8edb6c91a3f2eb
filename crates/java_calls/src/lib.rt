//! Calls of methods of the same class: what they come to, the program in which their bodies stand in for them, the rules for that, and
//! laws of both.
#![tactic(auto)]

pub mod laws;
pub mod worked;
