//! What a method of a well-typed program comes to, exactly as it is defined.
#![tactic(auto)]

mod run;
mod running;
mod turn;
mod way;

pub use run::{Outcome, run_method};
