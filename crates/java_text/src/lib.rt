//! The canonical texts of programs.
#![tactic(auto)]

mod literals;
mod printing;

pub use printing::{print_program, print_statements};
