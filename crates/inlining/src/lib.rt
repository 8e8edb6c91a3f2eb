//! The program in which the bodies of helpers stand in for their calls, and the names of a class: its methods by name, and the numbers in
//! whose marks no name ends.
#![tactic(auto)]

mod class;
mod counts;
mod helper;
mod inlined;
mod leaves;
mod names;
mod tails;
mod walk;
pub mod worked;

pub use class::Class;
pub use inlined::{Inlined, inline_helpers};
