//! Copies of programs and of their parts, and programs in which some statements are replaced.
#![tactic(auto)]

mod copy;
mod placed;
mod programs;
mod put;

pub use copy::{copy_expression, copy_statement, copy_statements};
pub use placed::{copy_placed, the_last_place_stays};
pub use programs::copy_program;
pub use put::put_at;
