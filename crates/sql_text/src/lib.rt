//! The canonical text of a query.
#![tactic(auto)]

pub mod laws;
mod print;

pub use print::print_query;
