//! The values of terms in environments.
#![tactic(auto)]

mod eval_lists;
mod eval_numbers;
mod eval_parts;
mod eval_rows;
mod eval_terms;
mod eval_truth;
mod eval_within;
pub mod laws;

pub use eval_terms::eval;
