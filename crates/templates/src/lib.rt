//! The enumeration of candidates, without a list of them.
#![tactic(auto)]

mod fragments;
pub mod laws;
mod numbered;

pub use fragments::{count, nth};
pub use numbered::{MAX_POOL, MAX_SIZE, count_of, nth_of};
