//! The tables that `make` fills, and the order of what its class compares.
#![tactic(auto)]

mod order;
mod tables;

pub use order::operands;
pub use tables::sample_tables;
