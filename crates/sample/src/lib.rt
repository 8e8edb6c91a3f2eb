//! The class that `make` runs, and the schema of its tables.
#![tactic(auto)]

mod build;
mod class;
pub mod laws;
mod tables;

pub use class::sample_class;
pub use tables::sample_schema;
