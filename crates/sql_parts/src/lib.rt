//! The queries of postconditions as they are defined, the laws on them, and the parts of which they are made.
#![tactic(auto)]

pub mod comparisons;
pub mod counted;
pub mod ground;
pub mod held;
pub mod laws;
pub mod limiting;
pub mod numbered;
pub mod query;
pub mod sort_keys;
pub mod texts;
pub mod within;
