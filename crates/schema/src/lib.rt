//! Schemas as tables and columns, what is wrong with their texts, and the small decisions that reading them is made of.
#![tactic(auto)]

pub mod draft;
mod fault;
pub mod fields;
pub mod keywords;
mod model;
pub mod names;
pub mod token;

pub use fault::{DataFault, DataRule, SchemaFault, SchemaRule};
pub use model::Schema;
pub use qbs_base::{Column, Table};
