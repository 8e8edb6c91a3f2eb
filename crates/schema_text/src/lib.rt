//! Schemas and rows read from bytes: DDL texts read as tables and columns, CSV texts as rows of a table.
#![tactic(auto)]

mod fields;
mod keywords;
pub mod laws;
mod lexing;
mod loading;
mod marking;
mod names;
mod parsing;
mod records;
mod schemas;

pub use fields::read_field;
pub use loading::load_table;
pub use schemas::parse_schema;
