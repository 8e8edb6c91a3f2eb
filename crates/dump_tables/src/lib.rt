//! The tables that the statements of a dump declare.
#![tactic(auto)]

mod columns;
mod numbers;
mod parts;
mod table;
mod tables;
mod types;
mod words;

pub use table::{DumpColumn, DumpTable, Sort};
pub use tables::tables_of;
