//! The schema of the language that a dump declares, with comments on what is left out.
#![tactic(auto)]

mod choice;
mod columns;
mod drawn;
pub mod laws;
mod names;
mod reason;
mod remarks;
mod report;
mod tables;
mod words;

pub use choice::{Choice, ColumnChoice, choice_of};
pub use drawn::{Drawn, drawn_of, schema_of_dump};
pub use reason::Reason;
