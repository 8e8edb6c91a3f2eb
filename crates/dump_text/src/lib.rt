//! What a schema with comments is written as, and the law that it is read back.
#![tactic(auto)]

mod entry;
pub mod laws;
mod print;

pub use entry::{Entries, Entry, Part, Parts, WrittenColumn, WrittenTable};
pub use print::{has_column, push_schema, schema_text};
