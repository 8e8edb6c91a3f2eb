//! Readers of the lines of a store: the rows of a table, entry values and known lists.
#![tactic(auto)]

mod lists;
mod rows;
mod values;

pub use lists::known;
pub use rows::put_rows;
pub use values::entry;
