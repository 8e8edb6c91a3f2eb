//! The texts of tables, entry values and known lists in a store of small databases, and the limits of these.
#![tactic(auto)]

mod limits;
mod print;

pub use limits::{are_small_lists, are_small_rows, are_written};
pub use print::{push_entry, push_known, push_rows};
