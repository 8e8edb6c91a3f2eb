//! Walks over tables narrowed to the rows that they want: the for-eachs of a program in text order, and what is said of each.
#![tactic(auto)]

mod arguments;
mod blocks;
mod condition;
mod instead;
mod lines;
mod narrow;
mod plain;
mod query;
mod reasons;
mod row;
mod taken;
mod walk;
pub mod worked;

pub use lines::report;
pub use narrow::{Narrowed, narrow_walks};
pub use walk::{Reason, Walk, Walks};
