//! The loops of a program found and listed: the first one at a line and column, and the next one behind those that stand.
#![tactic(auto)]

mod finding;
mod listing;
mod window;

pub use finding::find_loop;
pub use listing::{Listed, listed_from, listed_past, next_in};
