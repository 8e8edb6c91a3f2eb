//! Small parts of derivations: what facts say of an atom, and what two sides with the same normal form give.
#![tactic(auto)]

mod derived;
mod known;

pub use derived::{most_splits, where_same, with_behind};
pub use known::{Known, denies, is_yes};
