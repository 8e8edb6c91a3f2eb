//! Finds of a Java file the sequences of statements that are seen as methods, each with how it is seen, and why other loops aren't. What is
//! found is a proposal: `view_slices` has the check of it.
#![tactic(auto)]

mod again;
mod begins;
mod blocks;
mod deciding;
mod expressions;
mod file;
mod fresh;
mod groups;
mod lists;
mod loops;
mod names;
mod operators;
mod orders;
mod queries;
mod reader;
mod reason;
mod setting;
mod slices;
mod statements;
mod words;

pub use again::{Again, method_again, read_again};
pub use file::{Loop, View, find_view};
pub use reason::{Reason, Unseen};
pub use words::{Class, Parts, known_of, parts_of};
