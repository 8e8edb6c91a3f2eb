//! Words of the source language that have a meaning of their own, for its readers and for the names of schemas.
#![tactic(auto)]

mod words;

pub use words::{is_among, is_reserved_word, is_type_word};
