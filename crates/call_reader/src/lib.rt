//! Programs with calls of their own methods, from tokens.
#![tactic(auto)]

pub mod laws;
mod once;
mod read;
mod spell;
mod worked;

pub use once::{tokens_without_calls_stay, what_is_read};
pub use read::read_helpers;
pub use worked::{worked_calls_are_spelled_out, worked_classes_are_read, worked_texts_are_read};
