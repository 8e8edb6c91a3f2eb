//! The words of a command line.
#![tactic(auto)]

mod command;
mod read;

pub use command::{Command, Key, Options, Verb};
pub use read::{read_words, schema_word};
