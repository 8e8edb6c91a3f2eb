//! Texts that keep what they can of a source, where they are read back as a program.
#![tactic(auto)]

mod kept;
mod reading;

pub use kept::text_for;
