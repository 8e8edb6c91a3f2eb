//! Readers of texts of which each value has one: single bytes, words and numbers, and the place of the first fault.
//! What is proved of such readers, and of readers made of them, stands in `proofs/`.
#![tactic(auto)]

mod bytes;
mod offset;

pub use bytes::{byte, is_next, is_over_at, number, unexpected, word};
pub use offset::offset_of;
