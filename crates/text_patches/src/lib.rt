//! Texts in place of bytes of a source, all other bytes of which stay.
#![tactic(auto)]

mod parts;
mod patch;
mod worked;

pub use parts::{bytes_from, bytes_to, stretch};
pub use patch::{TextPatch, TextPatches, with_texts};
pub use worked::worked_texts_stand_in_place;
