//! The bytes of a Java file as items, and its brackets. Any bytes have some.
#![tactic(auto)]

mod brackets;
mod bytes;
mod cell;
mod item;
mod known;
pub mod laws;
mod opened;
mod pieces;
mod plain;
mod reading;

pub use brackets::{closes, closings, is_shallow, opens, rounds, sign_of};
pub use cell::{Cell, Cells};
pub use item::{Item, ItemKind};
pub use plain::is_plain;
pub use reading::items;
