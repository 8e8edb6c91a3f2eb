//! Dumps of schemas as items and statements. Any bytes have some.
#![tactic(auto)]

mod bytes;
mod item;
mod nest;
mod pieces;
mod scan;
mod splitting;

pub use bytes::spells;
pub use item::{Item, ItemKind, Statement};
pub use splitting::statements;
