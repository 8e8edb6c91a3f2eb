//! What a program of the source language does, and laws of it; the variables that are visible and that are live, and which fault
//! is kept.
#![tactic(auto)]

mod ending;
mod keeping;
pub mod laws;
mod live;
mod ordering;
mod rule;
mod scope;
mod types;
pub mod worked;

pub use ending::{Ending, RunFault};
pub use keeping::note_if;
pub use live::{are_left, is_live};
pub use ordering::has_order;
pub use rule::{TypeFault, TypeRule};
pub use scope::Scope;
pub use types::{JavaType, Kindred, Single};
