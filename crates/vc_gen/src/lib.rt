//! The conditions of a fragment and a candidate, and what they promise.
#![tactic(auto)]

mod all;
mod condition;
pub mod laws;
mod level;
mod nth;
mod outline;
mod own;
mod paths;
mod terms;

pub use all::{conditions, conditions_over, has_number};
pub use nth::own_condition;
pub use outline::{Outline, outline_of};
pub use own::Conditions;
