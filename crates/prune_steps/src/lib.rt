//! What a pruner answers of a candidate, and how much evidence is held.
#![tactic(auto)]

mod answer;
mod room;

pub use answer::answered;
pub use room::is_full;
