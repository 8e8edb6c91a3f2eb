//! The search: of a fragment's candidates the first one whose conditions derive, whatever sound
//! pruners are asked first.
#![tactic(auto)]

mod answer;
mod asking;
mod choices;
mod deciding;
mod extra;
mod found;
mod judge;
pub mod laws;
mod nth;
mod pruner;
mod searching;
mod walk;

pub use extra::FurtherPruner;
pub use found::Found;
pub use kernel_lang::PruneAnswer;
pub use pruner::{Call, Pruner};
pub use searching::{search, search_with};
