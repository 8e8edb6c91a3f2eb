//! The checker of derivations.
#![tactic(auto)]

mod accept;
mod accept_all;

pub use accept::accepts;
pub use accept_all::are_accepted;
