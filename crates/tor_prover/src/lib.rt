//! Normal forms of terms, and the derivations of conditions.
#![tactic(auto)]

mod derivable;
mod derivation;
pub mod laws;
mod memo;
mod normal;
mod open;
mod outcome;
mod parts;
mod reduce;
mod shared;
mod sharing;

pub use derivable::derives;
pub use derivation::{derive, derive_over};
pub use sharing::{derive_over_with, derive_with};
