//! The queries that say what the postconditions of fragments say.
#![tactic(auto)]

mod emission;
mod filter;
mod keys;
mod literal;
mod query;

pub use emission::{Emitted, emit, emit_exactly};
