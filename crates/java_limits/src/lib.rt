//! How deep and how long the parts of a program may be.
#![tactic(auto)]

mod limits;

pub use limits::{DEEPEST, longest};
