//! What is read off the text of loops: what statements mention, set and update, and what stands round each.
#![tactic(auto)]

pub mod conditions;
pub mod loops;
pub mod sites;
pub mod statements;
pub mod updates;
