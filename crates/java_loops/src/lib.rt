//! What the loops of programs do, one variable at a time, and which statements give way to others.
#![tactic(auto)]

pub mod accumulators;
pub mod alone;
pub mod chains;
pub mod counting;
pub mod examples;
pub mod laws;
pub mod meaning;
pub mod needed;
pub mod places;
pub mod quiet;
pub mod replacing;
pub mod runs;
pub mod worked;
