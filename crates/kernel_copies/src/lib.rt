//! Copies of fragments, and whether two fragments are one.
#![tactic(auto)]

mod accumulators;
mod atoms;
mod copying;
mod lists;
mod same;

pub use copying::copy_fragment;
pub use same::same_fragment;
