//! What a run of a fragment and the pruner over small databases decide at one step: sums that have 64 bits,
//! rows of a set, the end of a run, and values in order. It holds the edits of both.
#![tactic(auto)]

mod end;
mod puts;
mod rows;
mod small;
mod sums;

pub use end::{FragmentEnd, Stop, ended};
pub use puts::{push_copy, push_with};
pub use rows::with_row;
pub use small::small_numbers;
pub use sums::{sum, ticked};
