//! Small parts of which conditions are made: the turns of a loop, and the path of an atom.
#![tactic(auto)]

mod atoms;
mod turns;

pub use atoms::{Path, Paths, one_path, same_truth};
pub use turns::next_turn;
