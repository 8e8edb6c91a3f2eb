//! What is said of loops that were tried, and the lines of a report on them.
#![tactic(auto)]

mod lines;
mod verdict;

pub use lines::{report, unnest_report};
pub use verdict::{LoopVerdict, Said, Verdicts};
