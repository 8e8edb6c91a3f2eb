//! The reports on a Java file that is viewed: its slices, its loops that were tried, and those that aren't seen.
#![tactic(auto)]

mod lines;

pub use lines::{ViewLine, rewrite_report, view_report};
