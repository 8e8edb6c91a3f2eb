//! The steps of a search over numbers: how many candidates are judged, in which halves, and which is asked first.
#![tactic(auto)]

mod steps;

pub use steps::{are_all, first_asked, halves, most_judged};
