//! Where bytes stand in a text: their lines and columns.
#![tactic(auto)]

mod places;

pub use places::{Place, marks_in, span_by, span_in};
