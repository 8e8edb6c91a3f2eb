//! The rules of helpers: what is known of each call, and the fault that is kept.
#![tactic(auto)]

mod cycles;
mod faults;
mod helpers;
mod kinds;
mod notes;
mod ranks;
mod rule;

pub use faults::first_fault;
pub use helpers::{Numbered, numbers_of};
pub use kinds::{is_scalar, is_single_name};
pub use rule::{HelperFault, HelperRule};
