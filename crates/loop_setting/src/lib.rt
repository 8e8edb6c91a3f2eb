//! What is known of a loop where it stands, before any kernel form: what is visible, its run, its accumulators, what is live,
//! and which statements of the run stay.
#![tactic(auto)]

pub mod kept;
pub mod places;
