//! What is said of the loops of cases, and examples that several crates take part in, computed.
#![tactic(auto)]

mod cases;
pub mod laws;
mod loops;
mod shown;

pub use cases::text_of_answers;
