//! The type rules of programs, and a check that is exact.
#![tactic(auto)]

mod checking;
pub mod laws;
mod numbers;
mod queries;
mod steps;
mod types;
mod values;
mod walk;
mod walked;
mod words;
pub mod worked;

pub use checking::{Typed, check};
pub use java_mean::{TypeFault, TypeRule};
pub use numbers::read_literals;
pub use queries::{query_of, read_query};
pub use types::type_spelled;
