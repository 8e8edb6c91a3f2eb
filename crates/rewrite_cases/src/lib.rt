//! What is said of the loops of cases, each a schema and a source, and the source in which they have given way to queries.
#![tactic(auto)]

mod cases;
mod limits;
mod rewriting;
mod sources;

pub use cases::text_of_answers;
