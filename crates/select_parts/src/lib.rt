//! Which queries select rows of one table in their order, all of them or those of a condition that the source language can say.
#![tactic(auto)]

mod conditions;
mod selects;
mod types;
pub mod worked;

pub use conditions::is_plain_condition;
pub use selects::is_select;
pub use types::is_text_operand;
