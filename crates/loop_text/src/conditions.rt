//! The conditions of a loop.

pub mod asked;
pub mod flags;
pub mod leaves;
pub mod operands;
