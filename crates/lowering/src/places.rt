//! Loops where they stand in a program.

pub mod located;
pub mod loops;
pub mod position;
pub mod scopes;
