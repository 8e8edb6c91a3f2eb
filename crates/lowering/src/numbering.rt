//! Numbers for what a loop names.

pub mod atoms;
pub mod counts;
pub mod formulas;
pub mod leaves;
pub mod named_values;
pub mod numbers;
pub mod tally;
