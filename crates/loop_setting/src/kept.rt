//! The statements of a run that stay, and the variables that are needed.

pub mod accumulators;
pub mod keeping;
pub mod live;
pub mod mentioned;
pub mod name_list;
pub mod setters;
