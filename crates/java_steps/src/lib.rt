//! How the statements of a method begin: the values of expressions, queries asked, and the variables.
#![tactic(auto)]

mod asked;
mod eval;
mod firsts;
pub mod gather;
pub mod held;
pub mod known;
pub mod machine;
mod members;
mod met;
pub mod numbers;
mod operators;
mod placed;
mod queries;
mod quick;
pub mod rows;
mod sorting;
pub mod source;
pub mod steps;
pub mod stop;
pub mod store;
pub mod tables;
