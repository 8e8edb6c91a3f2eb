//! Conditions, filters, keys and types of queries, made of their parts.
#![tactic(auto)]

pub mod conditions;
pub mod filters;
pub mod keys;
pub mod scope;
pub mod types;
