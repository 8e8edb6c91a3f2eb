//! Parts of calls of a class's own methods: the name of one, the marks of numbers, and which types are one.
#![tactic(auto)]

pub mod laws;
