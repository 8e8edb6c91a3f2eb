//! A loop where it stands, read off its place: the run before it, statements by their numbers, what its tests ask, and which of
//! the first four rules it breaks first.
#![tactic(auto)]

pub mod asks;
pub mod outside;
pub mod run;
pub mod statements;
