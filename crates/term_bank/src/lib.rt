//! Banks of terms: each term once, behind its children.
#![tactic(auto)]

mod bank;
mod entering;
mod held;
pub mod laws;

pub use bank::TermBank;
