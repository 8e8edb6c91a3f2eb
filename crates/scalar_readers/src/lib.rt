//! Readers of scalars' texts: numbers of 64 bits with a sign, truth values, and texts in quotes. Each scalar has one text.
#![tactic(auto)]

mod chars;
mod longs;
mod scalars;
mod texts;

pub use scalars::{any_scalar, scalar};
