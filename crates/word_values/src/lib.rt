//! Values in the words of a command line: what stands behind a prefix, numbers by their digits, and the first word.
#![tactic(auto)]

mod values;

pub use values::{first_of, number_within, size_value, size_within, value_behind};
