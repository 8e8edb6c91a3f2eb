//! The text of derivations and bundles.
#![tactic(auto)]

mod bundle;
mod entries;
mod fault;
pub mod laws;
mod number;
mod parse;
mod print;
mod reading;

pub use bundle::{Bundle, BundleEntry};
pub use deriv_accept::accepts;
pub use fault::BundleFault;
pub use parse::{parse_bundle, parse_derivation};
pub use print::{print_bundle, print_derivation};
