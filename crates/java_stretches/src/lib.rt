//! Patches of a source: texts of statements in place of bytes, and laws of the grammar for keeping what stands outside of them, of one
//! stretch and of many patches.
#![tactic(auto)]

pub mod elsewhere;
pub mod examples;
pub mod lines;
mod output;
mod patch;
pub mod patch_examples;
pub mod patched;
mod patching;
pub mod replaced;
pub mod sources;

pub use output::with_patches;
pub use patch::{Patch, Patches};
pub use patching::{margin_by, put_patch};
