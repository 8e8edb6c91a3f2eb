//! The outside as traits: files that are read whole, and sinks that are appended to.
#![tactic(auto)]

mod files;
mod sinks;

pub use files::{CleanFiles, Files, MemFiles, ReadAnswer, RealFiles};
pub use sinks::{CleanSink, MemSink, RealSink, Sink, WriteAnswer};
