// Why bytes are no text of a derivation or a bundle.
use thiserror::Error;

/// The bytes are no text of what was to be read.
#[derive(Clone, Copy, Debug, PartialEq, Eq, Error)]
#[error("no text of a bundle goes on at {offset}")]
pub struct BundleFault {
    /// The length of the longest front of the bytes with which some such text begins.
    pub offset: u64,
}
