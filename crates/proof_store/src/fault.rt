// Why bytes are no store.
use thiserror::Error;

/// Where the bytes stop being a store: the length of their longest front that begins one, in bytes.
#[derive(Clone, Copy, Debug, PartialEq, Eq, Error)]
#[error("store: at {offset}")]
pub struct StoreFault {
    pub offset: u64,
}
