// Want of memory, and faults beside it.
use std::alloc::{AllocError, AllocFailed};

/// Memory ran out.
#[derive(Clone, Copy, PartialEq, Eq)]
pub struct NoMemory;

impl From<AllocError> for NoMemory {
    fn from(_: AllocError) -> NoMemory {
        NoMemory
    }
}

impl<T: Drop> From<AllocFailed<T>> for NoMemory {
    fn from(_: AllocFailed<T>) -> NoMemory {
        NoMemory
    }
}

/// Why a call gave no value: a fault of its own kind, or want of memory.
#[derive(Drop)]
pub enum Fail<F> {
    Fault(F),
    NoMemory,
}

ghost use Rattle.std.specs.Prelude.{◌≡◌};
ghost use Rattle.qbs_base.specs.Memory.{IsNoMemory};

impl<F> From<NoMemory> for Fail<F> {
    ghost from_gives = { λ _ fail. IsNoMemory fail };

    fn from(_: NoMemory) -> Fail<F> {
        Fail::NoMemory
    }
}

impl<F> From<AllocError> for Fail<F> {
    ghost from_gives = { λ _ fail. IsNoMemory fail };

    fn from(_: AllocError) -> Fail<F> {
        Fail::NoMemory
    }
}

impl<F, T: Drop> From<AllocFailed<T>> for Fail<F> {
    ghost from_gives = { λ _ fail. IsNoMemory fail };

    fn from(_: AllocFailed<T>) -> Fail<F> {
        Fail::NoMemory
    }
}
