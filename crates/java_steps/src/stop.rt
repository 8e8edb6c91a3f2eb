// Why a run stops before its end.
ghost use Rattle.std.specs.Prelude.{◌≡◌};
ghost use Rattle.java_steps.specs.declared.stop.Stop.TheVariants.{Memory};

use java_mean::Ending;
use qbs_base::NoMemory;
use std::alloc::{AllocError, AllocFailed};

/// Memory ran out, or the run ends by the rules of the language.
#[derive(Drop)]
pub enum Stop {
    Memory,
    Ends(Ending),
}

impl From<NoMemory> for Stop {
    ghost from_gives = { λ _ stop. stop ≡ Memory };

    fn from(_: NoMemory) -> Stop {
        Stop::Memory
    }
}

impl From<AllocError> for Stop {
    ghost from_gives = { λ _ stop. stop ≡ Memory };

    fn from(_: AllocError) -> Stop {
        Stop::Memory
    }
}

impl<T: Drop> From<AllocFailed<T>> for Stop {
    ghost from_gives = { λ _ stop. stop ≡ Memory };

    fn from(_: AllocFailed<T>) -> Stop {
        Stop::Memory
    }
}
