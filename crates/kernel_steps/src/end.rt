// What a run ends with.
ghost use Rattle.std.specs.Prelude.{◌≡◌, IfOk, IfErr, Err};
ghost use Rattle.kernel_steps.specs.Stops.{IsNoMemory, EndsWith};
ghost use Rattle.kernel_steps.specs.declared.end.Stop.TheVariants as stops;

use qbs_base::{NoMemory, Values};

/// What a fragment ends with: one value for each accumulator with base 0, in their order, or that a
/// running count or sum leaves 64 bits.
#[derive(Drop)]
pub enum FragmentEnd {
    Store(Values),
    Overflow,
}

/// Why a run stops before its end.
#[derive(Clone, Copy)]
pub enum Stop {
    NoMemory,
    Overflow,
}

impl From<NoMemory> for Stop {
    ghost from_gives = { λ _ stop. IsNoMemory stop };

    fn from(_: NoMemory) -> Stop {
        Stop::NoMemory
    }
}

/// What a fragment ends with, from the values of its accumulators or why there are none. `NoMemory`
/// comes where that was want of memory, and there alone.
pub fn ended(values: Result<Values, Stop>) -> Result<FragmentEnd, NoMemory>
    ensures end { IfOk result (λ end. EndsWith values end) }
    ensures err { IfErr result (λ _. values ≡ Err stops.NoMemory) }
{
    match values {
        Ok(values) => Ok(FragmentEnd::Store(values)),
        Err(Stop::Overflow) => Ok(FragmentEnd::Overflow),
        Err(Stop::NoMemory) => Err(NoMemory),
    }
}
