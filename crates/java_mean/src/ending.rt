// How a run ends early.
ghost use Rattle.std.specs.Prelude.{◌≡◌};
ghost use Rattle.java_mean.specs.RuleNames.{fault_number, fault_name};

use qbs_base::Span;

/// A fault of a run: a whole number outside 64 bits, a `get` outside its list, or a query whose
/// total is outside 64 bits.
#[derive(Clone, Copy, PartialEq, Eq)]
pub enum RunFault {
    Overflow,
    OutOfRange,
    SumTooLarge,
}

impl RunFault {
    /// Its number, from 1 to 3.
    pub fn number(self) -> u64
        ensures { result ≡ fault_number self }
    {
        match self {
            RunFault::Overflow => 1,
            RunFault::OutOfRange => 2,
            RunFault::SumTooLarge => 3,
        }
    }

    /// Its name, as lines of refusals have it.
    pub fn name(self) -> &'static str
        ensures { result.now ≡ fault_name self }
    {
        match self {
            RunFault::Overflow => "Overflow",
            RunFault::OutOfRange => "OutOfRange",
            RunFault::SumTooLarge => "SumTooLarge",
        }
    }
}

/// How a run ends before its end: by a fault of the expression at this place, by a turn that was
/// due when none was left, or stuck, as no well-typed program does.
#[derive(Clone, Copy, PartialEq, Eq)]
pub enum Ending {
    Faulted(RunFault, Span),
    OutOfTurns,
    Stuck,
}
