//! What holds of the printers and the readers together.
ghost use Rattle.std.specs.Prelude.{◌≡◌, IfOk};
ghost use Rattle.tor_axioms.specs.Accepts.{proof_of};
ghost use Rattle.text_readers.specs.Offsets.{Each};
ghost use Rattle.deriv_check.specs.Bundles.{entries_of};
ghost use Rattle.deriv_check.specs.Grammar.{IsWritable, IsWritableEntry};

use crate::{Bundle, parse_bundle, parse_derivation, print_bundle, print_derivation};
use qbs_base::{Fail, NoMemory};
use std::alloc::Global;
use tor_axioms::Derivation;

/// A derivation within the limits of the grammar is read back from its text.
pub fn derivation_is_read_back(alloc: Global, d: &Derivation) -> Result<Derivation, NoMemory>
    requires { IsWritable (proof_of d.now) }
    ensures { IfOk result (λ back. proof_of back ≡ proof_of d.now) }
{
    let text = print_derivation(alloc, d)?;
    match parse_derivation(alloc, text.as_slice()) {
        Ok(back) => Ok(back),
        Err(Fail::NoMemory) => Err(NoMemory),
        Err(Fail::Fault(_)) => unreachable!(),
    }
}

/// A bundle within the limits of the grammar is read back from its text.
pub fn bundle_is_read_back(alloc: Global, b: &Bundle) -> Result<Bundle, NoMemory>
    requires { Each IsWritableEntry (entries_of b.now) }
    ensures { IfOk result (λ back. entries_of back ≡ entries_of b.now) }
{
    let text = print_bundle(alloc, b)?;
    match parse_bundle(alloc, text.as_slice()) {
        Ok(back) => Ok(back),
        Err(Fail::NoMemory) => Err(NoMemory),
        Err(Fail::Fault(_)) => unreachable!(),
    }
}
