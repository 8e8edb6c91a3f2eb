// Derivations and bundles of their texts.
ghost use Rattle.std.specs.Prelude.{◌≡◌, ◌-◌, length, IfOk, IfErr};
ghost use Rattle.readers.specs.Reading.{Gives};
ghost use Rattle.tor_axioms.specs.Accepts.{Proof, proof_of};
ghost use Rattle.text_readers.specs.Answers.{IsOnly, IsRightFault, AnswersAt, left_of};
ghost use Rattle.deriv_check.specs.Answers.{offset_in};
ghost use Rattle.deriv_check.specs.Bundles.{Entry, entries_of};
ghost use Rattle.deriv_check.specs.Grammar.{HasDerivation, HasBundle};
ghost use Rattle.deriv_check.specs.Reading.{read_derivation, read_bundle};
ghost use Rattle.std.specs.Prelude.{List};

use crate::bundle::{Bundle, BundleEntry};
use crate::entries::bundle;
use crate::fault::BundleFault;
use crate::reading::derivation_within;
use qbs_base::{Fail, Items};
use readers::{Fault, ReadError};
use std::alloc::Global;
use text_readers::{offset_of, unexpected};
use tor_axioms::Derivation;

/// The fault by its offset in these bytes.
fn placed(bytes: &[u8], fault: Fault) -> BundleFault
    ensures { result.offset ≡ length bytes.now - left_of fault }
{
    BundleFault {
        offset: offset_of(bytes.len(), fault),
    }
}

/// The derivation of all of the bytes.
#[tactic(auto, unfolding(crate::specs::Reading::read_derivation))]
fn whole_derivation(alloc: Global, bytes: &[u8]) -> Result<Derivation, ReadError>
    ensures { Gives proof_of result (read_derivation bytes.now) }
{
    let (derivation, rest) = derivation_within(alloc, bytes)?;
    if rest.is_empty() {
        Ok(derivation)
    } else {
        Err(unexpected(rest))
    }
}

/// The entries of all of the bytes.
#[tactic(auto, unfolding(crate::specs::Reading::read_bundle))]
fn whole_bundle(alloc: Global, bytes: &[u8]) -> Result<Vec<BundleEntry>, ReadError>
    ensures { Gives (λ v. entries_of v.items) result (read_bundle bytes.now) }
{
    let (entries, rest) = bundle(alloc, bytes)?;
    if rest.is_empty() {
        Ok(entries)
    } else {
        Err(unexpected(rest))
    }
}

fn answer_derivation(alloc: Global, bytes: &[u8]) -> Result<Derivation, Fail<BundleFault>>
    ensures { AnswersAt offset_in proof_of (length bytes.now) result (read_derivation bytes.now) }
{
    match whole_derivation(alloc, bytes) {
        Ok(derivation) => Ok(derivation),
        Err(ReadError::Memory) => Err(Fail::NoMemory),
        Err(ReadError::Fault(fault)) => Err(Fail::Fault(placed(bytes, fault))),
    }
}

fn answer_bundle(alloc: Global, bytes: &[u8]) -> Result<Bundle, Fail<BundleFault>>
    ensures { AnswersAt offset_in entries_of (length bytes.now) result (read_bundle bytes.now) }
{
    match whole_bundle(alloc, bytes) {
        Ok(entries) => Ok(Items::from_vec(entries)),
        Err(ReadError::Memory) => Err(Fail::NoMemory),
        Err(ReadError::Fault(fault)) => Err(Fail::Fault(placed(bytes, fault))),
    }
}

/// The derivation that these bytes are the text of: its lines, each ended by a line feed.
///
/// `Fault` comes exactly where they are no such text, with the length of the longest front with
/// which some text begins. Numbers are below 2^32, and at most ten splits stand inside of each
/// other.
pub fn parse_derivation(alloc: Global, bytes: &[u8]) -> Result<Derivation, Fail<BundleFault>>
    ensures found { IfOk result (λ d. HasDerivation bytes.now (proof_of d)) }
    ensures only { (d : Proof) → HasDerivation bytes.now d → IsOnly proof_of result d }
    ensures fault { IfErr result (IsRightFault offset_in HasDerivation bytes.now) }
{
    answer_derivation(alloc, bytes)
}

/// The bundle that these bytes are the text of.
///
/// `Fault` comes exactly where they are no such text, with the length of the longest front with
/// which some text begins. Numbers are below 2^32, and at most ten splits stand inside of each
/// other.
pub fn parse_bundle(alloc: Global, bytes: &[u8]) -> Result<Bundle, Fail<BundleFault>>
    ensures found { IfOk result (λ b. HasBundle bytes.now (entries_of b)) }
    ensures only { (entries : List Entry) → HasBundle bytes.now entries → IsOnly entries_of result entries }
    ensures fault { IfErr result (IsRightFault offset_in HasBundle bytes.now) }
{
    answer_bundle(alloc, bytes)
}
