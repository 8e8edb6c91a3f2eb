// Whether parts are those of a valid fragment.
ghost use Rattle.std.specs.Prelude.{◌≡◌, ◌<◌, ◌^◌, length, map};
ghost use Rattle.kernel_lang.specs.Parts.{parts_of};
ghost use Rattle.kernel_lang.specs.Plain.{accumulator};
ghost use Rattle.kernel_lang.specs.Validity as spec;

pub mod flags;
mod limits;
pub mod loops;
mod names;
pub mod sizes;
mod starts;

use crate::parts::{Acc, Parts};
use crate::sentence::Sentence;
use flags::{flag_is_quiet, flags_are_flags, reads_flags_in_place};
use limits::{limits_are_valid, suits_the_lists};
use loops::{chain_is_valid, reads_its_chain};
use names::{accumulator_is_there, atoms_are_there};
use sizes::{conditions_are_few, is_small};
use starts::{base_is_valid, starts_rightly, tests_have_fields};

// The first sentence of the whole fragment that is broken.
#[tactic(auto, unfolding(crate::specs::Validity::parts_broken))]
fn parts_broken(p: &Parts) -> Option<Sentence>
    ensures { result ≡ spec.parts_broken (parts_of p.now) }
{
    if !is_small(p) {
        Some(Sentence::Size)
    } else if !atoms_are_there(p) {
        Some(Sentence::Names)
    } else if !tests_have_fields(p) {
        Some(Sentence::Operands)
    } else if !flags_are_flags(p) {
        Some(Sentence::Flags)
    } else if !limits_are_valid(p) {
        Some(Sentence::Limits)
    } else {
        None
    }
}

// The first sentence that an accumulator breaks.
#[tactic(auto, unfolding(crate::specs::Validity::accumulator_broken))]
fn accumulator_broken(p: &Parts, a: &Acc) -> Option<Sentence>
    ensures { result ≡ spec.accumulator_broken (parts_of p.now) (accumulator a.now) }
{
    if !chain_is_valid(a) {
        Some(Sentence::Chain)
    } else if !accumulator_is_there(p, a) {
        Some(Sentence::Names)
    } else if !base_is_valid(a) {
        Some(Sentence::Base)
    } else if !reads_its_chain(p, a) {
        Some(Sentence::Loops)
    } else if !flag_is_quiet(p, a) {
        Some(Sentence::Flags)
    } else if !reads_flags_in_place(p, a) {
        Some(Sentence::Reading)
    } else if !starts_rightly(a) {
        Some(Sentence::Start)
    } else if !suits_the_lists(p, a) {
        Some(Sentence::Limits)
    } else {
        None
    }
}

fn accumulators_broken(p: &Parts, accs: &[Acc]) -> Option<Sentence>
    ensures { result ≡ spec.accumulators_broken (parts_of p.now) (map accumulator accs.now) }
{
    match accs.split_first() {
        None => None,
        Some((a, rest)) => match accumulator_broken(p, a) {
            Some(sentence) => Some(sentence),
            None => accumulators_broken(p, rest),
        },
    }
}

/// The sentence that the parts break first, and none where they are those of a valid fragment.
#[tactic(auto, unfolding(crate::specs::Validity::broken))]
pub fn broken(p: &Parts) -> Option<Sentence>
    ensures { result ≡ spec.broken (parts_of p.now) }
{
    if let Some(sentence) = parts_broken(p) {
        return Some(sentence);
    }
    if let Some(sentence) = accumulators_broken(p, p.accs.as_slice()) {
        return Some(sentence);
    }
    if conditions_are_few(p) {
        None
    } else {
        Some(Sentence::Conditions)
    }
}
