// What pruners change of a search: its count of dropped candidates alone.
ghost use Rattle.std.specs.Prelude.{◌≡◌};
ghost use Rattle.kernel_lang.specs.declared.prune.PruneAnswer.TheVariants as answers;
ghost use Rattle.kernel_lang.specs.Pools.{IsCandidateOf};
ghost use Rattle.kernel_lang.specs.Refuted.{IsRefuted};
ghost use Rattle.kernel_lang.specs.Whole.{fragment_of};

use crate::finding::put_found;
use crate::refuting::answer_by_one_database;
use crate::words::{number_at, word_at};
use kernel_lang::{Candidate, KFragment, PruneAnswer};
use qbs_base::NoMemory;
use query_search::{Call, Pruner};
use std::alloc::Global;

// With a pruner that keeps all candidates.
fn put_kept(
    out: &mut String,
    alloc: Global,
    frag: &KFragment,
    size: u32,
    budget: u32,
) -> Result<(), NoMemory> {
    let ask = |_asked: &KFragment, _cand: &Candidate|
        requires { IsCandidateOf (fragment_of _asked.now) _cand.now }
        ensures { result ≡ answers.Drop → ∥ IsRefuted (fragment_of _asked.now) _cand.now ∥₁ }
    { PruneAnswer::Keep };
    let call: Call = Box::new(alloc, ask)?;
    put_found(out, alloc, frag, size, budget, &[Pruner::new(call)])
}

// With a pruner that drops what a database refutes.
fn put_refuted(
    out: &mut String,
    alloc: Global,
    frag: &KFragment,
    size: u32,
    budget: u32,
) -> Result<(), NoMemory> {
    let ask = |asked: &KFragment, cand: &Candidate|
        requires { IsCandidateOf (fragment_of asked.now) cand.now }
        ensures { result ≡ answers.Drop → ∥ IsRefuted (fragment_of asked.now) cand.now ∥₁ }
    { answer_by_one_database(asked, cand) };
    let call: Call = Box::new(alloc, ask)?;
    put_found(out, alloc, frag, size, budget, &[Pruner::new(call)])
}

// With a pruner that wants memory, by which the search ends.
fn put_wanting(
    out: &mut String,
    alloc: Global,
    frag: &KFragment,
    size: u32,
    budget: u32,
) -> Result<(), NoMemory> {
    let ask = |_asked: &KFragment, _cand: &Candidate|
        requires { IsCandidateOf (fragment_of _asked.now) _cand.now }
        ensures { result ≡ answers.Drop → ∥ IsRefuted (fragment_of _asked.now) _cand.now ∥₁ }
    { PruneAnswer::NoMemory };
    let call: Call = Box::new(alloc, ask)?;
    put_found(out, alloc, frag, size, budget, &[Pruner::new(call)])
}

/// Appends what a search finds with a pruner: one that keeps all, one that drops what a database refutes, or one that wants
/// memory, by which the search ends.
pub fn put_pruned(
    out: &mut String,
    alloc: Global,
    frag: &KFragment,
    words: &[&str],
) -> Result<(), NoMemory> {
    let (size, budget) = (number_at(words, 2), number_at(words, 3));
    let put = match word_at(words, 1) {
        "drop" => put_refuted(out, alloc, frag, size, budget),
        "want" => put_wanting(out, alloc, frag, size, budget),
        _ => put_kept(out, alloc, frag, size, budget),
    };
    match put {
        Ok(()) => Ok(()),
        Err(NoMemory) => Ok(out.push_str("no memory\n")?),
    }
}
