// The candidates one after another, from a number on.
ghost use Rattle.std.specs.Prelude.{◌≡◌, ◌+◌, ◌<◌, ◌≤◌, ◌^◌, IfOk, OnOk, length, option_map};
ghost use Rattle.kernel_lang.specs.declared.prune.PruneAnswer.TheVariants as answers;
ghost use Rattle.kernel_lang.specs.Pools.{IsCandidateOf};
ghost use Rattle.kernel_lang.specs.Refuted.{IsRefuted};
ghost use Rattle.kernel_lang.specs.Whole.{fragment_of};
ghost use Rattle.templates.specs.Numbered.{candidates_of};
ghost use Rattle.query_search.specs.Asking.{as_it_is, SomeMayDrop, EachMayKeep, OfCandidate};
ghost use Rattle.query_search.specs.Remembered.{IsMemoryOf};
ghost use Rattle.query_search.specs.Seen.{hit_in};
ghost use Rattle.query_search.specs.Walks.{IsPart};

use crate::asking::ask_all;
use crate::choices::{Memory, judge_by};
use crate::extra::FurtherPruner;
use crate::nth::candidate_at;
use crate::pruner::{Call, Pruner};
use kernel_lang::{Candidate, KFragment, PruneAnswer};
use qbs_base::NoMemory;
use search_steps::halves;
use std::alloc::Global;
use tor_axioms::Derivations;

/// An accepted candidate, by its number, with the derivations of its conditions.
#[derive(Drop)]
pub struct Accepted {
    pub k: u64,
    pub cand: Candidate,
    pub proofs: Derivations,
}

/// What comes of a part of the candidates: the first accepted one, and how many before it were dropped.
#[derive(Drop)]
pub struct WalkedPart {
    pub hit: Option<Accepted>,
    pub dropped: u64,
}

/// Candidate `k`: it is dropped, or judged.
fn judge_one<F: Fn(&KFragment, &Candidate) -> PruneAnswer>(
    alloc: Global,
    frag: &KFragment,
    size: u32,
    pruners: &[Pruner],
    extra: &FurtherPruner<F>,
    memory: &mut Memory,
    k: u64,
) -> Result<WalkedPart, NoMemory>
    requires size { size ≤ 8 }
    requires within { k < length (candidates_of (fragment_of frag.now) size) }
    requires known { IsMemoryOf (fragment_of frag.now) memory.old }
    requires callable { (f : _) (c : _) → IsCandidateOf (fragment_of f.now) c.now → F.pre extra.now.call f c }
    requires justified { (f : _) (c : _)
        → IsCandidateOf (fragment_of f.now) c.now
        → F.post extra.now.call f c answers.Drop
        → ∥ IsRefuted (fragment_of f.now) c.now ∥₁ }
    ensures kept { OnOk result (IsMemoryOf (fragment_of frag.now) memory.new) }
    ensures part { IfOk result (λ part.
        IsPart (fragment_of frag.now) size
        (OfCandidate (fragment_of frag.now) size (SomeMayDrop as_it_is (λ p. Call.post p.call) pruners.now (F.post extra.now.call) frag.now))
        (OfCandidate (fragment_of frag.now) size (EachMayKeep as_it_is (λ p. Call.post p.call) pruners.now (F.post extra.now.call) frag.now))
        k 1 (option_map hit_in part.hit) part.dropped) }
{
    let cand = candidate_at(alloc, frag, size, k)?;
    match ask_all(pruners, extra, frag, &cand) {
        PruneAnswer::NoMemory => Err(NoMemory),
        PruneAnswer::Drop => Ok(WalkedPart {
            hit: None,
            dropped: 1,
        }),
        PruneAnswer::Keep => match judge_by(alloc, frag, memory, &cand)? {
            None => Ok(WalkedPart {
                hit: None,
                dropped: 0,
            }),
            Some(proofs) => Ok(WalkedPart {
                hit: Some(Accepted { k, cand, proofs }),
                dropped: 0,
            }),
        },
    }
}

/// The `n` candidates from the number `k` on, one after another up to the first that is accepted.
pub fn walk<F: Fn(&KFragment, &Candidate) -> PruneAnswer>(
    alloc: Global,
    frag: &KFragment,
    size: u32,
    pruners: &[Pruner],
    extra: &FurtherPruner<F>,
    memory: &mut Memory,
    k: u64,
    n: u64,
) -> Result<WalkedPart, NoMemory>
    requires size { size ≤ 8 }
    requires within { k + n ≤ length (candidates_of (fragment_of frag.now) size) }
    requires small { k + n < 2 ^ 64 }
    requires known { IsMemoryOf (fragment_of frag.now) memory.old }
    requires callable { (f : _) (c : _) → IsCandidateOf (fragment_of f.now) c.now → F.pre extra.now.call f c }
    requires justified { (f : _) (c : _)
        → IsCandidateOf (fragment_of f.now) c.now
        → F.post extra.now.call f c answers.Drop
        → ∥ IsRefuted (fragment_of f.now) c.now ∥₁ }
    ensures kept { OnOk result (IsMemoryOf (fragment_of frag.now) memory.new) }
    ensures part { IfOk result (λ part.
        IsPart (fragment_of frag.now) size
        (OfCandidate (fragment_of frag.now) size (SomeMayDrop as_it_is (λ p. Call.post p.call) pruners.now (F.post extra.now.call) frag.now))
        (OfCandidate (fragment_of frag.now) size (EachMayKeep as_it_is (λ p. Call.post p.call) pruners.now (F.post extra.now.call) frag.now))
        k n (option_map hit_in part.hit) part.dropped) }
{
    if n == 0 {
        return Ok(WalkedPart {
            hit: None,
            dropped: 0,
        });
    }
    if n == 1 {
        return judge_one(alloc, frag, size, pruners, extra, memory, k);
    }
    let parts = halves(k, n);
    let first = walk(
        alloc, frag, size, pruners, extra, memory, parts.0.0, parts.0.1,
    )?;
    if first.hit.is_some() {
        return Ok(first);
    }
    let rest = walk(
        alloc, frag, size, pruners, extra, memory, parts.1.0, parts.1.1,
    )?;
    let dropped = first.dropped + rest.dropped;
    Ok(WalkedPart {
        hit: rest.hit,
        dropped,
    })
}
