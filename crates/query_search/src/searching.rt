// The search of a fragment's candidates.
ghost use Rattle.std.specs.Prelude.{◌≡◌, ◌≤◌, IfOk, option_map};
ghost use Rattle.kernel_lang.specs.declared.prune.PruneAnswer.TheVariants as answers;
ghost use Rattle.kernel_lang.specs.Pools.{IsCandidateOf};
ghost use Rattle.kernel_lang.specs.Refuted.{IsRefuted};
ghost use Rattle.kernel_lang.specs.Whole.{fragment_of};
ghost use Rattle.query_search.specs.Asking.{as_it_is, OneMayDrop, AllMayKeep, SomeMayDrop, EachMayKeep, OfCandidate};
ghost use Rattle.query_search.specs.Counted.{AreCounted};
ghost use Rattle.query_search.specs.Seen.{hit_in, verdict_in, dropped_in, IsFoundOf};
ghost use Rattle.query_search.specs.Verdicts.{verdict, verdict_by, before};

use crate::choices::new_memory;
use crate::extra::FurtherPruner;
use crate::found::Found;
use crate::pruner::{Call, Pruner};
use crate::walk::{WalkedPart, walk};
use kernel_lang::{Candidate, KFragment, PruneAnswer};
use qbs_base::NoMemory;
use search_steps::{are_all, most_judged};
use std::alloc::Global;
use templates::count;

/// What is found, where this comes of the candidates that may be judged, of `n` in all.
fn answer(part: WalkedPart, n: u64, budget: u64) -> Found
    ensures exact { verdict_in result ≡ verdict_by budget n (option_map hit_in part.hit) }
    ensures dropped { dropped_in result ≡ part.dropped }
{
    let dropped = part.dropped;
    match part.hit {
        Some(hit) => Found::Found {
            k: hit.k,
            cand: hit.cand,
            proofs: hit.proofs,
            dropped,
        },
        None => {
            if are_all(n, budget) {
                Found::NoneOf { n, dropped }
            } else {
                Found::Budget {
                    b: budget,
                    n,
                    dropped,
                }
            }
        }
    }
}

/// The first candidate of at most `size` formulas all of whose conditions derive, of the first `budget` ones; or that
/// there is none; or that there is none among these, and there are more. The answer but for `dropped` is the same whatever
/// pruners there are.
///
/// The pruners are asked about each candidate before the answer, in order, and `extra` after them, up to the first that
/// drops it. A dropped candidate isn't judged. The error is want of memory, also of a pruner.
pub fn search_with<F: Fn(&KFragment, &Candidate) -> PruneAnswer>(
    alloc: Global,
    frag: &KFragment,
    size: u32,
    budget: u64,
    pruners: &[Pruner],
    extra: &FurtherPruner<F>,
) -> Result<Found, NoMemory>
    requires size { size ≤ 8 }
    requires callable { (f : _) (c : _) → IsCandidateOf (fragment_of f.now) c.now → F.pre extra.now.call f c }
    requires justified { (f : _) (c : _)
        → IsCandidateOf (fragment_of f.now) c.now
        → F.post extra.now.call f c answers.Drop
        → ∥ IsRefuted (fragment_of f.now) c.now ∥₁ }
    ensures exact { IfOk result (λ r. verdict_in r ≡ verdict (fragment_of frag.now) size budget) }
    ensures dropped { IfOk result (λ r.
        AreCounted
        (OfCandidate (fragment_of frag.now) size (SomeMayDrop as_it_is (λ p. Call.post p.call) pruners.now (F.post extra.now.call) frag.now))
        (OfCandidate (fragment_of frag.now) size (EachMayKeep as_it_is (λ p. Call.post p.call) pruners.now (F.post extra.now.call) frag.now))
        0 (before (verdict (fragment_of frag.now) size budget)) (dropped_in r)) }
    ensures found { IfOk result (IsFoundOf (fragment_of frag.now)) }
{
    let n = count(frag, size);
    let mut memory = new_memory(alloc, frag)?;
    let judged = most_judged(budget, n);
    let part = walk(alloc, frag, size, pruners, extra, &mut memory, 0, judged)?;
    Ok(answer(part, n, budget))
}

/// The same, where the further closure never answers `Drop`: it doesn't count.
fn search_past<F: Fn(&KFragment, &Candidate) -> PruneAnswer>(
    alloc: Global,
    frag: &KFragment,
    size: u32,
    budget: u64,
    pruners: &[Pruner],
    kept: &FurtherPruner<F>,
) -> Result<Found, NoMemory>
    requires size { size ≤ 8 }
    requires callable { (f : _) (c : _) → IsCandidateOf (fragment_of f.now) c.now → F.pre kept.now.call f c }
    requires never { (f : _) (c : _) → F.post kept.now.call f c answers.Drop → ⊥ }
    ensures exact { IfOk result (λ r. verdict_in r ≡ verdict (fragment_of frag.now) size budget) }
    ensures dropped { IfOk result (λ r.
        AreCounted
        (OfCandidate (fragment_of frag.now) size (OneMayDrop as_it_is (λ p. Call.post p.call) pruners.now frag.now))
        (OfCandidate (fragment_of frag.now) size (AllMayKeep as_it_is (λ p. Call.post p.call) pruners.now frag.now))
        0 (before (verdict (fragment_of frag.now) size budget)) (dropped_in r)) }
    ensures found { IfOk result (IsFoundOf (fragment_of frag.now)) }
{
    search_with(alloc, frag, size, budget, pruners, kept)
}

/// The same with no further pruner. The answer but for `dropped` is the same whatever pruners there are.
pub fn search(
    alloc: Global,
    frag: &KFragment,
    size: u32,
    budget: u64,
    pruners: &[Pruner],
) -> Result<Found, NoMemory>
    requires { size ≤ 8 }
    ensures exact { IfOk result (λ r. verdict_in r ≡ verdict (fragment_of frag.now) size budget) }
    ensures dropped { IfOk result (λ r.
        AreCounted
        (OfCandidate (fragment_of frag.now) size (OneMayDrop as_it_is (λ p. Call.post p.call) pruners.now frag.now))
        (OfCandidate (fragment_of frag.now) size (AllMayKeep as_it_is (λ p. Call.post p.call) pruners.now frag.now))
        0 (before (verdict (fragment_of frag.now) size budget)) (dropped_in r)) }
    ensures found { IfOk result (IsFoundOf (fragment_of frag.now)) }
{
    let kept = FurtherPruner::new(|_frag: &KFragment, _cand: &Candidate| PruneAnswer::Keep);
    search_past(alloc, frag, size, budget, pruners, &kept)
}
