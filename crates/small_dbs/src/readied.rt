// Databases that are asked about one candidate after another.
ghost use Rattle.std.specs.Prelude.{◌≡◌, ◌↔◌, ◌+◌, ◌<◌, ◌≤◌, IsTrue, IfOk, OnOk, length};
ghost use Rattle.kernel_lang.specs.Pools.{IsCandidateOf};
ghost use Rattle.kernel_lang.specs.Whole.{fragment_of};
ghost use Rattle.small_dbs.specs.Endings as spec;
ghost use Rattle.small_dbs.specs.Pruned.{OneRefutes};

use crate::endings::{Endings, ending, refutes_by};
use crate::small::SmallDb;
use kernel_lang::{Candidate, KFragment};
use qbs_base::NoMemory;
use std::alloc::Global;

// Finds what the fragment ends with on the next database, the first of which it isn't known.
fn know_next(
    alloc: Global,
    frag: &KFragment,
    items: &[SmallDb],
    endings: &mut Endings,
) -> Result<(), NoMemory>
    requires below { length endings.old < length items.now }
    requires known { endings.old ≡ spec.first_endings (fragment_of frag.now) items.now (length endings.old) }
    ensures known { endings.new ≡ spec.first_endings (fragment_of frag.now) items.now (length endings.new) }
    ensures one { OnOk result (length endings.new ≡ length endings.old + 1) }
{
    let next = ending(alloc, frag, &items[endings.len()])?;
    endings.push(next)
}

// Whether the database with that number refutes a candidate. What the fragment ends with there is found where it isn't known.
fn refutes_at(
    alloc: Global,
    frag: &KFragment,
    cand: &Candidate,
    items: &[SmallDb],
    i: usize,
    endings: &mut Endings,
) -> Result<bool, NoMemory>
    requires candidate { IsCandidateOf (fragment_of frag.now) cand.now }
    requires below { i < length items.now }
    requires next { i ≤ length endings.old }
    requires known { endings.old ≡ spec.first_endings (fragment_of frag.now) items.now (length endings.old) }
    ensures known { endings.new ≡ spec.first_endings (fragment_of frag.now) items.now (length endings.new) }
    ensures next { OnOk result (i < length endings.new) }
    ensures exact { IfOk result (λ b. IsTrue b ↔ spec.RefutesAt (fragment_of frag.now) cand.now items.now i) }
{
    if endings.len() == i {
        know_next(alloc, frag, items, &mut *endings)?;
    }
    refutes_by(alloc, frag, cand, &items[i], &endings.as_slice()[i])
}

/// Whether one of these databases refutes a candidate. What the fragment ends with on them is found up to the first that does, for this
/// candidate and all later ones. It fails only by want of memory.
pub fn one_refutes(
    alloc: Global,
    frag: &KFragment,
    cand: &Candidate,
    items: &[SmallDb],
    endings: &mut Endings,
) -> Result<bool, NoMemory>
    requires candidate { IsCandidateOf (fragment_of frag.now) cand.now }
    requires known { endings.old ≡ spec.first_endings (fragment_of frag.now) items.now (length endings.old) }
    ensures known { endings.new ≡ spec.first_endings (fragment_of frag.now) items.now (length endings.new) }
    ensures exact { IfOk result (λ b. IsTrue b ↔ OneRefutes (fragment_of frag.now) cand.now items.now) }
{
    for i in 0..items.len() {
        if refutes_at(alloc, frag, cand, items, i, &mut *endings)? {
            return Ok(true);
        }
    }
    Ok(false)
}
