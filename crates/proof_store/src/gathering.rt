// What the candidates of a fragment leave in a bank.
ghost use Rattle.std.specs.Prelude.{◌≡◌, ◌+◌, ◌≤◌, ◌<◌, ◌^◌, IsTrue, Some, true, false, replicate, take, length, slice_get, map, IfOk, IfSome, OnOk};
ghost use Rattle.std.specs.List.{AllByRecursion};
ghost use Rattle.kernel_lang.specs.Pools.{IsCandidateOf};
ghost use Rattle.kernel_lang.specs.Typed.{is_typed};
ghost use Rattle.kernel_lang.specs.Whole.{fragment_of};
ghost use Rattle.small_dbs.specs.Endings.{ending as ending_of};
ghost use Rattle.small_dbs.specs.Small.{small};
ghost use Rattle.templates.specs.Numbered.{candidates_of};
ghost use Rattle.proof_store.specs.Banks.{Puts};
ghost use Rattle.proof_store.specs.Gathering.{Gathers, IsFirst};
ghost use Rattle.proof_store.specs.Grammar.{IsItemOf};
ghost use Rattle.proof_store.specs.Marked.{AreRefused, ArePut, item_at};

use crate::bank::Bank;
use crate::searched::Searched;
use crate::within::is_within;
use kernel_lang::{Candidate, KFragment};
use qbs_base::{Items, NoMemory, Values};
use schema::Schema;
use small_dbs::{Endings, SmallDb, ending, refutes_by, small_db_at, small_dbs};
use std::alloc::Global;
use templates::nth;

// Candidate `k`.
fn candidate(searched: Searched, k: u64) -> Result<Candidate, NoMemory>
    requires { k < length (candidates_of (fragment_of searched.frag.now) searched.size) }
    ensures exact { IfOk result (λ c. slice_get (candidates_of (fragment_of searched.entry.frag.now) searched.entry.size) k ≡ Some c) }
    ensures candidate { IfOk result (IsCandidateOf (fragment_of searched.entry.frag.now)) }
{
    nth(searched.alloc, searched.frag, k)
}

// The number of the first of these that refutes a candidate, by what the fragment ends with on each.
fn first_refuting(
    searched: Searched,
    cand: &Candidate,
    smalls: &[SmallDb],
    ends: &[Option<Values>],
) -> Result<Option<usize>, NoMemory>
    requires candidate { IsCandidateOf (fragment_of searched.frag.now) cand.now }
    requires ended { ends.now ≡ map (ending_of (fragment_of searched.frag.now)) smalls.now }
    ensures first { IfOk result (λ o. IsFirst (fragment_of searched.entry.frag.now) cand.now smalls.now (item_at smalls.now o)) }
    ensures within { IfOk result (λ o. IfSome o (λ d. d < length smalls.now)) }
{
    match smalls.split_first() {
        None => Ok(None),
        Some((small, rest)) => match ends.split_first() {
            None => unreachable!(),
            Some((end, others)) => {
                if refutes_by(searched.alloc, searched.frag, cand, small, end)? {
                    return Ok(Some(0));
                }
                match first_refuting(searched, cand, rest, others)? {
                    None => Ok(None),
                    Some(d) => Ok(Some(d + 1)),
                }
            }
        },
    }
}

// None of the eight is marked.
fn no_marks(alloc: Global) -> Result<Vec<bool>, NoMemory>
    ensures { IfOk result (λ marks. marks.items ≡ replicate 8 false) }
{
    Ok(vec![in alloc; false; 8]?)
}

fn is_marked(marks: &Vec<bool>, d: usize) -> bool
    ensures { IsTrue result → slice_get marks.now.items d ≡ Some true }
{
    match marks.as_slice().get(d) {
        Some(marked) => *marked,
        None => false,
    }
}

// Puts a small database, where it wasn't put before.
fn put_small(
    searched: Searched,
    d: usize,
    marks: &mut Vec<bool>,
    bank: &mut Bank,
) -> Result<(), NoMemory>
    requires low { d < 8 }
    requires eight { length marks.old.items ≡ 8 }
    requires marked { AreRefused searched.schema.now (fragment_of searched.frag.now) bank.old marks.old.items }
    ensures eight { length marks.new.items ≡ 8 }
    ensures puts { OnOk result (Puts bank.old (small searched.entry.schema.now (fragment_of searched.entry.frag.now) d) bank.new) }
    ensures marked { OnOk result (AreRefused searched.entry.schema.now (fragment_of searched.entry.frag.now) bank.new marks.new.items) }
{
    if is_marked(&*marks, d) {
        return Ok(());
    }
    let item = small_db_at(searched.alloc, searched.schema, searched.frag, d)?;
    // each is within the limits
    if !is_within(&item) {
        return Err(NoMemory);
    }
    bank.put(item)?;
    marks[d] = true;
    Ok(())
}

// The first small database that refutes candidate `k` is put, where there is one.
fn gather_one(
    searched: Searched,
    k: u64,
    marks: &mut Vec<bool>,
    bank: &mut Bank,
) -> Result<(), NoMemory>
    requires within { k < length (candidates_of (fragment_of searched.frag.now) searched.size) }
    requires eight { length marks.old.items ≡ 8 }
    requires marked { AreRefused searched.schema.now (fragment_of searched.frag.now) bank.old marks.old.items }
    ensures eight { length marks.new.items ≡ 8 }
    ensures put { OnOk result (ArePut searched.entry.schema.now (fragment_of searched.entry.frag.now) searched.entry.size k 1 bank.old bank.new marks.new.items) }
{
    let cand = candidate(searched, k)?;
    match first_refuting(searched, &cand, searched.smalls, searched.ends)? {
        None => Ok(()),
        Some(d) => put_small(searched, d, marks, bank),
    }
}

// The same for the `n` candidates from number `k` on, in their order.
fn gather_part(
    searched: Searched,
    k: u64,
    n: u64,
    marks: &mut Vec<bool>,
    bank: &mut Bank,
) -> Result<(), NoMemory>
    requires within { k + n ≤ length (candidates_of (fragment_of searched.frag.now) searched.size) }
    requires small { k + n < 2 ^ 64 }
    requires eight { length marks.old.items ≡ 8 }
    requires marked { AreRefused searched.schema.now (fragment_of searched.frag.now) bank.old marks.old.items }
    ensures eight { length marks.new.items ≡ 8 }
    ensures put { OnOk result (ArePut searched.entry.schema.now (fragment_of searched.entry.frag.now) searched.entry.size k n bank.old bank.new marks.new.items) }
{
    if n == 0 {
        return Ok(());
    }
    if n == 1 {
        return gather_one(searched, k, marks, bank);
    }
    let half = n / 2;
    gather_part(searched, k, half, &mut *marks, &mut *bank)?;
    gather_part(searched, k + half, n - half, marks, bank)
}

// What a fragment ends with on each of these.
fn all_endings(alloc: Global, frag: &KFragment, smalls: &[SmallDb]) -> Result<Endings, NoMemory>
    ensures { IfOk result (λ all. all ≡ map (ending_of (fragment_of frag.now)) smalls.now) }
{
    let mut all = Items::new(alloc);
    for small in smalls {
        all.push(ending(alloc, frag, small)?)?;
    }
    Ok(all)
}

/// Of each of the first candidates of a fragment of at most `size` formulas, so many in their order, puts the first of the fragment's small
/// databases that refutes it, where there is one. What is in the bank stays, each item once, up to 256. Only want of memory is an error.
pub fn gather(
    alloc: Global,
    schema: &Schema,
    frag: &KFragment,
    size: u32,
    before: u64,
    bank: &mut Bank,
) -> Result<(), NoMemory>
    requires typed { is_typed schema.now (fragment_of frag.now) ≡ true }
    requires size { size ≤ 8 }
    requires before { before ≤ length (candidates_of (fragment_of frag.now) size) }
    ensures gathers { OnOk result (Gathers schema.now (fragment_of frag.now) (take before (candidates_of (fragment_of frag.now) size)) bank.old bank.new) }
    ensures items { AllByRecursion (IsItemOf schema.now) bank.old → OnOk result (AllByRecursion (IsItemOf schema.now) bank.new) }
{
    let all = small_dbs(alloc, schema, frag)?;
    let ends = all_endings(alloc, frag, all.as_slice())?;
    let mut marks = no_marks(alloc)?;
    let searched = Searched {
        alloc,
        schema,
        frag,
        size,
        smalls: all.as_slice(),
        ends: ends.as_slice(),
    };
    gather_part(searched, 0, before, &mut marks, bank)
}
