// What has been decided of an accumulator's choices, so that none is judged twice.
ghost use Rattle.std.specs.Prelude.{◌≡◌, ◌+◌, ◌*◌, ◌%◌, ◌<◌, Some, None, IfOk, option_map, IfSome, OnOk, [], false, true, length, slice_get, map, drop, ◌++◌};
ghost use Rattle.tor_terms.specs.Plain.{forms_of};
ghost use Rattle.kernel_lang.specs.Plain.{accumulator};
ghost use Rattle.kernel_lang.specs.Pools.{members_from};
ghost use Rattle.kernel_lang.specs.Whole.{fragment_of};
ghost use Rattle.vc_gen.specs.Conditions.{all_conditions};
ghost use Rattle.vc_gen.specs.Short.{AllShort};
ghost use Rattle.query_search.specs.declared.choices.Decided.TheVariants as answers;
ghost use Rattle.query_search.specs.Choices.{digits, chosen_by, member_at, own_at, conditions_at, IsFailing, FailAsKnown};
ghost use Rattle.query_search.specs.Deciding.{IsDecisionOn};
ghost use Rattle.query_search.specs.Remembered.{AreOutlinesOf, IsKeptOf, IsMemoryOf};
ghost use Rattle.query_search.specs.Seen.{proofs_in};
ghost use Rattle.query_search.specs.Verdicts.{all_derived, proofs_of};

use crate::deciding::{Decision, decide};
use crate::judge::judge;
use kernel_lang::{Acc, Candidate, KFragment};
use qbs_base::{Items, NoMemory};
use std::alloc::Global;
use std::mem;
use tor_axioms::{Derivation, Derivations};
use tor_terms::{Formula, Formulas, copy_formula};
use vc_gen::{Outline, has_number, outline_of};

/// What has been decided of an accumulator with a choice. Only that its conditions fail is relied on.
#[derive(Clone, Copy, PartialEq, Eq)]
pub enum Decided {
    Open,
    Derives,
    Fails,
}

/// The number of the choice that a candidate makes in a pool, the first formula of which has the number `first`. None where
/// numbers are too large.
fn digits_of(cand: &[u32], first: u32, pool: &[Formula]) -> Option<usize>
    ensures { IfSome result (λ n. n ≡ digits cand.now first (forms_of pool.now)) }
{
    match pool.split_first() {
        None => Some(0),
        Some((_, rest)) => {
            let above = digits_of(cand, first.checked_add(1)?, rest)?.checked_mul(2)?;
            if has_number(cand, first) {
                above.checked_add(1)
            } else {
                Some(above)
            }
        }
    }
}

/// How many accumulators have places.
const PLACED_ACCUMULATORS: usize = 8;

/// The place of accumulator `i` with the choice that a candidate makes. None where there is none.
fn place_of(cand: &[u32], first: u32, a: &Acc, i: usize) -> Option<usize>
    ensures room { IfSome result (λ place. i < 8) }
    ensures place { IfSome result (λ place. place ≡ digits cand.now first (forms_of a.now.pool) * 8 + i) }
{
    if i >= PLACED_ACCUMULATORS {
        return None;
    }
    digits_of(cand, first, a.pool.as_slice())?
        .checked_mul(8)?
        .checked_add(i)
}

/// The number behind those of an accumulator's pool. None where it is too large.
fn behind(first: u32, a: &Acc) -> Option<u32>
    ensures { IfSome result (λ n. n ≡ first + length (forms_of a.now.pool)) }
{
    let count = u32::try_from(a.pool.len()).ok()?;
    first.checked_add(count)
}

fn add_chosen(alloc: Global, n: usize, pool: &[Formula], all: &mut Formulas) -> Result<(), NoMemory>
    ensures { IfOk result (λ _. forms_of all.new ≡ forms_of all.old ++ chosen_by n (forms_of pool.now)) }
{
    match pool.split_first() {
        None => Ok(()),
        Some((f, rest)) => {
            if n % 2 == 1 {
                let copy = copy_formula(alloc, f)?;
                all.push(copy)?;
                add_chosen(alloc, n / 2, rest, all)
            } else {
                add_chosen(alloc, n / 2, rest, all)
            }
        }
    }
}

/// The choice of a number.
fn chosen(alloc: Global, n: usize, pool: &[Formula]) -> Result<Formulas, NoMemory>
    ensures { IfOk result (λ fs. forms_of fs ≡ chosen_by n (forms_of pool.now)) }
{
    let mut all = Items::new(alloc);
    add_chosen(alloc, n, pool, &mut all)?;
    Ok(all)
}

/// The derivations of accumulators with choices, one after the other: of each the first choice that derived.
#[derive(Drop)]
pub struct Kept {
    places: Vec<usize>,
    proofs: Vec<Derivation>,
}

/// What has been decided of a fragment's choices, each at its place, and the number of the condition that failed last: choices
/// that fail mostly fail by the same one. With it what is the same for all choices of each accumulator, and what was derived.
#[derive(Drop)]
pub struct Memory {
    known: Vec<Decided>,
    likely: usize,
    outlines: Items<Outline>,
    kept: Kept,
}

fn fails_at(known: &[Decided], place: usize) -> bool
    ensures { result ≡ true → slice_get known.now place ≡ Some answers.Fails }
{
    match known.get(place) {
        Some(Decided::Fails) => true,
        _ => false,
    }
}

/// Whether some accumulator from the number `i` on is known to fail with the choice that a candidate makes, where the pool of
/// the first of them begins with the number `first`.
fn knows_failing(frag: &KFragment, known: &[Decided], i: usize, first: u32, cand: &[u32]) -> bool
    requires { FailAsKnown (fragment_of frag.now) known.now }
    ensures { result ≡ true → all_derived (all_conditions (fragment_of frag.now).atoms (members_from cand.now first (drop i (fragment_of frag.now).accs))) ≡ None }
{
    match frag.accs.as_slice().get(i) {
        None => false,
        Some(a) => match place_of(cand, first, a, i) {
            None => false,
            Some(place) => {
                if fails_at(known, place) {
                    return true;
                }
                match behind(first, a) {
                    None => false,
                    Some(next) => knows_failing(frag, known, i + 1, next, cand),
                }
            }
        },
    }
}

/// Keeps the derivations of an accumulator with the choice of a place, where those kept are of all accumulators before it.
fn keep(
    frag: &KFragment,
    kept: &mut Kept,
    place: usize,
    proofs: Derivations,
) -> Result<(), NoMemory>
    requires before { IsKeptOf (fragment_of frag.now) kept.old }
    requires derived { all_derived (own_at (fragment_of frag.now) (member_at (fragment_of frag.now) place)) ≡ Some (proofs_in proofs) }
    ensures { OnOk result (IsKeptOf (fragment_of frag.now) kept.new) }
{
    let _frag = frag;
    if kept.places.len() != place % 8 {
        return Ok(());
    }
    let mut proofs = proofs.into_vec();
    kept.proofs.append(&mut proofs)?;
    kept.places.push(place)?;
    Ok(())
}

/// Decides an accumulator with the choice of a place.
fn decide_open(
    alloc: Global,
    frag: &KFragment,
    memory: &Memory,
    a: &Acc,
    place: usize,
) -> Result<Decision, NoMemory>
    requires known { IsMemoryOf (fragment_of frag.now) memory.now }
    requires at { slice_get (fragment_of frag.now).accs (place % 8) ≡ Some (accumulator a.now) }
    ensures { IfOk result (IsDecisionOn (own_at (fragment_of frag.now) (member_at (fragment_of frag.now) place))) }
{
    match memory.outlines.as_slice().get(place % 8) {
        None => Ok(Decision::Nothing),
        Some(outline) => {
            let choice = chosen(alloc, place / 8, a.pool.as_slice())?;
            decide(
                alloc,
                &frag.atoms,
                a,
                outline,
                choice.as_slice(),
                memory.likely,
            )
        }
    }
}

/// Whether an accumulator derives with the choice of a place, as it is known or else decided and kept.
fn decide_at(
    alloc: Global,
    frag: &KFragment,
    memory: &mut Memory,
    a: &Acc,
    place: usize,
) -> Result<bool, NoMemory>
    requires known { IsMemoryOf (fragment_of frag.now) memory.old }
    requires at { slice_get (fragment_of frag.now).accs (place % 8) ≡ Some (accumulator a.now) }
    ensures kept { OnOk result (IsMemoryOf (fragment_of frag.now) memory.new) }
    ensures fails { IfOk result (λ b. b ≡ false → IsFailing (fragment_of frag.now) (member_at (fragment_of frag.now) place)) }
{
    match memory.known.get(place).copied() {
        None => Ok(true),
        Some(Decided::Derives) => Ok(true),
        Some(Decided::Fails) => Ok(false),
        Some(Decided::Open) => match decide_open(alloc, frag, memory, a, place)? {
            Decision::Nothing => Ok(true),
            Decision::Derived(proofs) => {
                memory.known[place] = Decided::Derives;
                keep(frag, &mut memory.kept, place, proofs)?;
                Ok(true)
            }
            Decision::Failing(n) => {
                memory.known[place] = Decided::Fails;
                memory.likely = n;
                Ok(false)
            }
        },
    }
}

/// Whether no accumulator from the number `i` on fails with the choice that a candidate makes, as far as it can be kept.
fn decide_from(
    alloc: Global,
    frag: &KFragment,
    memory: &mut Memory,
    i: usize,
    first: u32,
    cand: &[u32],
) -> Result<bool, NoMemory>
    requires { IsMemoryOf (fragment_of frag.now) memory.old }
    ensures kept { OnOk result (IsMemoryOf (fragment_of frag.now) memory.new) }
    ensures fails { IfOk result (λ b.
        b ≡ false
        → all_derived (all_conditions (fragment_of frag.now).atoms (members_from cand.now first (drop i (fragment_of frag.now).accs))) ≡ None) }
{
    match frag.accs.as_slice().get(i) {
        None => Ok(true),
        Some(a) => match place_of(cand, first, a, i) {
            None => Ok(true),
            Some(place) => {
                if !decide_at(alloc, frag, memory, a, place)? {
                    return Ok(false);
                }
                match behind(first, a) {
                    None => Ok(true),
                    Some(next) => decide_from(alloc, frag, memory, i + 1, next, cand),
                }
            }
        },
    }
}

/// Whether these are the places of the accumulators from the number `i` on with the choices that a candidate makes.
fn are_places(frag: &KFragment, places: &[usize], i: usize, first: u32, cand: &[u32]) -> bool
    ensures { result ≡ true
        → conditions_at (fragment_of frag.now) places.now
        ≡ all_conditions (fragment_of frag.now).atoms (members_from cand.now first (drop i (fragment_of frag.now).accs)) }
{
    match frag.accs.as_slice().get(i) {
        None => places.is_empty(),
        Some(a) => match places.split_first() {
            None => false,
            Some((place, rest)) => match place_of(cand, first, a, i) {
                None => false,
                Some(own) => match behind(first, a) {
                    None => false,
                    Some(next) => {
                        if own != *place {
                            return false;
                        }
                        are_places(frag, rest, i + 1, next, cand)
                    }
                },
            },
        },
    }
}

/// Takes the derivations that are kept.
fn take(alloc: Global, kept: &mut Kept) -> Derivations
    ensures taken { result ≡ kept.old.proofs.items }
    ensures places { kept.new.places.items ≡ [] }
    ensures proofs { kept.new.proofs.items ≡ [] }
{
    kept.places = Vec::new(alloc);
    Items::from_vec(mem::replace(&mut kept.proofs, Vec::new(alloc)))
}

/// The derivations of a candidate's conditions, where all of them derive, by what is known of choices.
pub fn judge_by(
    alloc: Global,
    frag: &KFragment,
    memory: &mut Memory,
    cand: &Candidate,
) -> Result<Option<Derivations>, NoMemory>
    requires { IsMemoryOf (fragment_of frag.now) memory.old }
    ensures kept { OnOk result (IsMemoryOf (fragment_of frag.now) memory.new) }
    ensures exact { IfOk result (λ o. option_map proofs_in o ≡ proofs_of (fragment_of frag.now) cand.now) }
{
    if knows_failing(frag, memory.known.as_slice(), 0, 0, cand.as_slice()) {
        return Ok(None);
    }
    if !decide_from(alloc, frag, memory, 0, 0, cand.as_slice())? {
        return Ok(None);
    }
    if are_places(frag, memory.kept.places.as_slice(), 0, 0, cand.as_slice()) {
        return Ok(Some(take(alloc, &mut memory.kept)));
    }
    judge(alloc, frag, cand)
}

/// How many places a fragment's choices have: one for each choice of the longest pool, of each of eight accumulators.
fn places(frag: &KFragment) -> usize {
    let mut longest = 0;
    for a in frag.accs.as_slice() {
        longest = longest.max(a.pool.len());
    }
    let mut places = PLACED_ACCUMULATORS;
    for _ in 0..longest.min(16) {
        places = places.saturating_mul(2);
    }
    places
}

/// What is the same for all choices, of each accumulator.
fn outlines(alloc: Global, accs: &[Acc]) -> Result<Items<Outline>, NoMemory>
    requires { AllShort accs.now }
    ensures { IfOk result (AreOutlinesOf (map accumulator accs.now)) }
{
    let mut all = Items::new(alloc);
    for a in accs {
        let one = outline_of(alloc, a)?;
        all.push(one)?;
    }
    Ok(all)
}

/// Choices of which none has been decided.
fn undecided(alloc: Global, frag: &KFragment) -> Result<Vec<Decided>, NoMemory>
    ensures { IfOk result (λ known. FailAsKnown (fragment_of frag.now) known.items) }
{
    let known = vec![in alloc; Decided::Open; places(frag)]?;
    Ok(known)
}

/// A memory in which nothing has been decided.
pub fn new_memory(alloc: Global, frag: &KFragment) -> Result<Memory, NoMemory>
    ensures { IfOk result (IsMemoryOf (fragment_of frag.now)) }
{
    let outlines = outlines(alloc, frag.accs.as_slice())?;
    let known = undecided(alloc, frag)?;
    let kept = Kept {
        places: Vec::new(alloc),
        proofs: Vec::new(alloc),
    };
    Ok(Memory {
        known,
        likely: 0,
        outlines,
        kept,
    })
}
