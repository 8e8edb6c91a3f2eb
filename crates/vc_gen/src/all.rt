// The conditions of a fragment and a candidate.
ghost use Rattle.std.specs.Prelude.{◌≡◌, ◌+◌, ◌<◌, ◌≤◌, ◌^◌, ◌++◌, ◌∷◌, [], length, map, nat_eq, IfOk};
ghost use Rattle.std.specs.List.{list_any};
ghost use Rattle.tor_terms.specs.Plain.{forms_of};
ghost use Rattle.tor_axioms.specs.Accepts.{claim_over};
ghost use Rattle.kernel_lang.specs.Plain.{accumulator};
ghost use Rattle.kernel_lang.specs.Pools as pools;
ghost use Rattle.kernel_lang.specs.Validity.{count_conditions};
ghost use Rattle.kernel_lang.specs.Whole.{fragment_of};
ghost use Rattle.vc_gen.specs.Conditions as spec;
ghost use Rattle.vc_gen.specs.Lent.{claims_over};
ghost use Rattle.vc_gen.specs.Short.{AllShort};
ghost use Rattle.vc_gen.specs.Soundness.{AllValid, AllValidAnywhere, EndsAsClaimed, EndsAnywhere};

use crate::own::{Conditions, add_own};
use kernel_lang::{Acc, Candidate, KFragment};
use qbs_base::{Items, NoMemory, boxed};
use std::alloc::Global;
use tor_axioms::{Condition, Vc, Vcs};
use tor_terms::{Atoms, Formula, Formulas, copy_atoms, copy_formula};

/// Whether a number stands in a candidate.
pub fn has_number(cand: &[u32], n: u32) -> bool
    ensures { result ≡ list_any (nat_eq n) cand.now }
{
    cand.iter().any(|m| n == *m)
}

fn add_chosen(
    alloc: Global,
    cand: &[u32],
    first: u32,
    pool: &[Formula],
    all: &mut Formulas,
) -> Result<(), NoMemory>
    requires { first + length pool.now < 2 ^ 32 }
    ensures { IfOk result (λ _. forms_of all.new ≡ forms_of all.old ++ pools.chosen cand.now first (forms_of pool.now)) }
{
    match pool.split_first() {
        None => Ok(()),
        Some((f, rest)) => {
            if has_number(cand, first) {
                let copy = copy_formula(alloc, f)?;
                all.push(copy)?;
                add_chosen(alloc, cand, first + 1, rest, all)
            } else {
                add_chosen(alloc, cand, first + 1, rest, all)
            }
        }
    }
}

// The formulas of a pool whose numbers stand in the candidate; the first one has the number `first`.
fn chosen(alloc: Global, cand: &[u32], first: u32, pool: &[Formula]) -> Result<Formulas, NoMemory>
    requires { first + length pool.now < 2 ^ 32 }
    ensures { IfOk result (λ fs. forms_of fs ≡ pools.chosen cand.now first (forms_of pool.now)) }
{
    let mut all = Items::new(alloc);
    add_chosen(alloc, cand, first, pool, &mut all)?;
    Ok(all)
}

#[tactic(auto, using(kernel_lang::proofs::Sized::sized))]
fn add_all(
    alloc: Global,
    atoms: &Atoms,
    accs: &[Acc],
    cand: &[u32],
    first: u32,
    all: &mut Conditions,
) -> Result<(), NoMemory>
    requires short { AllShort accs.now }
    requires small { first + length (pools.pooled (map accumulator accs.now)) < 2 ^ 32 }
    ensures { IfOk result (λ _.
        claims_over atoms.now all.new
        ≡ claims_over atoms.now all.old ++ spec.all_conditions atoms.now (pools.members_from cand.now first (map accumulator accs.now))) }
{
    match accs.split_first() {
        None => Ok(()),
        Some((a, rest)) => {
            let formulas = chosen(alloc, cand, first, a.pool.as_slice())?;
            add_own(alloc, atoms, a, formulas.as_slice(), all)?;
            add_all(alloc, atoms, rest, cand, first + a.pool.len() as u32, all)
        }
    }
}

/// The conditions of a fragment and a candidate of it over the fragment's atoms, which aren't copied. They
/// are those of `conditions`, in their order. The error is want of memory.
pub fn conditions_over(
    alloc: Global,
    frag: &KFragment,
    cand: &Candidate,
) -> Result<Conditions, NoMemory>
    ensures { IfOk result (λ all. claims_over (fragment_of frag.now).atoms all ≡ spec.conditions (fragment_of frag.now) cand.now) }
{
    let mut all = Items::new(alloc);
    add_all(
        alloc,
        &frag.atoms,
        frag.accs.as_slice(),
        cand.as_slice(),
        0,
        &mut all,
    )?;
    Ok(all)
}

fn add_with_atoms(
    alloc: Global,
    atoms: &Atoms,
    condition: Box<Condition>,
    all: &mut Vcs,
) -> Result<(), NoMemory>
    ensures { IfOk result (λ _. spec.claims_of all.new ≡ spec.claims_of all.old ++ claim_over atoms.now condition.value ∷ []) }
{
    let atoms = copy_atoms(alloc, atoms.as_slice())?;
    let Condition { facts, left, right } = Box::into_inner(condition);
    all.push(Vc {
        atoms,
        facts,
        left,
        right,
    })
}

/// Conditions with the atoms that they are over, a copy in each.
fn with_atoms(alloc: Global, atoms: &Atoms, conditions: Conditions) -> Result<Vcs, NoMemory>
    ensures { IfOk result (λ vcs. spec.claims_of vcs ≡ claims_over atoms.now conditions) }
{
    let mut all = Items::new(alloc);
    for condition in conditions.into_vec() {
        let condition = boxed(alloc, condition)?;
        add_with_atoms(alloc, atoms, condition, &mut all)?;
    }
    Ok(all)
}

fn list_conditions(alloc: Global, frag: &KFragment, cand: &Candidate) -> Result<Vcs, NoMemory>
    ensures { IfOk result (λ vcs. spec.claims_of vcs ≡ spec.conditions (fragment_of frag.now) cand.now) }
{
    let all = conditions_over(alloc, frag, cand)?;
    with_atoms(alloc, &frag.atoms, all)
}

/// The conditions of a fragment and a candidate of it, accumulator by accumulator and level by level,
/// from the outermost one on. There are at most 4096, as many for each candidate.
///
/// Where all of them are valid, then on every database, entry values and known lists that the
/// fragment's parts fit and on which it ends, each accumulator that stands outside all loops ends with
/// what its postcondition says. Where they are valid also in worlds that their terms don't fit, the
/// parts needn't fit either. `NoMemory` comes only where memory runs out.
pub fn conditions(alloc: Global, frag: &KFragment, cand: &Candidate) -> Result<Vcs, NoMemory>
    ensures exact { IfOk result (λ vcs. spec.claims_of vcs ≡ spec.conditions (fragment_of frag.now) cand.now) }
    ensures sound { IfOk result (λ vcs. AllValid (spec.claims_of vcs) → EndsAsClaimed (fragment_of frag.now) cand.now) }
    ensures anywhere { IfOk result (λ vcs. AllValidAnywhere (spec.claims_of vcs) → EndsAnywhere (fragment_of frag.now) cand.now) }
    ensures counted { IfOk result (λ vcs. length vcs ≡ count_conditions (fragment_of frag.now).accs) }
    ensures few { IfOk result (λ vcs. length vcs ≤ 4096) }
{
    list_conditions(alloc, frag, cand)
}
