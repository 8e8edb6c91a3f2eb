// The derivations of all conditions of a candidate.
ghost use Rattle.std.specs.Prelude.{◌≡◌, IfOk, map, option_map};
ghost use Rattle.kernel_lang.specs.Whole.{fragment_of};
ghost use Rattle.vc_gen.specs.Lent.{claims_over};
ghost use Rattle.query_search.specs.Seen.{proofs_in};
ghost use Rattle.query_search.specs.Verdicts as spec;

use kernel_lang::{Candidate, KFragment};
use qbs_base::{Items, NoMemory};
use std::alloc::Global;
use term_bank::TermBank;
use tor_axioms::{Condition, Derivations};
use tor_prover::derive_over_with;
use tor_terms::Atoms;
use vc_gen::conditions_over;

/// The derivations of these conditions, one for each, where each has one. They have one bank of terms.
fn derive_all(
    alloc: Global,
    atoms: &Atoms,
    conditions: &[Condition],
) -> Result<Option<Derivations>, NoMemory>
    ensures { IfOk result (λ o. option_map proofs_in o ≡ spec.all_derived (claims_over atoms.now conditions.now)) }
{
    let mut bank = TermBank::new(alloc);
    let mut all = Items::new(alloc);
    for condition in conditions {
        match derive_over_with(alloc, &mut bank, atoms, condition)? {
            Some(derivation) => all.push(derivation)?,
            None => return Ok(None),
        }
    }
    Ok(Some(all))
}

/// The derivations of a candidate's conditions, where all of them derive. The conditions lend the fragment's atoms.
pub fn judge(
    alloc: Global,
    frag: &KFragment,
    cand: &Candidate,
) -> Result<Option<Derivations>, NoMemory>
    ensures { IfOk result (λ o. option_map proofs_in o ≡ spec.proofs_of (fragment_of frag.now) cand.now) }
{
    let conditions = conditions_over(alloc, frag, cand)?;
    derive_all(alloc, &frag.atoms, conditions.as_slice())
}
