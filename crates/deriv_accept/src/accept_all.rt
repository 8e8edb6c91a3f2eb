// Whether conditions have derivations that show that they hold.
ghost use Rattle.std.specs.Prelude.{◌≡◌, IfOk, map};
ghost use Rattle.tor_axioms.specs.Accepts.{proof_of, claim_of};
ghost use Rattle.deriv_accept.specs.Accepted as spec;

use crate::accept::accepts;
use qbs_base::NoMemory;
use std::alloc::Global;
use tor_axioms::{Derivation, Vc};

/// Whether there are as many derivations as conditions, each accepted.
pub fn are_accepted(alloc: Global, vcs: &[Vc], proofs: &[Derivation]) -> Result<bool, NoMemory>
    ensures { IfOk result (λ answer. answer ≡ spec.are_accepted (map claim_of vcs.now) (map proof_of proofs.now)) }
{
    let mut further = proofs;
    for vc in vcs {
        match further.split_first() {
            None => return Ok(false),
            Some((proof, rest)) => {
                if !accepts(alloc, vc, proof)? {
                    return Ok(false);
                }
                further = rest;
            }
        }
    }
    Ok(further.is_empty())
}
