//! Laws of rules and derivations, for the crates above. They do nothing.
ghost use Rattle.std.specs.Prelude.{◌≡◌, true};
ghost use Rattle.tor_terms.specs.Plain.{Tree};
ghost use Rattle.tor_terms.specs.Truth.{World};
ghost use Rattle.tor_terms.specs.Valid.{IsValidFor};
ghost use Rattle.tor_axioms.specs.Accepts.{Proof, Claim, accepts, IsSound};
ghost use Rattle.tor_axioms.specs.Keeps.{IsReady};
ghost use Rattle.tor_axioms.specs.Validity.{IsValid, IsValidAnywhere};
ghost use Rattle.tor_axioms.specs.Worked.{Worked};

/// A world that is valid for a term is ready for it, so that rules keep the term's value there.
pub fn valid_worlds_are_ready()
    ensures { (w : World) (t : Tree) → IsValidFor w t → IsReady w t }
{}

/// A condition with an accepted derivation is sound; a sound one is valid in each world, whether or
/// not its terms fit; and so it is valid where they fit.
pub fn accepted_conditions_are_valid()
    ensures sound { (c : Claim) (d : Proof) → accepts c d ≡ true → IsSound c }
    ensures anywhere { (c : Claim) → IsSound c → IsValidAnywhere c }
    ensures fitting { (c : Claim) → IsValidAnywhere c → IsValid c }
{}

/// Derivations of the conditions of a small loop are accepted, or aren't.
pub fn worked_derivations_are_accepted()
    ensures { Worked }
{}
