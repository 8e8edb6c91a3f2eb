//! Laws of verdicts, for the crates above. They do nothing.
ghost use Rattle.std.specs.Prelude.{◌≡◌, ℕ, List, None, Some};
ghost use Rattle.tor_axioms.specs.Accepts.{Proof};
ghost use Rattle.kernel_lang.specs.Plain.{Fragment};
ghost use Rattle.kernel_lang.specs.Pools.{IsCandidateOf};
ghost use Rattle.kernel_lang.specs.Refuted.{IsRefuted};
ghost use Rattle.kernel_lang.specs.Validity.{broken};
ghost use Rattle.query_search.specs.Firsts.{IsVerdict};
ghost use Rattle.query_search.specs.Verdicts.{verdict, proofs_of, IsAcceptedFor};
ghost use Rattle.query_search.specs.Worked.{Worked};

/// The verdict is the first accepted candidate below the budget, or that none of all is accepted, or that none is of as many
/// as the budget, and there are more.
pub fn verdicts_are_the_first_accepted()
    ensures { (f : Fragment) (size budget : ℕ) → IsVerdict f size budget (verdict f size budget) }
{}

/// A candidate that some database refutes isn't accepted.
pub fn refuted_candidates_are_not_accepted()
    ensures { (f : Fragment) (c : List ℕ) → broken f ≡ None → ∥ IsRefuted f c ∥₁ → proofs_of f c ≡ None }
{}

/// The derivations of an accepted candidate are accepted ones of its conditions, and its fragment ends as it claims.
pub fn accepted_candidates_keep_their_claim()
    ensures { (f : Fragment) (c : List ℕ) (ds : List Proof) → broken f ≡ None → IsCandidateOf f c → proofs_of f c ≡ Some ds → IsAcceptedFor f c ds }
{}

/// The verdicts on worked fragments.
pub fn worked_fragments_have_their_verdicts()
    ensures { Worked }
{}
