//! Laws of the list of candidates, for the crates above. They do nothing.
ghost use Rattle.std.specs.Prelude.{◌≡◌, ◌≤◌, ◌<◌, ℕ, List, Some, length, slice_get, take};
ghost use Rattle.kernel_lang.specs.Plain.{Fragment};
ghost use Rattle.templates.specs.Numbered.{candidates, candidates_of, IsCandidate};
ghost use Rattle.templates.specs.Worked.{Worked};

/// The list has candidates alone, and each one that is no longer than asked.
#[tactic(auto, using(crate::proofs::Ranks::candidate_at, crate::proofs::Ranks::candidates_have))]
pub fn candidates_are_the_increasing_lists()
    ensures only { (pool size k : ℕ) (c : List ℕ) → slice_get (candidates pool size) k ≡ Some c → IsCandidate pool c }
    ensures all { (pool size : ℕ) (c : List ℕ) → IsCandidate pool c → length c ≤ size → (k : ℕ) × (slice_get (candidates pool size) k ≡ Some c) }
{}

/// The candidates of at most so many formulas are the first ones of all: candidate `k` of the list of
/// the largest size, below their count, is candidate `k` of theirs.
pub fn shorter_candidates_come_first()
    ensures first { (f : Fragment) (size : ℕ) → size ≤ 8 → take (length (candidates_of f size)) (candidates_of f 8) ≡ candidates_of f size }
    ensures each { (f : Fragment) (size k : ℕ) → size ≤ 8 → k < length (candidates_of f size) → slice_get (candidates_of f 8) k ≡ slice_get (candidates_of f size) k }
    ensures fewer { (f : Fragment) (size : ℕ) → size ≤ 8 → length (candidates_of f size) ≤ length (candidates_of f 8) }
{}

/// The counts and candidates of the worked fragments.
pub fn worked_fragments_have_candidates()
    ensures { Worked }
{}
