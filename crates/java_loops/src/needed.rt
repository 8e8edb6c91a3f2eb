//! Laws of the variables that a replacement needs. They do nothing.
ghost use Rattle.std.specs.Prelude.{◌≡◌, ℕ, Bool, true, List};
ghost use Rattle.java_ast.specs.Tree.{Statements};
ghost use Rattle.loop_text.specs.Statements.Fragment.{IsNeeded, IsClosed};
ghost use Rattle.java_loops.specs.Walks.Reads.{Set};
ghost use Rattle.java_loops.specs.Walks.Runs.{KeptRead};
ghost use Rattle.java_loops.specs.Walks.Needed.{AreNeeded, keeping, walked, needed, KeptAlone};

/// The needed variables are in each closed set. A walk through the run adds needed ones alone and takes none
/// away, and a set to which it adds nothing is closed: so the walk, repeated until it adds nothing, comes to
/// the needed variables.
pub fn repeated_walks_come_to_the_needed_variables()
    ensures least { (base dropped : Set) (run : Statements) (r : Set) (x : List ℕ) → IsClosed base dropped run r → IsNeeded base dropped run x → r x ≡ true }
    ensures adds_needed { (base dropped : Set) (run : Statements) (r : Set) → AreNeeded base dropped run r → AreNeeded base dropped run (walked dropped run r) }
    ensures covers { (dropped : Set) (run : Statements) (r : Set) (x : List ℕ) → r x ≡ true → walked dropped run r x ≡ true }
    ensures closed { (base dropped : Set) (run : Statements) (r : Set)
        → ((x : List ℕ) → base x ≡ true → r x ≡ true)
        → ((x : List ℕ) → walked dropped run r x ≡ true → r x ≡ true)
        → IsClosed base dropped run r }
{}

/// The set that is defined by so many walks as the run has statements, and one, is closed and holds the needed
/// variables and no others.
#[tactic(auto, using(crate::proofs::Walks::EnoughWalks::needed_closed, crate::proofs::Walks::EnoughWalks::all_needed, crate::proofs::Walks::EnoughWalks::needed_found))]
pub fn enough_walks_are_defined()
    ensures closed { (base dropped : Set) (run : Statements) → IsClosed base dropped run (needed base dropped run) }
    ensures only { (base dropped : Set) (run : Statements) (x : List ℕ) → needed base dropped run x ≡ true → IsNeeded base dropped run x }
    ensures all { (base dropped : Set) (run : Statements) (x : List ℕ) → IsNeeded base dropped run x → needed base dropped run x ≡ true }
{}

/// The statements that a closed set keeps read variables of the set alone, and none whose statements are
/// dropped, if no kept statement mentions such a one.
#[tactic(auto, using(crate::proofs::Walks::Walks::closed_reads))]
pub fn closed_sets_keep_what_is_read()
    ensures { (base dropped : Set) (run : Statements) (r : Set) → IsClosed base dropped run r → KeptAlone dropped run → KeptRead (keeping r dropped) run }
{}
