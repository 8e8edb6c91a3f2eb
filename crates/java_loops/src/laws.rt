//! Laws of fragments, for the crates above. They do nothing.
ghost use Rattle.std.specs.Prelude.{◌≡◌, ℕ, List, map, Bool, true, slice_get};
ghost use Rattle.std.specs.declared.option.Option.TheVariants.{Some};
ghost use Rattle.qbs_base.specs.declared.scalar.Scalar.{Scalar};
ghost use Rattle.qbs_base.specs.Scalar.{scalar_same};
ghost use Rattle.qbs_base.specs.Values.{Database};
ghost use Rattle.sql_ast.specs.Grouped as grouped;
ghost use Rattle.java_ast.specs.Tree.{Statements, PlainProgram};
ghost use Rattle.java_ast.specs.Path.{and_then};
ghost use Rattle.java_mean.specs.Expression.{alone, same_member};
ghost use Rattle.kernel_lang.specs.declared.parts.Entry.{Entry};
ghost use Rattle.kernel_lang.specs.Fitting.{PartsFit};
ghost use Rattle.kernel_lang.specs.Plain as kernel;
ghost use Rattle.kernel_lang.specs.Running.{fragment_end};
ghost use Rattle.java_loops.specs.Meant.Members.{HaveSameMembers, SameButForOrder};
ghost use Rattle.java_ast.specs.Names.{Names};
ghost use Rattle.loop_text.specs.Statements.Fragment.{Fragment, IsWanted, IsClosed, drops, live_or, are_simple, before_run, run_of, fragment_at};
ghost use Rattle.loop_text.specs.Statements.KeptStatements.{first_at};
ghost use Rattle.loop_text.specs.Statements.Loops.{loops_of};
ghost use Rattle.loop_text.specs.Statements.Walking.{IsLoopOf};

/// The wanted variables of a fragment are in each closed set.
#[tactic(auto, using(crate::proofs::Walks::Walks::needed_in_closed))]
pub fn wanted_variables_are_the_least_set()
    ensures { (f : Fragment) (further : Names) (r : List ℕ → Bool) (x : List ℕ) → IsClosed (live_or f further) (drops f) f.run r → IsWanted f further x → r x ≡ true }
{}

/// The run at the end of statements has simple statements alone, and there is no longer one: wherever
/// simple statements end some statements, what stands before them begins with what stands before the run.
#[tactic(auto, using(crate::proofs::Kept::Longest::run_splits, crate::proofs::Kept::Longest::run_is_simple, crate::proofs::Kept::Longest::run_is_longest))]
pub fn runs_are_the_longest()
    ensures split { (ss : Statements) → and_then (before_run ss) (run_of ss) ≡ ss }
    ensures simple { (ss : Statements) → are_simple (run_of ss) ≡ true }
    ensures longest { (before run : Statements) → are_simple run ≡ true → (middle : Statements) × (before ≡ and_then (before_run (and_then before run)) middle) }
{}

/// The path of a loop of a program leads to the loop's fragment, and to the number of the run's first statement.
pub fn loops_are_found_by_their_paths()
    ensures fragment { (p : PlainProgram) (path : List ℕ) → IsLoopOf p path → (f : Fragment) × (fragment_at path p ≡ Some f) }
    ensures first { (p : PlainProgram) (path : List ℕ) → IsLoopOf p path → (n : ℕ) × (first_at path p ≡ Some n) }
{}

/// A path in the list of a program's loops is that of a loop.
pub fn listed_paths_are_of_loops()
    ensures { (p : PlainProgram) (n : ℕ) (path : List ℕ) → slice_get (loops_of p) n ≡ Some path → IsLoopOf p path }
{}

/// What a fragment ends with, and whether its parts fit what it is given, depends on a known list by membership alone. The first
/// occurrences of a list have the members of the list, and so has what a set of its scalars holds.
pub fn known_lists_matter_by_membership()
    ensures ends { (f : kernel.Fragment) (db : Database) (a b : Entry) → SameButForOrder a b → fragment_end f db a ≡ fragment_end f db b }
    ensures fits { (f : kernel.Fragment) (db : Database) (a b : Entry) → SameButForOrder a b → PartsFit f db a → PartsFit f db b }
    ensures firsts { (xs : List Scalar) → HaveSameMembers (grouped.firsts scalar_same xs) xs }
    ensures sets { (xs ys : List Scalar) → grouped.firsts same_member (map alone xs) ≡ map alone ys → HaveSameMembers ys xs }
{}
