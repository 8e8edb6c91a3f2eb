//! What the definitions say of worked programs, as laws that compute. They do nothing.
ghost use Rattle.std.specs.Prelude.{◌≡◌, true, [], ◌∷◌, Some, None, codes};
ghost use Rattle.qbs_base.specs.declared.span.Span.{Span};
ghost use Rattle.java_ast.specs.Tree.{Long, String, Table, ListOf, SetOf, Statement};
ghost use Rattle.java_mean.specs.Worked.{class_A, class_B, class_C, class_E, class_H, name_set};
ghost use Rattle.kernel_lang.specs.Worked as kernel;
ghost use Rattle.loop_text.specs.Statements.Loops.{loops_of};
ghost use Rattle.loop_text.specs.Statements.Fragment.{StandsIn, IsKept, needed_at, needed_of};
ghost use Rattle.java_loops.specs.Lowering.Spelling.{spelled_at};
ghost use Rattle.java_loops.specs.Kernel.Worked.{program_of, moved, moved_run, w, z};
ghost use Rattle.java_loops.specs.Kernel.WorkedKernel.{lowered, outside, walking, returning, users, over_sizes, active, always, flagged, forever, counts, prints, leaves, lowers_flag, raises_flag, u, v};

/// The loops of a selection and of a join, and what they add to.
pub fn loops_are_found_in_text_order()
    ensures selection { loops_of (program_of class_A) ≡ (0 ∷ 1 ∷ []) ∷ [] }
    ensures join { loops_of (program_of class_B) ≡ (0 ∷ 3 ∷ []) ∷ (0 ∷ 3 ∷ 0 ∷ 0 ∷ []) ∷ [] }
    ensures selected { needed_at (0 ∷ 1 ∷ []) (program_of class_A) ≡ codes "out" ∷ [] }
    ensures joined { needed_at (0 ∷ 3 ∷ []) (program_of class_B) ≡ codes "out" ∷ [] }
    ensures no_loop { needed_at (0 ∷ 0 ∷ []) (program_of class_B) ≡ [] }
    ensures own_flag { (at : Span) → needed_of (moved at) ≡ [] }
{}

/// The types with which programs declare the variables of their loops: a list of rows, a number, a set; and the row of a loop that
/// stands round another, where the other one begins and behind both.
pub fn variables_are_spelled_where_they_are_declared()
    ensures list { spelled_at (codes "out") (0 ∷ 1 ∷ []) (program_of class_A) ≡ Some (ListOf (Table (codes "User"))) }
    ensures number { spelled_at (codes "best") (0 ∷ 1 ∷ []) (program_of class_C) ≡ Some Long }
    ensures set { spelled_at (codes "names") (0 ∷ 1 ∷ []) (program_of name_set) ≡ Some (SetOf String) }
    ensures row { spelled_at (codes "u") (0 ∷ 3 ∷ 0 ∷ 0 ∷ []) (program_of class_B) ≡ Some (Table (codes "User")) }
    ensures behind { spelled_at (codes "u") (0 ∷ 4 ∷ []) (program_of class_B) ≡ None }
{}

/// In the run `long u = w; long v = u; u = z;` all statements are kept where v is live: v needs u, and so
/// what sets u behind it is kept too.
#[tactic(auto, using(crate::proofs::Kept::Moved::all_kept))]
pub fn runs_keep_what_sets_a_wanted_variable()
    ensures { (at : Span) (s : Statement) → StandsIn s (moved_run at) → IsKept (moved at) [] s }
{}

/// The loops of worked programs are of the kernel form, and are lowered to the worked fragments.
pub fn worked_loops_are_lowered()
    ensures selection { lowered (0 ∷ 1 ∷ []) class_A ≡ Some kernel.class_A }
    ensures join { lowered (0 ∷ 3 ∷ []) class_B ≡ Some kernel.class_B }
    ensures greatest { lowered (0 ∷ 1 ∷ []) class_C ≡ Some kernel.class_C }
    ensures flag { lowered (0 ∷ 2 ∷ []) class_E ≡ Some kernel.class_E }
    ensures sorted { lowered (0 ∷ 4 ∷ []) (class_H 3 true) ≡ Some (kernel.class_H 3 true) }
    ensures set { lowered (0 ∷ 1 ∷ []) name_set ≡ Some kernel.name_set }
{}

/// Each rule is broken at its place: the first one that fails, and there the first place.
pub fn rules_are_broken_at_their_places()
    ensures inside { outside (0 ∷ 1 ∷ []) (walking (active 3 u (counts 4 1 ∷ []) ∷ [])) ≡ None }
    ensures endless { outside (0 ∷ 1 ∷ []) (returning 0 (forever 2 (counts 3 1 ∷ []))) ≡ Some (1, 2) }
    ensures inner_while { outside (0 ∷ 1 ∷ []) (walking (forever 3 (counts 4 1 ∷ []) ∷ [])) ≡ Some (1, 2) }
    ensures list { outside (0 ∷ 1 ∷ []) (returning 0 (over_sizes 2 (counts 3 1 ∷ []))) ≡ Some (2, 2) }
    ensures depth { outside (0 ∷ 1 ∷ []) (walking (users 3 v (users 4 w (users 5 z (counts 6 1 ∷ []) ∷ []) ∷ []) ∷ [])) ≡ Some (3, 5) }
    ensures printing { outside (0 ∷ 1 ∷ []) (walking (counts 3 1 ∷ counts 4 1 ∷ prints 5 ∷ [])) ≡ Some (4, 5) }
    ensures leaving { outside (0 ∷ 1 ∷ []) (walking (active 3 u (counts 4 1 ∷ leaves 5 ∷ []) ∷ [])) ≡ Some (4, 5) }
    ensures twice { outside (0 ∷ 1 ∷ []) (walking (counts 3 1 ∷ active 4 u (counts 5 1 ∷ []) ∷ [])) ≡ Some (5, 5) }
    ensures idle_flag { outside (0 ∷ 1 ∷ []) (walking (lowers_flag 3 ∷ counts 4 1 ∷ counts 5 1 ∷ [])) ≡ Some (5, 2) }
    ensures beside_break { outside (0 ∷ 1 ∷ []) (walking (lowers_flag 3 ∷ users 4 v (active 5 v (raises_flag 6 ∷ leaves 7 ∷ []) ∷ counts 8 1 ∷ []) ∷ [])) ≡ Some (5, 8) }
    ensures by_two { outside (0 ∷ 1 ∷ []) (walking (counts 3 2 ∷ [])) ≡ Some (6, 3) }
    ensures two_loops { outside (0 ∷ 1 ∷ []) (walking (users 3 v (counts 4 1 ∷ []) ∷ [])) ≡ Some (6, 4) }
    ensures own_block { outside (0 ∷ 1 ∷ []) (walking (lowers_flag 3 ∷ raises_flag 4 ∷ counts 5 1 ∷ [])) ≡ Some (6, 4) }
    ensures literal { outside (0 ∷ 1 ∷ []) (walking (always 3 (counts 4 1 ∷ []) ∷ [])) ≡ Some (7, 3) }
    ensures read_early { outside (0 ∷ 1 ∷ []) (walking (lowers_flag 3 ∷ flagged 4 (counts 5 1 ∷ []) ∷ users 6 v (raises_flag 7 ∷ []) ∷ [])) ≡ Some (7, 4) }
    ensures read_late { outside (0 ∷ 1 ∷ []) (walking (lowers_flag 3 ∷ users 4 v (raises_flag 5 ∷ []) ∷ flagged 6 (counts 7 1 ∷ []) ∷ [])) ≡ None }
    ensures start { outside (0 ∷ 1 ∷ []) (returning 1 (users 2 u (counts 3 1 ∷ []))) ≡ Some (9, 1) }
{}
