//! Laws of the tries of a program's loops, for the crates above. They do nothing.
ghost use Rattle.std.specs.Prelude.{◌≡◌, ℕ, ◌<◌, List, [], length, take, slice_get};
ghost use Rattle.std.specs.declared.option.Option.TheVariants.{Some};
ghost use Rattle.std.specs.List.{AllByRecursion};
ghost use Rattle.qbs_base.specs.Values.{Schema};
ghost use Rattle.java_ast.specs.Tree.{PlainProgram};
ghost use Rattle.java_mean.specs.Keeps.{Keeps};
ghost use Rattle.java_mean.specs.Numbers.{NumbersFit};
ghost use Rattle.java_mean.specs.Queries.{Reader};
ghost use Rattle.java_mean.specs.WellTyped.{IsWellTyped};
ghost use Rattle.java_types.specs.Texts.{read_by};
ghost use Rattle.loop_text.specs.Statements.Loops.{loops_of};
ghost use Rattle.lowering.specs.Asked.{IsKernelLoop};
ghost use Rattle.rewrite_core.specs.Asked.{Place, replaced};
ghost use Rattle.rewrite_core.specs.Patches.{patches_left, puts_of, with_puts, patches_for};
ghost use Rattle.rewrite_core.specs.Rewriting.{standing_tries, StandsIn};
ghost use Rattle.rewrite_core.specs.Trying.{all_tried, rewritten};
ghost use Rattle.rewrite_core.specs.TriedAsking.{AllMayBeAsked, standing_paths, standing_left};

/// The program after all tries keeps what the program does, stays well typed, and has literals of 64 bits where the program has,
/// if each loop that gave way may be asked for as the program stood when it was tried.
pub fn rewriting_keeps()
    ensures keeps { (schema : Schema) (size budget : ℕ) (p : PlainProgram)
        → AllMayBeAsked schema (all_tried schema size budget p)
        → Keeps p (rewritten schema size budget p) schema }
    ensures typed { (schema : Schema) (size budget : ℕ) (p : PlainProgram)
        → AllMayBeAsked schema (all_tried schema size budget p)
        → IsWellTyped schema (read_by schema) p
        → IsWellTyped schema (read_by schema) (rewritten schema size budget p) }
    ensures numbers { (schema : Schema) (size budget : ℕ) (p : PlainProgram)
        → AllMayBeAsked schema (all_tried schema size budget p)
        → NumbersFit p
        → NumbersFit (rewritten schema size budget p) }
{}

/// Where a loop of the kernel form gives way, the loops before it in text order are those that were there, by their paths
/// (`earlier`), and the program has fewer loops (`fewer`): kept statements and asks are none, and what is inside the loop vanishes.
pub fn replacing_leaves_earlier_loops()
    ensures earlier { (schema : Schema) (reader : Reader schema) (l : Place) (n : ℕ)
        → IsKernelLoop schema reader.read l.program l.path l.setting
        → slice_get (loops_of l.program) n ≡ Some l.path
        → take n (loops_of (replaced l)) ≡ take n (loops_of l.program) }
    ensures fewer { (schema : Schema) (reader : Reader schema) (l : Place)
        → IsKernelLoop schema reader.read l.program l.path l.setting
        → length (loops_of (replaced l)) < length (loops_of l.program) }
{}

/// After all tries no loop is left to try: as many have been tried and stand as the program has then. Each loop that gave way may be
/// asked for as the program stood when it was tried.
pub fn nothing_is_left_to_try()
    ensures { (schema : Schema) (size budget : ℕ) (p : PlainProgram)
        → AllMayBeAsked schema (all_tried schema size budget p)
        → standing_left 0 (all_tried schema size budget p) ≡ length (loops_of (rewritten schema size budget p)) }
{}

/// The loops that the program has after all tries are, in text order, those that were tried and found no candidate, by their paths.
pub fn standing_loops_were_tried()
    ensures { (schema : Schema) (size budget : ℕ) (p : PlainProgram)
        → AllMayBeAsked schema (all_tried schema size budget p)
        → loops_of (rewritten schema size budget p) ≡ standing_paths (all_tried schema size budget p) }
{}

/// They stand at the places where they stood when they were tried.
pub fn standing_loops_stay_in_place()
    ensures { (schema : Schema) (size budget : ℕ) (p : PlainProgram)
        → AllMayBeAsked schema (all_tried schema size budget p)
        → AllByRecursion (StandsIn (rewritten schema size budget p)) (standing_tries (all_tried schema size budget p)) }
{}

/// The program after all tries is the first one with what is put for the loops that gave way, each at its path in the program as it stands
/// then (`program`). The patches of the source are those for the same, in this order (`patches`).
pub fn loops_give_way_in_order()
    ensures program { (schema : Schema) (size budget : ℕ) (p : PlainProgram)
        → rewritten schema size budget p ≡ with_puts p (puts_of (all_tried schema size budget p)) }
    ensures patches { (schema : Schema) (size budget : ℕ) (source : List ℕ) (p : PlainProgram)
        → patches_left source [] (all_tried schema size budget p) ≡ patches_for source p (puts_of (all_tried schema size budget p)) [] }
{}
