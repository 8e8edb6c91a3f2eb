//! Laws of the places of runs and loops in programs. They do nothing.
ghost use Rattle.std.specs.Prelude.{◌≡◌, ℕ, ◌≤◌, List, ◌∷◌, slice_get};
ghost use Rattle.std.specs.declared.option.Option.TheVariants.{Some};
ghost use Rattle.qbs_base.specs.Values.{Schema};
ghost use Rattle.java_ast.specs.Path.{statement_in, replaced_in, replaced_at, last_of};
ghost use Rattle.java_ast.specs.Tree.{Statement, Statements, PlainMethod, PlainProgram};
ghost use Rattle.java_mean.specs.Asks.{frame_of};
ghost use Rattle.java_mean.specs.Keeps.{Keeps};
ghost use Rattle.java_mean.specs.Numbers.{NumbersFit};
ghost use Rattle.java_mean.specs.Queries.{Reader};
ghost use Rattle.java_mean.specs.Refines.{Hole, fill, types_at};
ghost use Rattle.java_mean.specs.Types.{Types, types_past};
ghost use Rattle.java_mean.specs.WellTyped.{IsWellTyped};
ghost use Rattle.java_loops.specs.Walks.Places.{past, place_in, run_in};
ghost use Rattle.java_loops.specs.Walks.Reads.{Set};
ghost use Rattle.java_loops.specs.Walks.Replacing.{Ask, replacement, run_and_loop, MayGiveWay, seen_at, HaveSameTypes};

/// A block is the place of a loop and of the statements before it from a number on, filled with these, and where
/// others replace them it is the place filled with the others. What is visible at a place behind statements is what
/// these leave visible.
pub fn paths_lead_to_places()
    ensures whole { (path : List ℕ) (n first : ℕ) (block : Statements) (loop_statement : Statement)
        → first ≤ last_of (n ∷ path)
        → statement_in path n block ≡ Some loop_statement
        → block ≡ fill (place_in path n first block) (run_and_loop (run_in path n first block) loop_statement) }
    ensures replaced { (path : List ℕ) (n first : ℕ) (others block : Statements) (loop_statement : Statement)
        → statement_in path n block ≡ Some loop_statement
        → replaced_in path n first others block ≡ fill (place_in path n first block) others }
    ensures visible { (schema : Schema) (g : Types) (p : Statements) (h : Hole) → types_at schema g (past p h) ≡ types_at schema (types_past schema g p) h }
{}

/// A well-typed program keeps what it does where the loop to which a path leads, and the statements before it
/// from a number on, give way, and the program stays well typed.
pub fn programs_keep_where_paths_lead()
    ensures { (schema : Schema) (reader : Reader schema) (p : PlainProgram) (i n first : ℕ) (path : List ℕ) (m : PlainMethod) (loop_statement : Statement)
        (r : Set) (ks : List Ask)
        → slice_get p.methods i ≡ Some m
        → statement_in path n m.body ≡ Some loop_statement
        → first ≤ last_of (n ∷ path)
        → IsWellTyped schema reader.read p
        → NumbersFit p
        → IsWellTyped schema reader.read (replaced_at (i ∷ n ∷ path) first (replacement r (run_in path n first m.body) ks) p)
        → NumbersFit (replaced_at (i ∷ n ∷ path) first (replacement r (run_in path n first m.body) ks) p)
        → HaveSameTypes schema (types_past schema (seen_at schema m (place_in path n first m.body)) (run_in path n first m.body)) ks
        → MayGiveWay (frame_of schema reader.read m) (seen_at schema m (place_in path n first m.body))
        (types_past schema (seen_at schema m (place_in path n first m.body)) (replacement r (run_in path n first m.body) ks))
        (run_in path n first m.body) loop_statement r ks
        → Keeps p (replaced_at (i ∷ n ∷ path) first (replacement r (run_in path n first m.body) ks) p) schema }
{}
