//! Laws of runs and loops that give way. They do nothing.
ghost use Rattle.std.specs.Prelude.{◌≡◌, ℕ, true, ◌||◌, List, ◌∷◌, ◌++◌, Ok};
ghost use Rattle.std.specs.declared.option.Option.{Option};
ghost use Rattle.std.specs.declared.option.Option.TheVariants.{Some};
ghost use Rattle.qbs_base.specs.Values.{Schema};
ghost use Rattle.java_ast.specs.Tree.{Statement, Statements, PlainMethod, PlainProgram};
ghost use Rattle.java_ast.specs.Path.{with_body, with_methods};
ghost use Rattle.java_mean.specs.declared.types.JavaType.{JavaType};
ghost use Rattle.java_mean.specs.Asks.{frame_of};
ghost use Rattle.java_mean.specs.Keeps.{Keeps};
ghost use Rattle.java_mean.specs.Numbers.{NumbersFit};
ghost use Rattle.java_mean.specs.Queries.{Reader};
ghost use Rattle.java_mean.specs.Refines.{Hole, fill, Replaces};
ghost use Rattle.java_mean.specs.Statement.{State, GoesOn, meaning, meanings};
ghost use Rattle.java_mean.specs.Types.{Types, types_past, IsTyped};
ghost use Rattle.java_mean.specs.World.{World};
ghost use Rattle.java_mean.specs.Typing.{Frame, IsWorld, TypedStatements};
ghost use Rattle.java_mean.specs.WellTyped.{IsWellTyped};
ghost use Rattle.java_loops.specs.Walks.Reads.{Set};
ghost use Rattle.java_loops.specs.Walks.Replacing.{Ask, is_asked, replacement, run_and_loop, MayGiveWay, seen_at, HaveSameTypes};

/// A run and its loop give way to the kept statements of the run and a statement for each variable that is
/// asked for. Where what is visible before the run is kept or asked for, all that is visible after is so.
pub fn runs_and_loops_give_way()
    ensures replaces { (c : Frame) (l : Option Types) (g m : Types) (run : Statements) (loop_statement : Statement) (r : Set) (ks : List Ask)
        → MayGiveWay c g m run loop_statement r ks
        → Replaces c l g m (run_and_loop run loop_statement) (replacement r run ks) }
    ensures known { (schema : Schema) (g : Types) (run : Statements) (r : Set) (ks : List Ask)
        → ((x : List ℕ) (k : JavaType) → g x ≡ Some k → (r x || is_asked ks x) ≡ true)
        → (x : List ℕ) (k : JavaType)
        → types_past schema g (replacement r run ks) x ≡ Some k
        → (r x || is_asked ks x) ≡ true }
{}

/// Where a typed run passes from a typed state the loop's first state is typed, and its last one where it goes on.
pub fn runs_and_loops_leave_typed_states()
    ensures run { (c : Frame) (l : Option Types) (g z : Types) (run : Statements) (loop_statement : Statement)
        → TypedStatements c l g (run_and_loop run loop_statement) z
        → (w : World)
        → IsWorld c w
        → (s t : State)
        → IsTyped c.schema g s.store
        → meanings run w s ≡ Ok (GoesOn t)
        → IsTyped c.schema (types_past c.schema g run) t.store }
    ensures whole { (c : Frame) (l : Option Types) (g z : Types) (run : Statements) (loop_statement : Statement)
        → TypedStatements c l g (run_and_loop run loop_statement) z
        → (w : World)
        → IsWorld c w
        → (t u : State)
        → IsTyped c.schema (types_past c.schema g run) t.store
        → meaning loop_statement w t ≡ Ok (GoesOn u)
        → IsTyped c.schema z u.store }
{}

/// In a well-typed program a run and its loop give way, at any depth, where the program stays well typed and
/// each ask declares its variable with the type with which the run did: the program keeps what it does.
pub fn programs_keep_where_loops_give_way()
    ensures { (schema : Schema) (reader : Reader schema) (p : PlainProgram) (before after : List PlainMethod) (m : PlainMethod) (hole : Hole)
        (run : Statements) (loop_statement : Statement) (r : Set) (ks : List Ask)
        → IsWellTyped schema reader.read (with_methods p (before ++ with_body m (fill hole (run_and_loop run loop_statement)) ∷ after))
        → NumbersFit (with_methods p (before ++ with_body m (fill hole (run_and_loop run loop_statement)) ∷ after))
        → IsWellTyped schema reader.read (with_methods p (before ++ with_body m (fill hole (replacement r run ks)) ∷ after))
        → NumbersFit (with_methods p (before ++ with_body m (fill hole (replacement r run ks)) ∷ after))
        → HaveSameTypes schema (types_past schema (seen_at schema m hole) run) ks
        → MayGiveWay (frame_of schema reader.read m) (seen_at schema m hole) (types_past schema (seen_at schema m hole) (replacement r run ks)) run loop_statement r ks
        → Keeps
        (with_methods p (before ++ with_body m (fill hole (run_and_loop run loop_statement)) ∷ after))
        (with_methods p (before ++ with_body m (fill hole (replacement r run ks)) ∷ after))
        schema }
{}
