//! Laws of the check, for the crates above. They do nothing.
ghost use Rattle.std.specs.Prelude.{◌≡◌, ◌≢◌, ◌↔◌, ℕ, List, Option, Some, None, slice_get};
ghost use Rattle.qbs_base.specs.declared.scalar.Scalar.{Scalar};
ghost use Rattle.qbs_base.specs.declared.scalar.Value.{Value};
ghost use Rattle.qbs_base.specs.Values.{Schema, Database, IsDatabaseOf};
ghost use Rattle.sql_ast.specs.Tree.{PlainQuery};
ghost use Rattle.java_ast.specs.Reading.{program};
ghost use Rattle.java_ast.specs.Tree.{PlainMethod, PlainProgram, Statements};
ghost use Rattle.java_mean.specs.Asks.{frame_of, result_type};
ghost use Rattle.java_mean.specs.Numbers.{NumbersFit};
ghost use Rattle.java_mean.specs.Outcome.{Done, Stuck, outcome, start, world_with};
ghost use Rattle.java_mean.specs.Queries.{HasQuery};
ghost use Rattle.java_mean.specs.Reaches.{Reaches};
ghost use Rattle.java_mean.specs.Refines.{Hole, fill, types_at, IsResult, IsTypedPlace};
ghost use Rattle.java_mean.specs.Statement.{State};
ghost use Rattle.java_mean.specs.Types.{types_of_params, IsTyped, AreArguments};
ghost use Rattle.java_mean.specs.WellTyped.{IsWellTyped};
ghost use Rattle.java_types.specs.Texts.{read_by};
ghost use Rattle.java_types.specs.declared.checking.Typed.{Typed};

/// The query texts of a program are read as the query language reads them: a query is found exactly
/// where the text has it.
pub fn query_texts_are_read_exactly()
    ensures { (schema : Schema) (text : List ℕ) (q : PlainQuery) → (read_by schema text ≡ Some q) ↔ HasQuery schema text q }
{}

/// A method of a program that was checked is never stuck, on a database of the schema and on arguments
/// of its types, and what it returns is of its result's type.
pub fn checked_programs_are_never_stuck()
    ensures never { (schema : Schema) (p : PlainProgram) (n : ℕ) (m : PlainMethod) (db : Database) (args : List Scalar) (turns : ℕ)
        → IsWellTyped schema (read_by schema) p
        → NumbersFit p
        → slice_get p.methods n ≡ Some m
        → IsDatabaseOf schema db
        → AreArguments schema m.params args
        → outcome (world_with schema (read_by schema) db) m args turns ≢ Stuck }
    ensures checked { (schema : Schema) (typed : Typed) (n : ℕ) (m : PlainMethod) (db : Database) (args : List Scalar) (turns : ℕ)
        → IsWellTyped schema (read_by schema) (program typed.program)
        → slice_get (program typed.program).methods n ≡ Some m
        → IsDatabaseOf schema db
        → AreArguments schema m.params args
        → outcome (world_with schema (read_by schema) db) m args turns ≢ Stuck }
    ensures result { (schema : Schema) (typed : Typed) (n : ℕ) (m : PlainMethod) (db : Database) (args : List Scalar) (turns : ℕ)
        → IsWellTyped schema (read_by schema) (program typed.program)
        → slice_get (program typed.program).methods n ≡ Some m
        → IsDatabaseOf schema db
        → AreArguments schema m.params args
        → (lines : List (List ℕ)) (v : Value)
        → outcome (world_with schema (read_by schema) db) m args turns ≡ Done lines (Some v)
        → IsResult schema (result_type schema m.result) (Some v) }
{}

/// Each place in a method of a program that was checked is well typed, and a run of the method, on a
/// database of the schema and on arguments of its types, comes there only in states that are typed there.
pub fn checked_programs_reach_typed_stores()
    ensures places { (schema : Schema) (typed : Typed) (n : ℕ) (m : PlainMethod) (hole : Hole) (part : Statements)
        → IsWellTyped schema (read_by schema) (program typed.program)
        → slice_get (program typed.program).methods n ≡ Some m
        → m.body ≡ fill hole part
        → IsTypedPlace (frame_of schema (read_by schema) m) None (types_of_params schema m.params) hole part }
    ensures stores { (schema : Schema) (typed : Typed) (n : ℕ) (m : PlainMethod) (hole : Hole) (part : Statements)
        → IsWellTyped schema (read_by schema) (program typed.program)
        → slice_get (program typed.program).methods n ≡ Some m
        → m.body ≡ fill hole part
        → (db : Database) (args : List Scalar)
        → IsDatabaseOf schema db
        → AreArguments schema m.params args
        → (turns : ℕ) (s : State)
        → Reaches (world_with schema (read_by schema) db) part hole (start m args turns) s
        → IsTyped schema (types_at schema (types_of_params schema m.params) hole) s.store }
{}
