//! Laws of selects and of spreads, for the crates above. They do nothing.
ghost use Rattle.std.specs.Prelude.{◌≡◌, ℕ, List, [], ◌∷◌, Ok, true};
ghost use Rattle.std.specs.List.{AllByRecursion};
ghost use Rattle.std.specs.declared.option.Option.{Option};
ghost use Rattle.std.specs.declared.option.Option.TheVariants.{Some};
ghost use Rattle.qbs_base.specs.declared.scalar.Row.{Row};
ghost use Rattle.qbs_base.specs.declared.scalar.Scalar.{Scalar};
ghost use Rattle.qbs_base.specs.declared.scalar.Ty.{Ty};
ghost use Rattle.qbs_base.specs.declared.scalar.Value.TheVariants.{Many};
ghost use Rattle.qbs_base.specs.declared.span.Span.{Span};
ghost use Rattle.qbs_base.specs.Columns.{columns_at};
ghost use Rattle.qbs_base.specs.Named.{at_name};
ghost use Rattle.qbs_base.specs.Tables.{rows_of};
ghost use Rattle.qbs_base.specs.Values.{Schema, Database, IsRowOf};
ghost use Rattle.sql_ast.specs.declared.tree.FromItem.{FromItem};
ghost use Rattle.sql_ast.specs.Meaning.{Rows, query_answer};
ghost use Rattle.sql_ast.specs.Tree.{Condition, Where, PlainListing, Listing};
ghost use Rattle.java_ast.specs.Names.{Names, is_among};
ghost use Rattle.java_ast.specs.Path.{statement_at, last_of, replaced_at};
ghost use Rattle.java_ast.specs.Tree.{PlainMethod, PlainProgram, Expression, Expressions, Fetch, Statement, Statements, Nothing, Then};
ghost use Rattle.java_mean.specs.declared.types.JavaType.{JavaType};
ghost use Rattle.java_mean.specs.Asks.{frame_of};
ghost use Rattle.java_mean.specs.Expression.{value_of, scalars_of, element};
ghost use Rattle.java_mean.specs.Numbers.{NumbersFit};
ghost use Rattle.java_mean.specs.Queries.{Reader};
ghost use Rattle.java_mean.specs.Statement.{State, GoesOn, test_of, meanings};
ghost use Rattle.java_mean.specs.Store.{Store, plainly};
ghost use Rattle.java_mean.specs.Types.{Types, IsTyped};
ghost use Rattle.java_mean.specs.Typing.{Frame, IsWorld, HasType, HaveTypes, Extends, TypedStatement, TypedStatements};
ghost use Rattle.java_mean.specs.WellTyped.{IsWellTyped};
ghost use Rattle.java_mean.specs.World.{World};
ghost use Rattle.java_loops.specs.Walks.Reads.{Set};
ghost use Rattle.java_loops.specs.Walks.Replacing.{Ask, MayGiveWay};
ghost use Rattle.select_parts.specs.Selects.{is_select};
ghost use Rattle.spreads.specs.Conditions.{condition_in};
ghost use Rattle.spreads.specs.Covers.{Covers};
ghost use Rattle.spreads.specs.Passing.{row_passes, passing};
ghost use Rattle.spreads.specs.Spread.{Select, select_of, table_of, spread_of};
ghost use Rattle.spreads.specs.Staying.{assigned_among, all_stay};

/// A select answers the rows of its table that pass its condition, in their order.
pub fn selects_answer_what_passes()
    ensures { (schema : Schema) (q : PlainListing) (from : FromItem) (db : Database) (xs : List Scalar)
        → is_select schema q ≡ true
        → q.from ≡ from ∷ []
        → query_answer db xs (Listing q) ≡ Rows (passing db xs q from) }
{}

/// The list of a typed select is those rows, and that of its table all rows, in any world that a method is typed under.
pub fn lists_of_selects()
    ensures select { (schema : Schema) (reader : Reader schema) (m : PlainMethod) (assigned : Names) (g : Types)
        (e : Expression) (k : JavaType) (s : Select) (from : FromItem)
        → HasType (frame_of schema reader.read m) g e k
        → select_of schema reader.read assigned e ≡ Some s
        → s.query.from ≡ from ∷ []
        → (w : World) → IsWorld (frame_of schema reader.read m) w
        → (store : Store) (xs : List Scalar) → scalars_of s.arguments w store ≡ Ok xs
        → value_of e w store ≡ Ok (Many (passing w.db xs s.query from)) }
    ensures table { (schema : Schema) (reader : Reader schema) (m : PlainMethod) (assigned : Names) (g : Types)
        (e : Expression) (k : JavaType) (s : Select) (from : FromItem)
        → HasType (frame_of schema reader.read m) g e k
        → select_of schema reader.read assigned e ≡ Some s
        → s.query.from ≡ from ∷ []
        → (w : World) → IsWorld (frame_of schema reader.read m) w
        → (store : Store) (at : Span) → value_of (Fetch at (table_of s.query.from)) w store ≡ Ok (Many (rows_of w.db from.table)) }
{}

/// The condition of a typed select has, in the source language, the truth at a row that it has in the query.
pub fn conditions_have_their_truth()
    ensures { (schema : Schema) (reader : Reader schema) (m : PlainMethod) (assigned : Names) (g : Types)
        (e : Expression) (k : JavaType) (s : Select) (from : FromItem) (c : Condition)
        → HasType (frame_of schema reader.read m) g e k
        → select_of schema reader.read assigned e ≡ Some s
        → s.query.from ≡ from ∷ []
        → s.query.filter ≡ Where c
        → (w : World) → IsWorld (frame_of schema reader.read m) w
        → (store : Store) → IsTyped schema g store
        → (xs : List Scalar) → scalars_of s.arguments w store ≡ Ok xs
        → (at : Span) (x : List ℕ) (row : Row)
        → IsRowOf from.table (columns_at schema from.table) row
        → at_name store x ≡ Some (plainly (element row))
        → test_of (condition_in schema s.query at x s.arguments c) w store ≡ Ok (row_passes w.db xs s.query row) }
{}

/// Arguments in which no variable is assigned in a body have the values behind it that they had before.
pub fn arguments_stay()
    ensures { (c : Frame) (l : Option Types) (g h end : Types) (assigned : Names) (es : Expressions) (types : List Ty) (body : Statements)
        → HaveTypes c g es types
        → all_stay assigned es ≡ true
        → Extends h g
        → TypedStatements c l h body end
        → AllByRecursion (λ x. is_among assigned x ≡ true) (assigned_among body)
        → (w : World) (s u : State) → meanings body w s ≡ Ok (GoesOn u)
        → scalars_of es w u.store ≡ scalars_of es w s.store }
{}

/// A typed loop and its spread mean the same, the spread in more turns.
pub fn spreads_mean_their_loops()
    ensures { (schema : Schema) (reader : Reader schema) (m : PlainMethod) (l : Option Types) (g h : Types) (s z : Statement)
        → TypedStatement (frame_of schema reader.read m) l g s h
        → spread_of schema reader.read s ≡ Some z
        → Covers (frame_of schema reader.read m) l g h (Then s Nothing) (Then z Nothing) }
{}

/// Where the spread of a loop may give way behind a run, so may the loop.
pub fn loops_give_way_as_their_spreads()
    ensures { (c : Frame) (l : Option Types) (g h z m : Types) (run : Statements) (one spread : Statement) (r : Set) (ks : List Ask)
        → ((w : World) → IsWorld c w → (s t : State) → IsTyped c.schema g s.store → meanings run w s ≡ Ok (GoesOn t)
        → IsTyped c.schema h t.store)
        → Covers c l h z (Then one Nothing) (Then spread Nothing)
        → Extends z m
        → AllByRecursion (λ (k : Ask). (ty : JavaType) × (z k.name ≡ Some ty)) ks
        → MayGiveWay c g m run spread r ks
        → MayGiveWay c g m run one r ks }
{}

/// A well-typed program stays well typed where the spread of a for-each stands in its place, and its literals have 64 bits if those of the
/// program have.
pub fn spread_programs_are_well_typed()
    ensures typed { (schema : Schema) (reader : Reader schema) (p : PlainProgram) (path : List ℕ) (s z : Statement)
        → IsWellTyped schema reader.read p
        → statement_at path p ≡ Some s
        → spread_of schema reader.read s ≡ Some z
        → IsWellTyped schema reader.read (replaced_at path (last_of path) (Then z Nothing) p) }
    ensures numbers { (schema : Schema) (reader : Reader schema) (p : PlainProgram) (path : List ℕ) (s z : Statement)
        → IsWellTyped schema reader.read p
        → NumbersFit p
        → statement_at path p ≡ Some s
        → spread_of schema reader.read s ≡ Some z
        → NumbersFit (replaced_at path (last_of path) (Then z Nothing) p) }
{}
