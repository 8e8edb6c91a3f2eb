//! Laws of what programs do, for the crates above. They do nothing.
ghost use Rattle.std.specs.Prelude.{◌≡◌, ◌≢◌, ℕ, ℤ, ◌+◌, Bool, true, false, not, ◌&&◌, List, [], ◌∷◌, ◌++◌, Option, Ok, slice_get};
ghost use Rattle.qbs_base.specs.declared.span.Span.{Span};
ghost use Rattle.qbs_base.specs.declared.scalar.Scalar.{Scalar};
ghost use Rattle.qbs_base.specs.declared.scalar.Value.{Value};
ghost use Rattle.qbs_base.specs.Values.{Schema, Database, IsDatabaseOf};
ghost use Rattle.java_ast.specs.Placed.{placed, placed_all};
ghost use Rattle.java_ast.specs.Tree.{Spelled, Expression, Expressions, PlainMethod, PlainProgram, Statements};
ghost use Rattle.java_ast.specs.Path.{with_body, with_methods};
ghost use Rattle.sql_ast.specs.Tree.{PlainQuery};
ghost use Rattle.java_mean.specs.Asks.{frame_of, result_type};
ghost use Rattle.java_mean.specs.declared.ending.RunFault.{RunFault};
ghost use Rattle.java_mean.specs.Expression.{value_of, scalars_of};
ghost use Rattle.java_mean.specs.PlacedValues.{result_at};
ghost use Rattle.java_mean.specs.Store.{Store};
ghost use Rattle.java_mean.specs.World.{World};
ghost use Rattle.java_mean.specs.Outcome.{Outcome, Done, Faulted, Stuck, outcome, start, world_with};
ghost use Rattle.java_mean.specs.Types.{Types, types_of_params, types_past, IsTyped, IsTypedAt, AreArguments};
ghost use Rattle.java_mean.specs.Typing.{Frame, IsWorld, Extends, TypedStatements};
ghost use Rattle.java_mean.specs.Numbers.{NumbersFit};
ghost use Rattle.java_mean.specs.WellTyped.{IsWellTyped, faults_in};
ghost use Rattle.java_mean.specs.Fits.{IsSeenAlike, visible_past, visible_before, in_first, IsFineAt, IsFineBehind, FitsIn};
ghost use Rattle.java_mean.specs.Mentions.{EachMentioned, EachDeclared};
ghost use Rattle.java_mean.specs.Places.{Around, is_nothing, in_statements};
ghost use Rattle.java_mean.specs.Rules.{is_none, returns};
ghost use Rattle.java_mean.specs.Visible.{Visible, is_visible, type_at, with_params};
ghost use Rattle.java_mean.specs.Refines.{Hole, fill, followed_by, first_of, path_of, types_at, loop_at, IsTypedPlace, Replaces, MayReplace, GivesWay, with_part, IsResult, Alike, Simulates, exits};
ghost use Rattle.java_mean.specs.Reaches.{Reaches};
ghost use Rattle.java_mean.specs.Statement.{State, meanings};
ghost use Rattle.java_mean.specs.Queries.{HasQuery, Reader};
ghost use Rattle.java_mean.specs.Keeps.{Keeps, IsDoneAlike};
ghost use Rattle.java_mean.specs.FirstForm.{FormPlaces, QueryPlaces, HasLongColumn, collecting, selecting, selection};

/// More turns change nothing of a method that is done or faulted.
#[tactic(auto, using(crate::proofs::Further::done_with_more, crate::proofs::Further::faulted_with_more))]
pub fn more_turns_change_nothing()
    ensures done { (w : World) (m : PlainMethod) (args : List Scalar) (n k : ℕ) (lines : List (List ℕ)) (value : Option Value)
        → outcome w m args n ≡ Done lines value
        → outcome w m args (n + k) ≡ Done lines value }
    ensures faulted { (w : World) (m : PlainMethod) (args : List Scalar) (n k : ℕ) (fault : RunFault) (at : Span)
        → outcome w m args n ≡ Faulted fault at
        → outcome w m args (n + k) ≡ Faulted fault at }
{}

/// A method has one outcome with a number of turns, and where it is done it is done with the same
/// whatever the turns.
#[tactic(auto, using(crate::proofs::Further::done_with_same))]
pub fn outcome_is_one()
    ensures same_turns { (w : World) (m : PlainMethod) (args : List Scalar) (n : ℕ) (one other : Outcome)
        → outcome w m args n ≡ one
        → outcome w m args n ≡ other
        → one ≡ other }
    ensures any_turns { (w : World) (m : PlainMethod) (args : List Scalar) (n k : ℕ) (lines other_lines : List (List ℕ)) (value other_value : Option Value)
        → outcome w m args n ≡ Done lines value
        → outcome w m args k ≡ Done other_lines other_value
        → Done lines value ≡ Done other_lines other_value }
{}

/// Under every schema there is a way to find the query that a text has, so that what is said for
/// every such way is said of one.
pub fn texts_have_a_reader()
    ensures { (schema : Schema) → Reader schema }
{}

/// A program keeps itself, and what keeps a program that keeps a third one keeps the third.
#[tactic(auto, using(crate::proofs::Kept::keeps_itself, crate::proofs::Kept::keeps_through))]
pub fn keeping_is_a_preorder()
    ensures itself { (schema : Schema) (p : PlainProgram) → Keeps p p schema }
    ensures through { (schema : Schema) (p q r : PlainProgram) → Keeps p q schema → Keeps q r schema → Keeps p r schema }
{}

/// A method's body gives way to one that is done with the same wherever the first is done.
pub fn replaced_bodies_keep()
    ensures { (schema : Schema) (p : PlainProgram) (before after : List PlainMethod) (m : PlainMethod) (body : Statements)
        → IsDoneAlike schema m (with_body m body)
        → Keeps (with_methods p (before ++ m ∷ after)) (with_methods p (before ++ with_body m body ∷ after)) schema }
{}

/// The first form of a loop gives way to a query: the program keeps what it does under every schema
/// that has the table with the column of type Long.
pub fn first_form_gives_way()
    ensures { (schema : Schema) (t o x f text : List ℕ) (d : ℤ) (at : FormPlaces) (to : QueryPlaces) (p : PlainProgram) (before after : List PlainMethod)
        (m : PlainMethod) (has : HasLongColumn schema t f)
        → x ≢ o
        → HasQuery schema text (selection t has.table f has.column d)
        → Keeps (with_methods p (before ++ with_body m (collecting at t o x f d) ∷ after)) (with_methods p (before ++ with_body m (selecting to t o text) ∷ after)) schema }
{}

/// What a program runs on answers query texts by their queries' types. There a well-typed method is
/// never stuck, and what it returns is of its result's type.
pub fn typed_methods_are_never_stuck()
    ensures worlds { (schema : Schema) (read : List ℕ → Option PlainQuery) (db : Database) (m : PlainMethod)
        → IsDatabaseOf schema db
        → IsWorld (frame_of schema read m) (world_with schema read db) }
    ensures never { (c : Frame) (m : PlainMethod) (z : Types)
        → TypedStatements c None (types_of_params c.schema m.params) m.body z
        → (w : World)
        → IsWorld c w
        → (args : List Scalar)
        → AreArguments c.schema m.params args
        → (turns : ℕ)
        → outcome w m args turns ≢ Stuck }
    ensures result { (c : Frame) (m : PlainMethod) (z : Types)
        → TypedStatements c None (types_of_params c.schema m.params) m.body z
        → (w : World)
        → IsWorld c w
        → (args : List Scalar)
        → AreArguments c.schema m.params args
        → (turns : ℕ) (lines : List (List ℕ)) (v : Value)
        → outcome w m args turns ≡ Done lines (Some v)
        → IsResult c.schema c.result (Some v) }
{}

/// Each method of a program in which no rule is broken, and whose literals have 64 bits, has a typing:
/// the variables have the types of their declarations.
pub fn well_typed_methods_are_typed()
    ensures { (schema : Schema) (read : List ℕ → Option PlainQuery) (p : PlainProgram) (n : ℕ) (m : PlainMethod)
        → IsWellTyped schema read p
        → NumbersFit p
        → slice_get p.methods n ≡ Some m
        → TypedStatements (frame_of schema read m) None (types_of_params schema m.params) m.body (types_past schema (types_of_params schema m.params) m.body) }
{}

/// Each place in such a method is well typed: the statements there and what stands round them have
/// typings, where the variables that are visible have the types of their declarations.
pub fn well_typed_methods_have_typed_places()
    ensures { (schema : Schema) (read : List ℕ → Option PlainQuery) (p : PlainProgram) (n : ℕ) (m : PlainMethod) (hole : Hole) (part : Statements)
        → IsWellTyped schema read p
        → NumbersFit p
        → slice_get p.methods n ≡ Some m
        → m.body ≡ fill hole part
        → IsTypedPlace (frame_of schema read m) None (types_of_params schema m.params) hole part }
{}

/// A method of a well-typed program is never stuck, on a database of the schema and on arguments of its
/// types, and what it returns is of its result's type.
pub fn well_typed_methods_are_never_stuck()
    ensures never { (schema : Schema) (read : List ℕ → Option PlainQuery) (p : PlainProgram) (n : ℕ) (m : PlainMethod) (db : Database) (args : List Scalar)
        (turns : ℕ)
        → IsWellTyped schema read p
        → NumbersFit p
        → slice_get p.methods n ≡ Some m
        → IsDatabaseOf schema db
        → AreArguments schema m.params args
        → outcome (world_with schema read db) m args turns ≢ Stuck }
    ensures result { (schema : Schema) (read : List ℕ → Option PlainQuery) (p : PlainProgram) (n : ℕ) (m : PlainMethod) (db : Database) (args : List Scalar)
        (turns : ℕ)
        → IsWellTyped schema read p
        → NumbersFit p
        → slice_get p.methods n ≡ Some m
        → IsDatabaseOf schema db
        → AreArguments schema m.params args
        → (lines : List (List ℕ)) (v : Value)
        → outcome (world_with schema read db) m args turns ≡ Done lines (Some v)
        → IsResult schema (result_type schema m.result) (Some v) }
{}

/// What statements at a place do matters only in the states in which a run comes to the place.
pub fn only_reached_states_matter()
    ensures { (w : World) (hole : Hole) (p q : Statements) (s : State)
        → ((t : State) → Reaches w p hole s t → meanings p w t ≡ meanings q w t)
        → meanings (fill hole p) w s ≡ meanings (fill hole q) w s }
{}

/// A run of a method of a well-typed program comes to a place only in states that are typed there: each
/// variable that is visible has a value of its declared type. The same holds of statements that may be
/// replaced, under the types with which they may be.
pub fn well_typed_methods_reach_typed_stores()
    ensures stores { (schema : Schema) (read : List ℕ → Option PlainQuery) (p : PlainProgram) (n : ℕ) (m : PlainMethod) (hole : Hole) (part : Statements)
        → IsWellTyped schema read p
        → NumbersFit p
        → slice_get p.methods n ≡ Some m
        → m.body ≡ fill hole part
        → (db : Database) (args : List Scalar)
        → IsDatabaseOf schema db
        → AreArguments schema m.params args
        → (turns : ℕ) (s : State)
        → Reaches (world_with schema read db) part hole (start m args turns) s
        → IsTyped schema (types_at schema (types_of_params schema m.params) hole) s.store }
    ensures places { (schema : Schema) (read : List ℕ → Option PlainQuery) (p : PlainProgram) (n : ℕ) (m : PlainMethod) (hole : Hole) (part : Statements)
        → IsWellTyped schema read p
        → NumbersFit p
        → slice_get p.methods n ≡ Some m
        → m.body ≡ fill hole part
        → (db : Database) (args : List Scalar)
        → IsDatabaseOf schema db
        → AreArguments schema m.params args
        → (turns : ℕ) (s : State)
        → Reaches (world_with schema read db) part hole (start m args turns) s
        → IsTypedAt schema m (first_of hole) (path_of hole) s.store }
    ensures replaced { (c : Frame) (m : PlainMethod) (hole : Hole) (old new : Statements) (r : MayReplace c m hole old new) (w : World)
        → IsWorld c w
        → (args : List Scalar)
        → AreArguments c.schema m.params args
        → (turns : ℕ) (s : State)
        → Reaches w old hole (start m args turns) s
        → IsTyped c.schema r.before s.store }
{}

/// Variables that are not live don't matter: well-typed statements do the same in two states that give each
/// variable of their typing one value of its type. They pass in both in the same way, with the same lines
/// and the same returned value, to such states, and are stuck in none.
pub fn only_typed_variables_matter()
    ensures { (c : Frame) (l : Option Types) (g z : Types) (p : Statements)
        → TypedStatements c l g p z
        → (w : World)
        → IsWorld c w
        → Simulates (Alike c.schema g) (Alike c.schema z) (exits c l ⊥) (meanings p w) (meanings p w) }
{}

/// Statements of a well-typed method, at any depth, give way to well-typed ones that do the same from
/// each typed state from which the old ones pass: the method is done with the same, and the program
/// keeps what it does.
pub fn replaced_statements_keep()
    ensures outcomes { (c : Frame) (m : PlainMethod) (hole : Hole) (old new : Statements)
        → MayReplace c m hole old new
        → (w : World)
        → IsWorld c w
        → (args : List Scalar)
        → AreArguments c.schema m.params args
        → (turns : ℕ) (lines : List (List ℕ)) (v : Option Value)
        → outcome w (with_body m (fill hole old)) args turns ≡ Done lines v
        → outcome w (with_body m (fill hole new)) args turns ≡ Done lines v }
    ensures programs { (schema : Schema) (p : PlainProgram) (before after : List PlainMethod) (m : PlainMethod) (hole : Hole) (old new : Statements)
        → ((reader : Reader schema) → MayReplace (frame_of schema reader.read m) m hole old new)
        → Keeps (with_methods p (before ++ with_body m (fill hole old) ∷ after)) (with_methods p (before ++ with_body m (fill hole new) ∷ after)) schema }
{}

/// In a well-typed program statements at any depth give way to others that do the same from each typed
/// state from which the old ones pass: where the program stays well typed it keeps what it does. The new
/// statements leave fewer variables or more, and what they leave alike is what both leave; or both leave
/// variables that the other doesn't, and what they leave alike is all that is visible before the place or
/// mentioned behind it. Which way to find queries a program is well typed by doesn't matter.
pub fn well_typed_replacements_keep()
    ensures readers { (schema : Schema) (one other : Reader schema) (p : PlainProgram) → IsWellTyped schema one.read p → IsWellTyped schema other.read p }
    ensures fewer { (schema : Schema) (reader : Reader schema) (p : PlainProgram) (before after : List PlainMethod) (m : PlainMethod) (hole : Hole)
        (old new : Statements)
        → IsWellTyped schema reader.read (with_methods p (before ++ with_body m (fill hole old) ∷ after))
        → NumbersFit (with_methods p (before ++ with_body m (fill hole old) ∷ after))
        → IsWellTyped schema reader.read (with_methods p (before ++ with_body m (fill hole new) ∷ after))
        → NumbersFit (with_methods p (before ++ with_body m (fill hole new) ∷ after))
        → Extends (types_past schema (types_at schema (types_of_params schema m.params) hole) old) (
        types_past schema (types_at schema (types_of_params schema m.params) hole) new)
        → Replaces (frame_of schema reader.read m) (loop_at schema None (types_of_params schema m.params) hole)
        (types_at schema (types_of_params schema m.params) hole)
        (types_past schema (types_at schema (types_of_params schema m.params) hole) new)
        old new
        → Keeps (with_methods p (before ++ with_body m (fill hole old) ∷ after)) (with_methods p (before ++ with_body m (fill hole new) ∷ after)) schema }
    ensures more { (schema : Schema) (reader : Reader schema) (p : PlainProgram) (before after : List PlainMethod) (m : PlainMethod) (hole : Hole)
        (old new : Statements)
        → IsWellTyped schema reader.read (with_methods p (before ++ with_body m (fill hole old) ∷ after))
        → NumbersFit (with_methods p (before ++ with_body m (fill hole old) ∷ after))
        → IsWellTyped schema reader.read (with_methods p (before ++ with_body m (fill hole new) ∷ after))
        → NumbersFit (with_methods p (before ++ with_body m (fill hole new) ∷ after))
        → Extends (types_past schema (types_at schema (types_of_params schema m.params) hole) new) (
        types_past schema (types_at schema (types_of_params schema m.params) hole) old)
        → Replaces (frame_of schema reader.read m) (loop_at schema None (types_of_params schema m.params) hole)
        (types_at schema (types_of_params schema m.params) hole)
        (types_past schema (types_at schema (types_of_params schema m.params) hole) old)
        old new
        → Keeps (with_methods p (before ++ with_body m (fill hole old) ∷ after)) (with_methods p (before ++ with_body m (fill hole new) ∷ after)) schema }
    ensures wide { (schema : Schema) (reader : Reader schema) (p : PlainProgram) (before after : List PlainMethod) (m : PlainMethod)
        (hole : Hole) (old new : Statements) (alike : Types)
        → IsWellTyped schema reader.read (with_part p before after m hole old) → NumbersFit (with_part p before after m hole old)
        → IsWellTyped schema reader.read (with_part p before after m hole new) → NumbersFit (with_part p before after m hole new)
        → GivesWay (frame_of schema reader.read m) None (types_of_params schema m.params) hole old new alike
        → Keeps (with_part p before after m hole old) (with_part p before after m hole new) schema }
{}

/// Statements have the same faults where other variables are visible, if those that they mention or
/// declare at any depth are visible in both places or in neither, with the same types.
pub fn faults_go_by_names()
    ensures block { (schema : Schema) (read : List ℕ → Option PlainQuery) (r : Option Spelled) (vs us : Visible) (w : Around) (part : Statements)
        → EachMentioned (IsSeenAlike vs us) part
        → EachDeclared (IsSeenAlike vs us) part
        → faults_in schema read r (in_statements schema vs w part) ≡ faults_in schema read r (in_statements schema us w part) }
    ensures first { (schema : Schema) (read : List ℕ → Option PlainQuery) (r : Option Spelled) (vs us : Visible) (w : Around) (ends : Bool) (part : Statements)
        → EachMentioned (IsSeenAlike vs us) part
        → EachDeclared (IsSeenAlike vs us) part
        → faults_in schema read r (in_first schema vs w ends part) ≡ faults_in schema read r (in_first schema us w ends part) }
{}

/// Joined statements have the faults of the first ones, and those of the others with what the first ones
/// leave visible. Statements that have none before others have none at the end of a block either. A whole
/// block is statements that end it.
pub fn joined_statements_have_faults_of_their_own()
    ensures joined { (schema : Schema) (read : List ℕ → Option PlainQuery) (r : Option Spelled) (vs : Visible) (w : Around) (ends : Bool) (one other : Statements)
        → faults_in schema read r (in_first schema vs w ends (followed_by one other))
        ≡ faults_in schema read r (in_first schema vs w (is_nothing other && ends) one)
        ++ faults_in schema read r (in_first schema (visible_past schema vs one) w ends other) }
    ensures ends { (schema : Schema) (read : List ℕ → Option PlainQuery) (r : Option Spelled) (part : Statements) (vs : Visible) (w : Around) (ends : Bool)
        → faults_in schema read r (in_first schema vs w false part) ≡ []
        → faults_in schema read r (in_first schema vs w ends part) ≡ [] }
    ensures block { (schema : Schema) (vs : Visible) (w : Around) (part : Statements) → in_first schema vs w true part ≡ in_statements schema vs w part }
{}

/// A place in a method of a well-typed program: the statements there have no fault with what is visible there,
/// and what stands behind them in their block has none with what they leave visible; the visible variables are
/// those that have a type there. With other statements there the program is well typed if both is so of these,
/// if the first ones aren't nothing, and return only if the others do.
pub fn places_have_faults_of_their_own()
    ensures parts { (schema : Schema) (read : List ℕ → Option PlainQuery) (p : PlainProgram) (before after : List PlainMethod) (m : PlainMethod) (hole : Hole)
        (part : Statements)
        → IsWellTyped schema read (with_part p before after m hole part)
        → IsFineAt schema read m hole part }
    ensures behind { (schema : Schema) (read : List ℕ → Option PlainQuery) (p : PlainProgram) (before after : List PlainMethod) (m : PlainMethod) (hole : Hole)
        (part : Statements)
        → IsWellTyped schema read (with_part p before after m hole part)
        → IsFineBehind schema read m hole part }
    ensures types { (schema : Schema) (read : List ℕ → Option PlainQuery) (p : PlainProgram) (before after : List PlainMethod) (m : PlainMethod) (hole : Hole)
        (part : Statements)
        → IsWellTyped schema read (with_part p before after m hole part)
        → (x : List ℕ)
        → type_at (visible_before schema (with_params schema [] m.params) hole) x ≡ types_at schema (types_of_params schema m.params) hole x }
    ensures visible { (schema : Schema) (read : List ℕ → Option PlainQuery) (p : PlainProgram) (before after : List PlainMethod) (m : PlainMethod) (hole : Hole)
        (part : Statements)
        → IsWellTyped schema read (with_part p before after m hole part)
        → (x : List ℕ)
        → is_visible (visible_before schema (with_params schema [] m.params) hole) x ≡ not (is_none (types_at schema (types_of_params schema m.params) hole x)) }
    ensures whole { (schema : Schema) (read : List ℕ → Option PlainQuery) (p : PlainProgram) (before after : List PlainMethod) (m : PlainMethod) (hole : Hole)
        (old new : Statements)
        → IsWellTyped schema read (with_part p before after m hole old)
        → is_nothing old ≡ false
        → (returns old ≡ true → returns new ≡ true)
        → IsFineAt schema read m hole new
        → IsFineBehind schema read m hole new
        → IsWellTyped schema read (with_part p before after m hole new) }
{}

/// A well-typed program stays well typed where statements at any depth give way to others that fit in: they
/// have no fault at the place, they return if the first ones do, and each variable that is mentioned or declared
/// behind the place in its block is left invisible by both, or visible with one type.
pub fn well_typed_where_statements_give_way()
    ensures { (schema : Schema) (read : List ℕ → Option PlainQuery) (p : PlainProgram) (before after : List PlainMethod) (m : PlainMethod) (hole : Hole)
        (old new : Statements)
        → IsWellTyped schema read (with_part p before after m hole old)
        → FitsIn schema read m hole old new
        → IsWellTyped schema read (with_part p before after m hole new) }
{}

/// An expression whose places are all replaced by one has the same value, and so have the arguments of a
/// query. Where it ends otherwise it ends in the same way, a fault at that place.
#[tactic(auto, using(crate::proofs::Placing::laws))]
pub fn places_change_no_value()
    ensures exact { (to : Span) (e : Expression) (w : World) (s : Store) → value_of (placed to e) w s ≡ result_at to (value_of e w s) }
    ensures same { (to : Span) (e : Expression) (w : World) (s : Store) (v : Value) → value_of e w s ≡ Ok v → value_of (placed to e) w s ≡ Ok v }
    ensures back { (to : Span) (e : Expression) (w : World) (s : Store) (v : Value) → value_of (placed to e) w s ≡ Ok v → value_of e w s ≡ Ok v }
    ensures all_exact { (to : Span) (es : Expressions) (w : World) (s : Store) → scalars_of (placed_all to es) w s ≡ result_at to (scalars_of es w s) }
    ensures all_same { (to : Span) (es : Expressions) (w : World) (s : Store) (xs : List Scalar) → scalars_of es w s ≡ Ok xs → scalars_of (placed_all to es) w s ≡ Ok xs }
    ensures all_back { (to : Span) (es : Expressions) (w : World) (s : Store) (xs : List Scalar) → scalars_of (placed_all to es) w s ≡ Ok xs → scalars_of es w s ≡ Ok xs }
{}
