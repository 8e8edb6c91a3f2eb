//! Laws of asks, for the crates above. They do nothing.
ghost use Rattle.std.specs.Prelude.{◌≡◌, ℕ, Bool, true, false, ◌||◌, List, [], map};
ghost use Rattle.std.specs.List.{AllByRecursion};
ghost use Rattle.std.specs.declared.option.Option.{Option};
ghost use Rattle.std.specs.declared.option.Option.TheVariants.{Some, None};
ghost use Rattle.qbs_base.specs.Values.{Schema};
ghost use Rattle.schema.specs.Rules.{IsSchema, AreNamed};
ghost use Rattle.tor_axioms.specs.Accepts.{Proof};
ghost use Rattle.kernel_lang.specs.Plain.{Fragment};
ghost use Rattle.kernel_lang.specs.Validity as validity;
ghost use Rattle.vc_gen.specs.Conditions.{conditions};
ghost use Rattle.vc_gen.specs.Soundness.{AllAccepted, EndsAnywhere};
ghost use Rattle.sql_ast.specs.Tree.{PlainQuery};
ghost use Rattle.sql_parts.specs.Given.{IsHeld, QueryIsCounted};
ghost use Rattle.java_grammar.specs.ReadBack.{IsReadBack};
ghost use Rattle.java_ast.specs.Tree.{Spelled, Statement, Statements, Nothing, Then, PlainMethod, PlainProgram};
ghost use Rattle.java_mean.specs.Asks.{frame_of};
ghost use Rattle.java_mean.specs.Fits.{in_first};
ghost use Rattle.java_mean.specs.Keeps.{Keeps};
ghost use Rattle.java_mean.specs.Numbers.{NumbersFit};
ghost use Rattle.java_mean.specs.Places.{Around, in_statement};
ghost use Rattle.java_mean.specs.Queries.{Reader};
ghost use Rattle.java_mean.specs.Refines.{followed_by};
ghost use Rattle.java_mean.specs.Rules.{returns};
ghost use Rattle.java_mean.specs.Types.{Types, types_past};
ghost use Rattle.java_mean.specs.Visible.{Visible};
ghost use Rattle.java_mean.specs.WellTyped.{IsWellTyped, faults_in};
ghost use Rattle.loop_text.specs.Statements.Fragment.{are_simple};
ghost use Rattle.loop_text.specs.Statements.Loops.{is_loop};
ghost use Rattle.java_loops.specs.Kernel.Kernel.{lowering};
ghost use Rattle.java_loops.specs.Kernel.Setting.{Setting};
ghost use Rattle.java_loops.specs.Meant.Asking.{AskForLoop};
ghost use Rattle.java_loops.specs.Walks.Reads.{Set};
ghost use Rattle.java_loops.specs.Meant.Means.{MeansItsLoopThere};
ghost use Rattle.java_loops.specs.Walks.Replacing.{Ask, asked, is_asked, replacement, run_and_loop, seen_at};
ghost use Rattle.java_loops.specs.Walks.Runs.{kept, KeptRead};
ghost use Rattle.lowering.specs.Asked.{queries_in, IsKernelLoop, HasQueriesOf};
ghost use Rattle.rewrite_core.specs.Asked.{Place, asks_of, replaced};
ghost use Rattle.rewrite_core.specs.Output.{IsSourceOf};
ghost use Rattle.rewrite_core.specs.Patches.{patched_text};
ghost use Rattle.rewrite_core.specs.TriedAsking.{AllMayBeAsked};
ghost use Rattle.rewrite_core.specs.Trying.{all_tried, rewritten};
ghost use Rattle.rewrite_core.specs.Asking.{IsGivenThere, QueriesAreValid, HasAsks, MayBeAsked, AgreeOnEntries, IsTypedAsk, SeesEntries, IsFaultlessAsk, Sees, AlikeOn, AllMayStand};

/// At a loop of the kernel form, in a world of its method's frame, entry values and whole answers of the known queries are
/// what emission asks for: the known lists are what the known queries answer to the entry values.
pub fn whole_answers_are_given()
    ensures { (schema : Schema) (reader : Reader schema) (p : PlainProgram) (path : List ℕ) (w : Setting)
        → IsKernelLoop schema reader.read p path w
        → (here : MeansItsLoopThere schema reader.read p path w)
        → IsGivenThere (frame_of schema reader.read here.method) (seen_at schema here.method here.hole) w }
{}

/// At a loop of the kernel form the query of each known list is found, so that `queries_in` leaves none out.
pub fn known_queries_are_found()
    ensures { (schema : Schema) (read : List ℕ → Option PlainQuery) (p : PlainProgram) (path : List ℕ) (w : Setting)
        → IsKernelLoop schema read p path w
        → (lowering w).known ≡ map Some (queries_in (lowering w).known) }
{}

/// The asks that stand for a loop of the kernel form ask for what the loop makes: each is for the variable of a needed
/// accumulator, reads what the fragment's entry values read, and has what the fragment ends with, wherever the loop stands in a
/// run of the program. The candidate's postconditions say what the fragment ends with, and the emitted queries are of the schema.
pub fn emitted_queries_answer_for_loops()
    ensures { (schema : Schema) (reader : Reader schema) (l : Place)
        → MayBeAsked schema reader.read l.program l.path l.setting l.candidate
        → AskForLoop schema reader.read l.program l.path l.setting (asks_of l) }
{}

/// A candidate all of whose conditions have accepted derivations has postconditions that say what a valid fragment ends with
/// (`ends`): so it may be asked for (`may`).
pub fn accepted_candidates_may_be_asked()
    ensures ends { (f : Fragment) (candidate : List ℕ) (proofs : List Proof)
        → validity.broken f ≡ None
        → AllAccepted (conditions f candidate) proofs
        → EndsAnywhere f candidate }
    ensures may { (schema : Schema) (read : List ℕ → Option PlainQuery) (p : PlainProgram) (path : List ℕ) (w : Setting) (candidate : List ℕ)
        (proofs : List Proof)
        → IsKernelLoop schema read p path w
        → HasQueriesOf schema (lowering w)
        → QueriesAreValid w candidate
        → AllAccepted (conditions (lowering w).fragment candidate) proofs
        → MayBeAsked schema read p path w candidate }
{}

/// The queries that are emitted for the needed accumulators of a loop of the kernel form are of the schema, whose tables have
/// names, where its known queries are. The numbers of the fragment have 64 bits, and the FROM items of known queries can be
/// counted, as all that code can hold.
pub fn emitted_queries_of_loops_are_valid()
    ensures { (schema : Schema) (read : List ℕ → Option PlainQuery) (p : PlainProgram) (path : List ℕ) (w : Setting) (candidate : List ℕ)
        → IsSchema schema
        → AreNamed schema
        → IsKernelLoop schema read p path w
        → HasQueriesOf schema (lowering w)
        → AllByRecursion QueryIsCounted (queries_in (lowering w).known)
        → IsHeld (lowering w).fragment
        → QueriesAreValid w candidate }
{}

/// The asks that stand for a loop are typed, in any method, where the types agree with those at the loop on what the fragment's
/// entry values read: the emitted query has the type of what its accumulator collects, which is the type of the ask's variable,
/// and its arguments have the types of its parameters.
pub fn asks_have_the_types_of_their_variables()
    ensures { (schema : Schema) (reader : Reader schema) (l : Place) (method : PlainMethod) (g : Types)
        → HasAsks schema reader.read l.program l.path l.setting l.candidate
        → AgreeOnEntries l.setting g
        → AllByRecursion (IsTypedAsk (frame_of schema reader.read method) l.setting g) (asks_of l) }
{}

/// The expressions of the asks that stand for a loop break no rule, in any method, where what the fragment's entry values read is
/// visible with its type at the loop: the texts have queries of the calls' forms, whose orders are complete and whose elements are
/// spelled as the asks' variables are, and the arguments are as many as the parameters and of their types. Each expression is of
/// the type of the ask's variable.
pub fn asks_break_no_rule()
    ensures { (schema : Schema) (reader : Reader schema) (l : Place) (result : Option Spelled) (vs : Visible)
        → HasAsks schema reader.read l.program l.path l.setting l.candidate
        → SeesEntries l.setting vs
        → AllByRecursion (IsFaultlessAsk schema reader.read result l.setting vs) (asks_of l) }
{}

/// The statements that ask break no rule at a place where they may stand: what the fragment's entry values read is visible there,
/// what they declare isn't, and what they assign is.
pub fn asking_statements_break_no_rule()
    ensures { (schema : Schema) (reader : Reader schema) (l : Place) (result : Option Spelled) (round : Around) (vs : Visible) (g : Types)
        → HasAsks schema reader.read l.program l.path l.setting l.candidate
        → Sees vs g
        → AgreeOnEntries l.setting g
        → AllMayStand schema round l.setting.types g (asks_of l)
        → faults_in schema reader.read result (in_first schema vs round false (asked (asks_of l))) ≡ [] }
{}

/// The statements of a run that are kept for a set of variables break no rule where the whole run breaks none, and where the
/// variables of the set are of the same types. They read variables of the set alone.
pub fn kept_statements_break_no_rule()
    ensures { (schema : Schema) (read : List ℕ → Option PlainQuery) (result : Option Spelled) (round : Around) (r : Set) (run : Statements) (vs us : Visible)
        (g h : Types)
        → Sees vs g
        → Sees us h
        → AlikeOn r g h
        → are_simple run ≡ true
        → KeptRead r run
        → faults_in schema read result (in_first schema vs round false run) ≡ []
        → faults_in schema read result (in_first schema us round false (kept r run)) ≡ [] }
{}

/// A run and its loop, which breaks no rule where it stands, return nothing.
pub fn runs_and_loops_return_nothing()
    ensures { (schema : Schema) (read : List ℕ → Option PlainQuery) (result : Option Spelled) (run : Statements) (loop_statement : Statement) (vs : Visible)
        (round : Around) (last : Bool)
        → are_simple run ≡ true
        → is_loop loop_statement ≡ true
        → faults_in schema read result (in_statement schema vs round last loop_statement) ≡ []
        → returns (followed_by run (Then loop_statement Nothing)) ≡ false }
{}

/// A run's kept statements and the asks leave the variables that are kept or asked for with the types that the run and its loop
/// leave them with, where the asks may stand behind the kept statements.
pub fn replacements_leave_types_alike()
    ensures { (schema : Schema) (round : Around) (r : Set) (run : Statements) (loop_statement : Statement) (g : Types) (ks : List Ask)
        → is_loop loop_statement ≡ true
        → AllMayStand schema round (types_past schema g run) (types_past schema g (kept r run)) ks
        → (x : List ℕ)
        → (is_asked ks x || r x) ≡ true
        → types_past schema g (run_and_loop run loop_statement) x ≡ types_past schema g (replacement r run ks) x }
{}

/// The program in which the asks stand for a loop, behind the kept statements of its run, is well typed, and its literals have
/// 64 bits: what the asks declare was declared by the run, and what is mentioned or declared behind the loop is left with the types
/// with which the run and the loop leave it. This holds whatever the candidate claims.
pub fn replaced_programs_are_well_typed()
    ensures typed { (schema : Schema) (reader : Reader schema) (l : Place)
        → HasAsks schema reader.read l.program l.path l.setting l.candidate
        → IsWellTyped schema reader.read (replaced l) }
    ensures numbers { (schema : Schema) (reader : Reader schema) (l : Place)
        → HasAsks schema reader.read l.program l.path l.setting l.candidate
        → NumbersFit (replaced l) }
{}

/// A program keeps what it does where a loop that may be asked for gives way to the asks that stand for it.
pub fn loops_give_way_to_queries()
    ensures { (schema : Schema) (reader : Reader schema) (l : Place)
        → MayBeAsked schema reader.read l.program l.path l.setting l.candidate
        → Keeps l.program (replaced l) schema }
{}

/// The text of a source in which the loops that gave way are replaced is a text of the rewritten program, but for places: the loops that give way may
/// be asked for with the candidates that are found.
pub fn patched_texts_are_read_back()
    ensures { (schema : Schema) (size budget : ℕ) (source : List ℕ) (p : PlainProgram)
        → IsSourceOf source p
        → AllMayBeAsked schema (all_tried schema size budget p)
        → IsReadBack (patched_text source (all_tried schema size budget p)) (rewritten schema size budget p) }
{}
