//! Laws of fragments that mean their loops, for the crates above. They do nothing.
ghost use Rattle.std.specs.Prelude.{◌≡◌, ℕ, List, true};
ghost use Rattle.std.specs.List.{AllByRecursion};
ghost use Rattle.std.specs.declared.option.Option.{Option};
ghost use Rattle.std.specs.declared.option.Option.TheVariants.{Some, None};
ghost use Rattle.qbs_base.specs.Values.{Schema};
ghost use Rattle.sql_ast.specs.Tree.{PlainQuery};
ghost use Rattle.java_ast.specs.Tree.{Statements, PlainProgram};
ghost use Rattle.java_mean.specs.declared.types.JavaType.{JavaType};
ghost use Rattle.java_mean.specs.Keeps.{Keeps};
ghost use Rattle.java_mean.specs.Numbers.{NumbersFit};
ghost use Rattle.java_mean.specs.Queries.{Reader};
ghost use Rattle.java_mean.specs.Types.{Types, types_past};
ghost use Rattle.java_mean.specs.Typing.{Frame, TypedStatements};
ghost use Rattle.java_mean.specs.WellTyped.{IsWellTyped};
ghost use Rattle.java_loops.specs.Walks.Reads.{Set};
ghost use Rattle.java_loops.specs.Walks.Replacing.{Ask, replacement, run_and_loop, MayGiveWay};
ghost use Rattle.java_loops.specs.Meant.Asking.{AskForLoop, rewritten_at};
ghost use Rattle.loop_text.specs.Statements.Fragment.{Fragment, are_simple};
ghost use Rattle.java_ast.specs.Names.{Names, names_read};
ghost use Rattle.java_loops.specs.Meant.GivesWay.{AnswersItsFragment, AnswersWithAnswers, MayStandForLoop};
ghost use Rattle.kernel_lang.specs.Typed.{is_typed};
ghost use Rattle.kernel_lang.specs.Validity as validity;
ghost use Rattle.java_loops.specs.Kernel.Kernel.{broken, lowering, setting_at};
ghost use Rattle.loop_text.specs.Statements.KeptStatements.{first_at, AreKept, with_numbers};
ghost use Rattle.java_loops.specs.Lowering.Lowered.{needed_in_order};
ghost use Rattle.java_loops.specs.Meant.KeptNumbers.{kept_numbers};
ghost use Rattle.java_loops.specs.Meant.LoopStands.{LoopStands};
ghost use Rattle.java_loops.specs.Meant.Lowers.{IsMeant};
ghost use Rattle.java_loops.specs.Meant.Means.{MeansItsLoop, MeansItsLoopThere};
ghost use Rattle.java_loops.specs.Kernel.Setting.{Setting};

/// Where a typed run and its loop have a fragment that means the loop, they give way to text that may stand for the loop: the
/// kept statements of the run, and a statement for each needed accumulator that gives it what the fragment ends with.
pub fn text_stands_for_loops()
    ensures { (c : Frame) (l : Option Types) (before end : Types) (w : Setting)
        → TypedStatements c l before (run_and_loop w.fragment.run w.fragment.loop) end
        → w.types ≡ types_past c.schema before w.fragment.run
        → are_simple w.fragment.run ≡ true
        → (r : Set) (ks : List Ask)
        → MayStandForLoop c before w r ks
        → MeansItsLoop c before w
        → AllByRecursion (λ (x : List ℕ). (k : JavaType) × (w.types x ≡ Some k)) (needed_in_order w)
        → MayGiveWay c before (types_past c.schema before (replacement r w.fragment.run ks)) w.fragment.run w.fragment.loop r ks }
{}

/// Where asks answer for a loop by the whole answers of the known lists' queries, they answer for it by the lists that are there:
/// what a fragment ends with depends on known lists by membership alone.
pub fn asks_may_answer_by_the_whole_answers()
    ensures { (c : Frame) (before : Types) (w : Setting) (ks : List Ask) → AnswersWithAnswers c before w ks → AnswersItsFragment c before w ks }
{}

/// In a well-typed program whose literals have 64 bits, the fragment of a loop that breaks no rule of the kernel form means the
/// loop: wherever the run and the loop pass, the loop goes on as the lowered fragment says.
pub fn fragments_mean_their_loops()
    ensures { (schema : Schema) (read : List ℕ → Option PlainQuery) (p : PlainProgram) (path : List ℕ) (w : Setting)
        → IsWellTyped schema read p
        → NumbersFit p
        → setting_at schema read path p ≡ Some w
        → broken w ≡ None
        → MeansItsLoopThere schema read p path w }
{}

/// In a well-typed program whose literals have 64 bits, the lowered fragment of a loop that breaks no rule of the kernel form is
/// valid.
pub fn lowered_fragments_are_valid()
    ensures { (schema : Schema) (read : List ℕ → Option PlainQuery) (p : PlainProgram) (path : List ℕ) (w : Setting)
        → IsWellTyped schema read p
        → NumbersFit p
        → setting_at schema read path p ≡ Some w
        → broken w ≡ None
        → validity.broken (lowering w).fragment ≡ None }
{}

/// In a well-typed program whose literals have 64 bits, the lowered fragment of a loop that breaks no rule of the kernel form
/// fits the schema: its tables and the columns that it names are there, and its tests and sums are of one type.
pub fn lowered_fragments_fit_the_schema()
    ensures { (schema : Schema) (read : List ℕ → Option PlainQuery) (p : PlainProgram) (path : List ℕ) (w : Setting)
        → IsWellTyped schema read p
        → NumbersFit p
        → setting_at schema read path p ≡ Some w
        → broken w ≡ None
        → is_typed schema (lowering w).fragment ≡ true }
{}

/// In a well-typed program whose literals have 64 bits, the fragment of a loop that breaks no rule of the kernel form means the
/// loop, and the kept statements leave what is live, prints and turns as the run and the loop do, but for the accumulators.
pub fn kept_statements_leave_the_rest()
    ensures { (schema : Schema) (read : List ℕ → Option PlainQuery) (p : PlainProgram) (path : List ℕ) (w : Setting)
        → IsWellTyped schema read p
        → NumbersFit p
        → setting_at schema read path p ≡ Some w
        → broken w ≡ None
        → (first : ℕ) (kept : List ℕ)
        → AreKept w.fragment (names_read (lowering w).entries) first w.fragment.run kept
        → IsMeant schema read p path w (with_numbers kept first w.fragment.run) }
{}

/// In a well-typed program whose literals have 64 bits, a run and its loop that breaks no rule of the kernel form give way to
/// the kept statements and to one that asks for each needed accumulator: where the program stays well typed and its literals
/// have 64 bits, it keeps what it does.
pub fn loops_give_way_to_asks()
    ensures { (schema : Schema) (reader : Reader schema) (p : PlainProgram) (path : List ℕ) (w : Setting) (first : ℕ) (kept : List ℕ) (ks : List Ask)
        → IsWellTyped schema reader.read p
        → NumbersFit p
        → setting_at schema reader.read path p ≡ Some w
        → broken w ≡ None
        → first_at path p ≡ Some first
        → AreKept w.fragment (names_read (lowering w).entries) first w.fragment.run kept
        → AskForLoop schema reader.read p path w ks
        → IsWellTyped schema reader.read (rewritten_at path first kept w ks p)
        → NumbersFit (rewritten_at path first kept w ks p)
        → Keeps p (rewritten_at path first kept w ks p) schema }
{}

/// Which statements of a run stay is a function of the fragment and of the further variables: the numbers of the statements that
/// stay are these (`only`), and they are such numbers (`kept`).
pub fn kept_statements_have_their_numbers()
    ensures only { (f : Fragment) (further : Names) (n : ℕ) (run : Statements) (numbers : List ℕ)
        → AreKept f further n run numbers
        → numbers ≡ kept_numbers f further n run }
    ensures kept { (f : Fragment) (further : Names) (n : ℕ) (run : Statements)
        → AreKept f further n run (kept_numbers f further n run) }
{}

/// The path to a loop leads to it, the number of its run's first statement is at most its own, and the run has simple statements
/// alone: so the run and the loop may be replaced there, and the statements that stay have their numbers.
pub fn loops_stand_where_their_paths_lead()
    ensures { (schema : Schema) (read : List ℕ → Option PlainQuery) (p : PlainProgram) (path : List ℕ) (w : Setting) (first : ℕ)
        → setting_at schema read path p ≡ Some w
        → first_at path p ≡ Some first
        → LoopStands p path w.fragment first }
{}
