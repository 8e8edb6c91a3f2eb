//! Laws of the variables that a loop is there for: their accumulators, and the types with which they are declared. They do nothing.
ghost use Rattle.std.specs.Prelude.{◌≡◌, ℕ, List, slice_get};
ghost use Rattle.std.specs.declared.option.Option.{Option};
ghost use Rattle.std.specs.declared.option.Option.TheVariants.{Some, None};
ghost use Rattle.qbs_base.specs.Values.{Schema};
ghost use Rattle.sql_ast.specs.Tree.{PlainQuery};
ghost use Rattle.java_ast.specs.Path.{found_in};
ghost use Rattle.java_ast.specs.Tree.{Expression, PlainProgram};
ghost use Rattle.java_mean.specs.Numbers.{NumbersFit};
ghost use Rattle.java_mean.specs.Types.{type_spelled};
ghost use Rattle.java_mean.specs.WellTyped.{IsWellTyped};
ghost use Rattle.java_ast.specs.Names.{is_among, names_read};
ghost use Rattle.java_loops.specs.Kernel.Kernel.{broken, setting_at};
ghost use Rattle.java_loops.specs.Kernel.Setting.{Setting};
ghost use Rattle.java_loops.specs.Lowering.Collected.{AreForNeeded};
ghost use Rattle.java_loops.specs.Lowering.Spelling.{spelled_at};
ghost use Rattle.java_loops.specs.Walks.Reads.{Reads};

/// A variable has at a loop the type that the program spells where it declares the variable, and no type where none that is in
/// sight declares it.
pub fn variables_have_their_spelled_types()
    ensures { (schema : Schema) (read : List ℕ → Option PlainQuery) (p : PlainProgram) (path : List ℕ) (w : Setting) (x : List ℕ)
        → setting_at schema read path p ≡ Some w
        → w.types x ≡ found_in (type_spelled schema) (spelled_at x path p) }
{}

/// In a well-typed program whose literals have 64 bits, the accumulators of a loop that breaks no rule of the kernel form are those
/// of the needed variables, in the order of the statements that start them, and behind them flags. The former stand outside of
/// all loops, and each collects what its variable may hold: a list or set of what is added, a number or a truth value.
pub fn accumulators_are_for_needed_variables()
    ensures { (schema : Schema) (read : List ℕ → Option PlainQuery) (p : PlainProgram) (path : List ℕ) (w : Setting)
        → IsWellTyped schema read p
        → NumbersFit p
        → setting_at schema read path p ≡ Some w
        → broken w ≡ None
        → AreForNeeded w }
{}

/// What an entry value reads is among the names that are read for entry values.
pub fn entry_values_read_what_is_read()
    ensures { (entries : List Expression) (k : ℕ) (e : Expression) → slice_get entries k ≡ Some e → Reads (is_among (names_read entries)) e }
{}
