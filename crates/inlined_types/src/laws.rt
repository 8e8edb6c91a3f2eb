//! Laws of helpers whose inlined program is well typed, for the crates above. They do nothing.
ghost use Rattle.std.specs.Prelude.{ℕ, List, Option};
ghost use Rattle.qbs_base.specs.Values.{Schema};
ghost use Rattle.sql_ast.specs.Tree.{PlainQuery};
ghost use Rattle.java_ast.specs.Tree.{PlainProgram};
ghost use Rattle.java_mean.specs.WellTyped.{IsWellTyped};
ghost use Rattle.java_calls.specs.Fitting.{AreFitting};
ghost use Rattle.java_calls.specs.Inlining.{IsInlined};
ghost use Rattle.java_calls.specs.KeepsCalls.{KeepsCalls};
ghost use Rattle.java_calls.specs.Rules.{BreaksNone};
ghost use Rattle.inlined_types.specs.PlainTypes.{HavePlainTypes};

/// The helpers of a program fit, where it breaks no rule of calls and the program in which its calls are replaced is well typed. Each method
/// counts, also one that is never called.
pub fn helpers_of_well_typed_programs_fit()
    ensures { (schema : Schema) (read : List ℕ → Option PlainQuery) (p q : PlainProgram)
        → HavePlainTypes p.methods
        → BreaksNone p
        → IsInlined p q
        → IsWellTyped schema read q
        → AreFitting p.methods }
{}

/// So a well-typed program in which the bodies of helpers stand in for their calls keeps what the program with calls does, for any number of
/// open calls, where no rule of calls is broken.
pub fn inlined_programs_keep_where_they_are_well_typed()
    ensures { (schema : Schema) (read : List ℕ → Option PlainQuery) (p q : PlainProgram)
        → HavePlainTypes p.methods
        → BreaksNone p
        → IsInlined p q
        → IsWellTyped schema read q
        → KeepsCalls p q schema }
{}
