//! Laws of inlined programs and the grammar, for the crates above. They do nothing.
ghost use Rattle.std.specs.Prelude.{ℕ, List, Option};
ghost use Rattle.qbs_base.specs.Values.{Schema};
ghost use Rattle.sql_ast.specs.Tree.{PlainQuery};
ghost use Rattle.java_ast.specs.Tree.{PlainProgram};
ghost use Rattle.java_mean.specs.WellTyped.{IsWellTyped};
ghost use Rattle.java_grammar.specs.InGrammar.{IsInGrammar};
ghost use Rattle.java_grammar.specs.Written.{IsWritten};
ghost use Rattle.java_calls.specs.Fitting.{AreFitting};
ghost use Rattle.java_calls.specs.Inlining.{IsInlined};
ghost use Rattle.java_calls.specs.KeepsCalls.{KeepsCalls};
ghost use Rattle.java_calls.specs.Rules.{BreaksNone};
ghost use Rattle.inlined_types.specs.PlainTypes.{HavePlainTypes};

/// A program of the grammar has no parameter that is a set, and declares no variable of a boxed type.
pub fn programs_of_the_grammar_have_plain_types()
    ensures { (p : PlainProgram) → IsInGrammar p → HavePlainTypes p.methods }
{}

/// Where a program of the grammar breaks no rule of calls, and the program in which its calls are replaced is well typed, that one keeps what
/// the program with calls does, and is of the grammar too.
pub fn inlined_programs_of_the_grammar_keep()
    ensures keeps { (schema : Schema) (read : List ℕ → Option PlainQuery) (p q : PlainProgram)
        → IsInGrammar p
        → BreaksNone p
        → IsInlined p q
        → IsWellTyped schema read q
        → KeepsCalls p q schema }
    ensures grammar { (schema : Schema) (read : List ℕ → Option PlainQuery) (p q : PlainProgram)
        → IsInGrammar p
        → BreaksNone p
        → IsInlined p q
        → IsWellTyped schema read q
        → IsInGrammar q }
{}

/// The program in which the calls are replaced is of the grammar, where the program with calls is, breaks no rule of calls and has helpers
/// that fit: names with a mark are no reserved words, and a returned variable takes a name that expressions may read.
pub fn inlined_programs_are_of_the_grammar()
    ensures { (p q : PlainProgram) → IsInGrammar p → BreaksNone p → AreFitting p.methods → IsInlined p q → IsInGrammar q }
{}

/// And it can be written as a text, where the program with calls can.
pub fn inlined_programs_are_written()
    ensures { (p q : PlainProgram) → IsWritten p → IsInlined p q → IsWritten q }
{}
