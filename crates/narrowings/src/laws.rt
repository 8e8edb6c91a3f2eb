//! Laws of narrowed programs, for the crates above. They do nothing.
ghost use Rattle.std.specs.Prelude.{◌≡◌, ℕ, List};
ghost use Rattle.std.specs.declared.option.Option.TheVariants.{Some};
ghost use Rattle.qbs_base.specs.Values.{Schema};
ghost use Rattle.java_ast.specs.Tree.{PlainProgram};
ghost use Rattle.java_mean.specs.Keeps.{Keeps};
ghost use Rattle.java_mean.specs.Numbers.{NumbersFit};
ghost use Rattle.java_mean.specs.Queries.{Reader};
ghost use Rattle.java_mean.specs.WellTyped.{IsWellTyped};
ghost use Rattle.spreads.specs.Narrowed.{narrowed_at};
ghost use Rattle.narrowings.specs.Words.{HasWords};
ghost use Rattle.schema.specs.Rules.{IsSchema, AreNamed};
ghost use Rattle.java_grammar.specs.InGrammar.{IsInGrammar};
ghost use Rattle.java_grammar.specs.Written.{IsWritten};

/// A well-typed program keeps what it does where a walk over a table is narrowed to the rows that it wants: wherever it is done, the
/// narrowed one is done with the same lines and the same value.
pub fn narrowed_programs_keep()
    ensures { (schema : Schema) (reader : Reader schema) (p q : PlainProgram) (path : List ℕ)
        → HasWords schema
        → IsWellTyped schema reader.read p
        → NumbersFit p
        → narrowed_at schema path p ≡ Some q
        → Keeps p q schema }
{}

/// The narrowed program is well typed, and its literals have 64 bits.
pub fn narrowed_programs_are_well_typed()
    ensures typed { (schema : Schema) (reader : Reader schema) (p q : PlainProgram) (path : List ℕ)
        → HasWords schema
        → IsWellTyped schema reader.read p
        → NumbersFit p
        → narrowed_at schema path p ≡ Some q
        → IsWellTyped schema reader.read q }
    ensures numbers { (schema : Schema) (reader : Reader schema) (p q : PlainProgram) (path : List ℕ)
        → HasWords schema
        → IsWellTyped schema reader.read p
        → NumbersFit p
        → narrowed_at schema path p ≡ Some q
        → NumbersFit q }
{}

/// The tables and columns of a schema that was read have names that queries may have.
pub fn schemas_have_words()
    ensures { (schema : Schema) → IsSchema schema → AreNamed schema → HasWords schema }
{}

/// A narrowed program is of the grammar and can be written as a text, where the program is and can: its canonical text has it. The
/// arguments of the query stood in the condition before, and its text is UTF-8.
pub fn narrowed_programs_are_written()
    ensures { (schema : Schema) (reader : Reader schema) (p q : PlainProgram) (path : List ℕ)
        → HasWords schema
        → IsWellTyped schema reader.read p
        → NumbersFit p
        → narrowed_at schema path p ≡ Some q
        → IsInGrammar p
        → IsWritten p
        → IsInGrammar q × IsWritten q }
{}
