//! Worked programs, as laws that compute. They do nothing.
ghost use Rattle.std.specs.Prelude.{◌≡◌, ◌∷◌, []};
ghost use Rattle.std.specs.declared.option.Option.TheVariants.{Some};
ghost use Rattle.sql_ast.specs.Worked.{staff_schema};
ghost use Rattle.java_mean.specs.Keeps.{Keeps};
ghost use Rattle.java_mean.specs.Numbers.{NumbersFit};
ghost use Rattle.java_mean.specs.Queries.{Reader};
ghost use Rattle.java_mean.specs.WellTyped.{IsWellTyped};
ghost use Rattle.spreads.specs.Narrowed.{narrowed_at};
ghost use Rattle.spreads.specs.WorkedNarrow.{users, users_asked};
ghost use Rattle.narrowings.specs.Words.{HasWords};
ghost use Rattle.narrowings.specs.Worked.{collecting, collecting_listed};
ghost use Rattle.java_grammar.specs.InGrammar.{IsInGrammar};
ghost use Rattle.java_grammar.specs.Written.{IsWritten};

/// The worked program meets what the laws ask of one, and keeps what it does where its walk is narrowed.
pub fn worked_programs_are_narrowed()
    ensures words { HasWords staff_schema }
    ensures typed { (reader : Reader staff_schema) → IsWellTyped staff_schema reader.read (collecting users) }
    ensures numbers { NumbersFit (collecting users) }
    ensures narrowed { narrowed_at staff_schema (0 ∷ 1 ∷ []) (collecting users) ≡ Some (collecting users_asked) }
    ensures kept { Reader staff_schema → Keeps (collecting users) (collecting users_asked) staff_schema }
    ensures after { (reader : Reader staff_schema) → IsWellTyped staff_schema reader.read (collecting users_asked) }
{}

/// So does one whose list is declared before the walk.
pub fn worked_lists_are_narrowed()
    ensures typed { (reader : Reader staff_schema) → IsWellTyped staff_schema reader.read (collecting_listed users) }
    ensures numbers { NumbersFit (collecting_listed users) }
    ensures narrowed { narrowed_at staff_schema (0 ∷ 2 ∷ []) (collecting_listed users) ≡ Some (collecting_listed users_asked) }
    ensures kept { Reader staff_schema → Keeps (collecting_listed users) (collecting_listed users_asked) staff_schema }
    ensures after { (reader : Reader staff_schema) → IsWellTyped staff_schema reader.read (collecting_listed users_asked) }
{}

/// The worked program is of the grammar and can be written, and so it is where its walk is narrowed.
pub fn worked_programs_are_written()
    ensures before { IsInGrammar (collecting users) × IsWritten (collecting users) }
    ensures after { Reader staff_schema → IsInGrammar (collecting users_asked) × IsWritten (collecting users_asked) }
{}
