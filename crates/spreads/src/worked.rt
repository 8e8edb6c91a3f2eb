//! Worked loops, as laws that compute. They do nothing.
ghost use Rattle.std.specs.Prelude.{◌≡◌, ◌∷◌, []};
ghost use Rattle.std.specs.declared.option.Option.TheVariants.{Some, None};
ghost use Rattle.sql_ast.specs.Worked.{staff_schema};
ghost use Rattle.java_ast.specs.Tree.{PlainMethod, Nothing, Then};
ghost use Rattle.java_mean.specs.Asks.{frame_of};
ghost use Rattle.java_mean.specs.Numbers.{NumbersFit};
ghost use Rattle.java_mean.specs.Queries.{Reader};
ghost use Rattle.java_mean.specs.Typing.{TypedStatement};
ghost use Rattle.java_mean.specs.WellTyped.{IsWellTyped};
ghost use Rattle.spreads.specs.Covers.{Covers};
ghost use Rattle.spreads.specs.Narrowed.{narrowed_at};
ghost use Rattle.spreads.specs.Spread.{spread_of};
ghost use Rattle.spreads.specs.Worked.{asking, declaring, spread_out, with_out, labelling};
ghost use Rattle.spreads.specs.WorkedNarrow.{program_of, walking, declaring as declaring_users, users, users_asked};

/// The worked loop is spread so, also where its list is declared before; the spread itself has no select.
pub fn worked_loops_are_spread()
    ensures direct { (reader : Reader staff_schema) → spread_of staff_schema reader.read asking ≡ Some spread_out }
    ensures declared { (reader : Reader staff_schema) → spread_of staff_schema reader.read declaring ≡ Some spread_out }
    ensures none { (reader : Reader staff_schema) → spread_of staff_schema reader.read spread_out ≡ None }
{}

/// The worked loop is typed where its list is visible, so that the spread covers it.
pub fn worked_loops_are_covered()
    ensures typed { (reader : Reader staff_schema) (m : PlainMethod)
        → TypedStatement (frame_of staff_schema reader.read m) None with_out asking with_out }
    ensures covered { (reader : Reader staff_schema) (m : PlainMethod)
        → Covers (frame_of staff_schema reader.read m) None with_out with_out (Then asking Nothing) (Then spread_out Nothing) }
{}

/// The program of the worked loop is well typed and its literals have 64 bits, also where the list is declared before, and so are they with the
/// spread in the loop's place.
pub fn worked_programs_stay_well_typed()
    ensures direct { (reader : Reader staff_schema) → IsWellTyped staff_schema reader.read (labelling asking) × NumbersFit (labelling asking) }
    ensures declared { (reader : Reader staff_schema) → IsWellTyped staff_schema reader.read (labelling declaring) × NumbersFit (labelling declaring) }
    ensures after { (reader : Reader staff_schema) → IsWellTyped staff_schema reader.read (labelling spread_out) × NumbersFit (labelling spread_out) }
{}

/// The worked walk asks for the rows that the plain parts of its condition want, also where its list is declared before. What is narrowed
/// isn't narrowed again.
pub fn worked_walks_are_narrowed()
    ensures direct { narrowed_at staff_schema (0 ∷ 0 ∷ []) (program_of (walking users)) ≡ Some (program_of (walking users_asked)) }
    ensures declared { narrowed_at staff_schema (0 ∷ 1 ∷ []) (program_of (declaring_users users)) ≡ Some (program_of (declaring_users users_asked)) }
    ensures none { narrowed_at staff_schema (0 ∷ 0 ∷ []) (program_of (walking users_asked)) ≡ None }
{}
