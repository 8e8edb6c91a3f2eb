//! What the worked programs do, as laws that compute. They do nothing.
ghost use Rattle.std.specs.Prelude.{◌≡◌, ℕ, ◌-◌, ◌^◌, pos, negsuc, List, true, false, [], ◌∷◌, codes, bytes_eq};
ghost use Rattle.std.specs.List.{list_any};
ghost use Rattle.qbs_base.specs.declared.scalar.Scalar.TheVariants as scalars;
ghost use Rattle.qbs_base.specs.declared.scalar.Value.TheVariants as values;
ghost use Rattle.java_mean.specs.declared.ending.RunFault.TheVariants as faults;
ghost use Rattle.java_mean.specs.Asks.{frame_of};
ghost use Rattle.java_mean.specs.Copied.{copied, fetched, only_out, before_return, copying, staff_program, in_each_role, counting, counting_program, left_by_loop, left_by_fetch};
ghost use Rattle.java_mean.specs.Expression.{alone};
ghost use Rattle.java_mean.specs.Fits.{IsSeenAlike, FitsIn};
ghost use Rattle.java_mean.specs.Keeps.{Keeps};
ghost use Rattle.java_mean.specs.Mentions.{EachMentioned, EachDeclared};
ghost use Rattle.java_mean.specs.Numbers.{NumbersFit};
ghost use Rattle.java_mean.specs.Outcome.{Done, Faulted, OutOfTurns, outcome};
ghost use Rattle.java_mean.specs.Queries.{Reader};
ghost use Rattle.java_mean.specs.Refines.{GivesWay, behind};
ghost use Rattle.java_mean.specs.Types.{types_of_params, types_past};
ghost use Rattle.java_mean.specs.WellTyped.{IsWellTyped};
ghost use Rattle.sql_ast.specs.Worked.{ann, bob, cat, ann_again, dan, staff_schema};
ghost use Rattle.java_mean.specs.Worked.{staff, payments, long, text, sum_place, class_A, class_B, class_B_turned, class_C, class_D, class_E, class_H, class_J, class_W, forever, name_set, stops_early, user_at, literal, out, u, rows_done, scalar_done};
ghost use Rattle.java_mean.specs.Asked.{asking, staff_text, staff_query, class_A_asking, sum_text, sum_query, loop_place, class_D_asking, count_text, count_query, class_J_asking, names_text, names_query, name_set_asking};

/// Loops that collect, join, find the greatest and add up.
pub fn loops_do_what_they_say()
    ensures selected { outcome staff class_A [] 5 ≡ rows_done (ann ∷ cat ∷ []) }
    ensures joined { outcome staff class_B [] 20 ≡ rows_done (ann ∷ ann ∷ bob ∷ cat ∷ cat ∷ dan ∷ []) }
    ensures joined_turned { outcome staff class_B_turned [] 18 ≡ rows_done (bob ∷ dan ∷ ann ∷ cat ∷ ann ∷ cat ∷ []) }
    ensures greatest { outcome staff class_C [] 5 ≡ scalar_done (long 41) }
    ensures sum { outcome (payments (pos (2 ^ 63 - 2) ∷ pos 1 ∷ [])) class_D [] 2 ≡ scalar_done (long (2 ^ 63 - 1)) }
    ensures sum_in_order { outcome (payments (negsuc 0 ∷ pos (2 ^ 63 - 1) ∷ pos 1 ∷ [])) class_D [] 3 ≡ scalar_done (long (2 ^ 63 - 1)) }
    ensures found { outcome staff class_E [] 14 ≡ rows_done (ann ∷ bob ∷ cat ∷ dan ∷ []) }
    ensures first_by_name { outcome staff (class_H 3 false) [] 3 ≡ rows_done (ann ∷ ann_again ∷ bob ∷ []) }
    ensures last_by_name { outcome staff (class_H 3 true) [] 3 ≡ rows_done (dan ∷ cat ∷ bob ∷ []) }
    ensures all_by_name { outcome staff (class_H 9 false) [] 5 ≡ rows_done (ann ∷ ann_again ∷ bob ∷ cat ∷ dan ∷ []) }
    ensures none_by_name { outcome staff (class_H 0 false) [] 0 ≡ rows_done [] }
    ensures printed { outcome staff class_J [] 20 ≡ Done (codes "2" ∷ codes "1" ∷ codes "2" ∷ codes "0" ∷ codes "1" ∷ []) None }
    ensures counted { outcome staff class_W [] 3 ≡ scalar_done (long 3) }
    ensures names { outcome staff name_set [] 5
        ≡ rows_done (alone (text (codes "ann")) ∷ alone (text (codes "bob")) ∷ alone (text (codes "cat")) ∷ alone (text (codes "dan")) ∷ []) }
{}

/// Turns that run out, and faults at their places.
pub fn runs_end_early()
    ensures selected { outcome staff class_A [] 4 ≡ OutOfTurns }
    ensures found { outcome staff class_E [] 13 ≡ OutOfTurns }
    ensures counted { outcome staff class_W [] 2 ≡ OutOfTurns }
    ensures forever { (n : ℕ) → outcome staff forever [] n ≡ OutOfTurns }
    ensures sum { outcome (payments (pos (2 ^ 63 - 1) ∷ pos 1 ∷ [])) class_D [] 2 ≡ Faulted faults.Overflow sum_place }
    ensures second_operand { outcome staff (stops_early true) [] 0 ≡ Faulted faults.Overflow sum_place }
    ensures first_operand { outcome staff (stops_early false) [] 0 ≡ scalar_done (scalars.Bool false) }
    ensures last_member { outcome staff (user_at (literal (pos 4))) [] 0 ≡ Done [] (Some (values.Whole dan)) }
    ensures past_the_end { outcome staff (user_at (literal (pos 5))) [] 0 ≡ Faulted faults.OutOfRange sum_place }
    ensures before_the_start { outcome staff (user_at (literal (negsuc 0))) [] 0 ≡ Faulted faults.OutOfRange sum_place }
{}

/// The same with queries in place of loops.
pub fn queries_do_what_loops_do()
    ensures selected { outcome (asking staff staff_text staff_query) class_A_asking [] 0 ≡ rows_done (ann ∷ cat ∷ []) }
    ensures sum { outcome (asking (payments (negsuc 0 ∷ pos (2 ^ 63 - 1) ∷ pos 1 ∷ [])) sum_text sum_query) class_D_asking [] 0 ≡ scalar_done (long (2 ^ 63 - 1)) }
    ensures too_large { outcome (asking (payments (pos (2 ^ 63 - 1) ∷ pos 1 ∷ [])) sum_text sum_query) class_D_asking [] 0 ≡ Faulted faults.SumTooLarge loop_place }
    ensures counted { outcome (asking staff count_text count_query) class_J_asking [] 5 ≡ Done (codes "2" ∷ codes "1" ∷ codes "2" ∷ codes "0" ∷ codes "1" ∷ []) None }
    ensures names { outcome (asking staff names_text names_query) name_set_asking [] 0
        ≡ rows_done (alone (text (codes "ann")) ∷ alone (text (codes "bob")) ∷ alone (text (codes "cat")) ∷ alone (text (codes "dan")) ∷ []) }
{}

/// A loop that copies a table, as an example of statements that give way to others: each leave a variable
/// that the others don't, and what stands behind them mentions the one that they leave alike.
pub fn loops_give_way_to_fetches()
    ensures mentioned { EachMentioned (λ x. list_any (bytes_eq x) (codes "users" ∷ out ∷ u ∷ []) ≡ true) copied }
    ensures left_by_loop { types_past staff_schema (λ x. None) fetched (codes "users") ≡ None }
    ensures left_by_fetch { types_past staff_schema (λ x. None) copied (codes "all") ≡ None }
    ensures old_typed { (reader : Reader staff_schema) → IsWellTyped staff_schema reader.read (staff_program copied) }
    ensures new_typed { (reader : Reader staff_schema) → IsWellTyped staff_schema reader.read (staff_program fetched) }
    ensures old_fits { NumbersFit (staff_program copied) }
    ensures new_fits { NumbersFit (staff_program fetched) }
    ensures gives_way { (reader : Reader staff_schema)
        → GivesWay (frame_of staff_schema reader.read copying) None (types_of_params staff_schema copying.params) before_return copied fetched only_out }
    ensures kept { Keeps (staff_program copied) (staff_program fetched) staff_schema }
{}

/// The same two lists of statements as an example of statements that fit in, at the head of a method's block
/// and in a loop, where what stands behind them declares a variable.
pub fn fetches_fit_in()
    ensures in_block { (reader : Reader staff_schema) → FitsIn staff_schema reader.read copying before_return copied fetched }
    ensures in_loop { (reader : Reader staff_schema) → FitsIn staff_schema reader.read counting in_each_role copied fetched }
    ensures before { (reader : Reader staff_schema) → IsWellTyped staff_schema reader.read (counting_program copied) }
    ensures after { (reader : Reader staff_schema) → IsWellTyped staff_schema reader.read (counting_program fetched) }
    ensures mentioned { EachMentioned (IsSeenAlike left_by_loop left_by_fetch) (behind in_each_role) }
    ensures declared { EachDeclared (IsSeenAlike left_by_loop left_by_fetch) (behind in_each_role) }
{}
