//! Laws of loops that count, and of what statements leave as it is. They do nothing.
ghost use Rattle.std.specs.Prelude.{◌≡◌, ℕ, pos, Bool, false, List, Ok};
ghost use Rattle.std.specs.declared.option.Option.{Option};
ghost use Rattle.std.specs.declared.option.Option.TheVariants.{Some};
ghost use Rattle.qbs_base.specs.declared.scalar.Scalar.TheVariants as scalars;
ghost use Rattle.qbs_base.specs.declared.scalar.Row.{Row};
ghost use Rattle.qbs_base.specs.declared.scalar.Value.TheVariants.{One, Many};
ghost use Rattle.qbs_base.specs.Named.{at_name};
ghost use Rattle.java_ast.specs.Tree.{Spelled, Expression, Statement, Statements};
ghost use Rattle.java_mean.specs.Refines.{Passes, Follows, Simulates};
ghost use Rattle.java_mean.specs.Statement.{State, GoesOn, each, meaning, meanings};
ghost use Rattle.java_mean.specs.Store.{Variable};
ghost use Rattle.java_mean.specs.World.{World};
ghost use Rattle.kernel_lang.specs.Given.{cut};
ghost use Rattle.java_loops.specs.Walks.Reads.{Set, AllWithin, touches, all_touch, other_than};
ghost use Rattle.java_loops.specs.Walks.Counting.{SameState, same_ways, CountPlaces, counting_loop, IsCounting, IsCountingText};

/// Statements that pass leave each variable that they don't touch, and variables that they don't mention
/// don't matter to them: they do the same in states that are the same in all others.
pub fn other_variables_stay()
    ensures untouched { (w : World) (a : Statement) (s t : State) (y : List ℕ)
        → touches a y ≡ false
        → meaning a w s ≡ Ok (GoesOn t)
        → at_name t.store y ≡ at_name s.store y }
    ensures all_untouched { (w : World) (p : Statements) (s t : State) (y : List ℕ)
        → all_touch p y ≡ false
        → meanings p w s ≡ Ok (GoesOn t)
        → at_name t.store y ≡ at_name s.store y }
    ensures unmentioned { (p : Statements) (f : Set) (w : World) → AllWithin f p → Simulates (SameState f) (SameState f) (same_ways f) (meanings p w) (meanings p w) }
{}

/// Where a loop that counts from 0 through a list passes, the walk over the rows of the list, cut to the
/// loop's limit, passes in the same way, with the same lines and turns, and leaves the same in all variables but
/// the counter.
/// The loop's text tells which loops count so.
pub fn loops_that_count_walk()
    ensures walks { (w : World) (ty : Spelled) (i xs x : List ℕ) (limit : Option ℕ) (c : Expression) (body : Statements)
        → IsCounting w ty i xs x limit c body
        → (at : CountPlaces) (rows : List Row) (s : State) (counter list : Variable)
        → at_name s.store i ≡ Some counter
        → counter.value ≡ One (scalars.Long (pos 0))
        → at_name s.store xs ≡ Some list
        → list.value ≡ Many rows
        → (t : State)
        → meaning (counting_loop at ty i xs x c body) w s ≡ Ok (GoesOn t)
        → Passes (SameState (other_than i)) GoesOn t (each (cut limit rows) x (meanings body w) s) }
    ensures follows { (w : World) (ty : Spelled) (i xs x : List ℕ) (limit : Option ℕ) (c : Expression) (body : Statements)
        → IsCounting w ty i xs x limit c body
        → (at : CountPlaces) (rows : List Row) (s : State) (counter list : Variable)
        → at_name s.store i ≡ Some counter
        → counter.value ≡ One (scalars.Long (pos 0))
        → at_name s.store xs ≡ Some list
        → list.value ≡ Many rows
        → Follows (SameState (other_than i)) (same_ways (other_than i)) (meaning (counting_loop at ty i xs x c body) w s) (each (cut limit rows) x (meanings body w) s) }
    ensures by_text { (w : World) (ty : Spelled) (i xs x : List ℕ) (limit : Option ℕ) (c : Expression) (body : Statements)
        → IsCountingText ty i xs x limit c body
        → IsCounting w ty i xs x limit c body }
{}
