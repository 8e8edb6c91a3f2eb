//! Laws of runs: the declarations, assignments and sorts before a loop. They do nothing.
ghost use Rattle.std.specs.Prelude.{◌≡◌, ℕ, Bool, true, false, List, [], ◌∷◌, ◌++◌, Option, Some, Ok};
ghost use Rattle.qbs_base.specs.declared.span.Span.{Span};
ghost use Rattle.qbs_base.specs.declared.scalar.Value.{Value};
ghost use Rattle.qbs_base.specs.Named.{at_name};
ghost use Rattle.qbs_base.specs.Sort.{stable_sort};
ghost use Rattle.java_ast.specs.Tree.{Spelled, Expression, Declare, Assign, Fetch, Sort, Statement, Statements, Then};
ghost use Rattle.java_mean.specs.Expression.{value_of};
ghost use Rattle.java_mean.specs.Refines.{followed_by};
ghost use Rattle.java_mean.specs.Statement.{State, Passed, GoesOn, in_order, is_set_type, meanings};
ghost use Rattle.java_mean.specs.Store.{Variable};
ghost use Rattle.java_mean.specs.World.{World};
ghost use Rattle.java_loops.specs.Walks.Reads.{Set, Reads};
ghost use Rattle.loop_text.specs.Statements.Fragment.{are_simple};
ghost use Rattle.java_loops.specs.Walks.Runs.{is_set_in, settings, SplitsAt, unset_in, set_held, constant, Gives, IsSilent, IsGiven, IsSorted, HasRows, kept, KeptRead, KeptPasses};

/// A run never prints, takes no turn, leaves no loop and returns nothing. The variables that none of its
/// statements sets are as they were.
#[tactic(auto, using(crate::proofs::Walks::Passing::run_silent, crate::proofs::Walks::Passing::run_unset))]
pub fn runs_set_variables_alone()
    ensures silent { (w : World) (run : Statements) (s : State) (q : Passed) → are_simple run ≡ true → meanings run w s ≡ Ok q → IsSilent s q }
    ensures unset { (w : World) (run : Statements) (s t : State) (x : List ℕ)
        → are_simple run ≡ true
        → meanings run w s ≡ Ok (GoesOn t)
        → is_set_in run x ≡ false
        → at_name t.store x ≡ at_name s.store x }
{}

/// Where a run passes, a variable holds at its end what the last statement that sets it gives it: the
/// value of the expression where the run comes to the statement, and the expression's value at the end too
/// where no statement from there on sets what it reads. A literal and a new list or set are given as they are.
pub fn last_statements_give_values()
    ensures given { (w : World) (before : Statements) (a : Statement) (x : List ℕ) (e : Expression) (after : Statements) (s t : State)
        → Gives a x e
        → are_simple (followed_by before (Then a after)) ≡ true
        → is_set_in after x ≡ false
        → meanings (followed_by before (Then a after)) w s ≡ Ok (GoesOn t)
        → IsGiven w before a x e s t }
    ensures still { (w : World) (before : Statements) (a : Statement) (x : List ℕ) (e : Expression) (after : Statements) (s t : State)
        → Gives a x e
        → are_simple (followed_by before (Then a after)) ≡ true
        → is_set_in after x ≡ false
        → Reads (unset_in (Then a after)) e
        → meanings (followed_by before (Then a after)) w s ≡ Ok (GoesOn t)
        → (held : Variable) × (at_name t.store x ≡ Some held) × (value_of e w t.store ≡ Ok held.value) }
    ensures declared { (w : World) (before : Statements) (at : Span) (ty : Spelled) (x : List ℕ) (e : Expression) (v : Value) (after : Statements) (s t : State)
        → constant e ≡ Some v
        → are_simple (followed_by before (Then (Declare at ty x e) after)) ≡ true
        → is_set_in after x ≡ false
        → meanings (followed_by before (Then (Declare at ty x e) after)) w s ≡ Ok (GoesOn t)
        → at_name t.store x ≡ Some (record { value = v; is_set = is_set_type ty }) }
    ensures assigned { (w : World) (before : Statements) (at : Span) (x : List ℕ) (e : Expression) (v : Value) (after : Statements) (s t : State)
        → constant e ≡ Some v
        → are_simple (followed_by before (Then (Assign at x e) after)) ≡ true
        → is_set_in after x ≡ false
        → meanings (followed_by before (Then (Assign at x e) after)) w s ≡ Ok (GoesOn t)
        → (start : State)
        × (meanings before w s ≡ Ok (GoesOn start))
        × (at_name t.store x ≡ Some (record { value = v; is_set = set_held (at_name start.store x) })) }
{}

/// A variable that is fetched last holds the table's rows, and one that is fetched and then sorted holds them
/// in the order of the keys, equal rows as they stand in the table.
pub fn fetched_rows_are_the_tables()
    ensures fetched { (w : World) (before : Statements) (a : Statement) (at : Span) (table x : List ℕ) (after : Statements) (s t : State)
        → Gives a x (Fetch at table)
        → are_simple (followed_by before (Then a after)) ≡ true
        → is_set_in after x ≡ false
        → meanings (followed_by before (Then a after)) w s ≡ Ok (GoesOn t)
        → HasRows w table x (λ rows. rows) t }
    ensures fetched_sorted { (w : World) (before : Statements) (a : Statement) (at at_sort : Span) (table x : List ℕ) (between : Statements) (keys : List (List ℕ))
        (down : List Bool) (after : Statements) (s t : State)
        → Gives a x (Fetch at table)
        → are_simple (followed_by before (Then a (followed_by between (Then (Sort at_sort x keys down) after)))) ≡ true
        → is_set_in between x ≡ false
        → is_set_in after x ≡ false
        → meanings (followed_by before (Then a (followed_by between (Then (Sort at_sort x keys down) after)))) w s ≡ Ok (GoesOn t)
        → HasRows w table x (stable_sort (in_order w.schema keys down)) t }
    ensures sorted { (w : World) (before : Statements) (at : Span) (x : List ℕ) (keys : List (List ℕ)) (down : List Bool) (after : Statements) (s t : State)
        → are_simple (followed_by before (Then (Sort at x keys down) after)) ≡ true
        → is_set_in after x ≡ false
        → meanings (followed_by before (Then (Sort at x keys down) after)) w s ≡ Ok (GoesOn t)
        → IsSorted w before x keys down s t }
{}

/// The statements of a run that set a variable tell where the run splits: at any of them, with the ones before
/// it and after it on either side. Where there is none the variable isn't set.
#[tactic(auto, using(crate::proofs::Walks::Splits::splits, crate::proofs::Walks::Splits::none_unset))]
pub fn runs_split_where_a_variable_is_set()
    ensures splits { (run : Statements) (x : List ℕ) (first : List Statement) (a : Statement) (last : List Statement)
        → settings run x ≡ first ++ a ∷ last
        → SplitsAt run x first a last }
    ensures none { (run : Statements) (x : List ℕ) → settings run x ≡ [] → is_set_in run x ≡ false }
{}

/// Where a run passes, its statements on the variables of a set pass too, with the same lines and turns,
/// and leave the same in each variable of the set, if they read variables of the set alone.
#[tactic(auto, using(crate::proofs::Walks::KeptRuns::kept_passes))]
pub fn kept_statements_leave_the_same()
    ensures { (w : World) (r : Set) (run : Statements) (s t : State)
        → are_simple run ≡ true
        → KeptRead r run
        → meanings run w s ≡ Ok (GoesOn t)
        → KeptPasses w r (kept r run) s t }
{}
