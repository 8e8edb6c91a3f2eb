//! A nest of loops makes of each variable what it makes of it by itself, as laws. They do nothing.
ghost use Rattle.std.specs.Prelude.{◌≡◌, ◌≢◌, ℕ, pos, true, false, List, [], ◌∷◌, Option, Some, None, Ok};
ghost use Rattle.qbs_base.specs.declared.scalar.Row.{Row};
ghost use Rattle.qbs_base.specs.declared.scalar.Scalar.TheVariants as scalars;
ghost use Rattle.qbs_base.specs.declared.scalar.Value.{Value};
ghost use Rattle.qbs_base.specs.declared.scalar.Value.TheVariants as values;
ghost use Rattle.qbs_base.specs.Named.{at_name};
ghost use Rattle.java_ast.specs.Tree.{Statement, Statements};
ghost use Rattle.java_mean.specs.Expression.{element};
ghost use Rattle.java_mean.specs.Statement.{State, Passed, GoesOn, Leaves, Returns, each, meaning, meanings};
ghost use Rattle.java_mean.specs.Store.{Store, Variable, put, plainly};
ghost use Rattle.java_mean.specs.World.{World};
ghost use Rattle.sql_ast.specs.Worked.{ann, bob, cat, dan};
ghost use Rattle.java_mean.specs.Worked.{staff, long, out, class_C, class_E};
ghost use Rattle.java_loops.specs.Walks.Effects.{sets, all_set, folded, effect, effects};
ghost use Rattle.java_loops.specs.Walks.Left.{Left, LeftWith, Marked, Have, Distinct, GoneOn};
ghost use Rattle.java_loops.specs.Walks.Reads.{SameOn, Set};
ghost use Rattle.java_loops.specs.Walks.Nests.{with_name, is_among, Apart, seen, Mark, IsNest, AreNest};
ghost use Rattle.java_loops.specs.Walks.Worked.{first_loop, roles, best, all, all_active, with_roles};

/// Where a statement of a nest goes on, each accumulator has become what its own effect says, from any values
/// of what the nest leaves as it is. Nothing is printed, and no turns are made. The same holds of the
/// statements of a block with flags, where they go on and where they leave the innermost loop.
pub fn nests_leave_variables_alone()
    ensures statement { (p : Statement) (a f : Set) (m : Option Mark)
        → IsNest p a f m
        → Apart a f
        → (w : World) (s t : State)
        → meaning p w s ≡ Ok (GoesOn t)
        → Left a f (effect p w) s t }
    ensures becomes { (p : Statement) (a f : Set) (m : Option Mark)
        → IsNest p a f m
        → Apart a f
        → (w : World) (s t : State)
        → meaning p w s ≡ Ok (GoesOn t)
        → (x : List ℕ)
        → a x ≡ true
        → (v : Variable)
        → at_name s.store x ≡ Some v
        → at_name t.store x ≡ effect p w x s.store v }
    ensures block { (p : Statements) (a f : Set) (bs : List (List ℕ)) (m : Option Mark)
        → AreNest p a f bs m
        → Apart a (seen f bs)
        → Distinct f bs
        → (w : World) (s t : State)
        → Have bs s.store
        → meanings p w s ≡ Ok (GoesOn t)
        → LeftWith a f (seen f bs) (effects p bs w) s t }
    ensures leaving { (p : Statements) (a f : Set) (bs : List (List ℕ)) (m : Option Mark)
        → AreNest p a f bs m
        → Apart a (seen f bs)
        → Distinct f bs
        → (w : World) (s t : State)
        → Have bs s.store
        → meanings p w s ≡ Ok (Leaves t)
        → LeftWith a f (seen f bs) (effects p bs w) s t × Marked m t.store }
{}

/// A loop over rows makes of each accumulator what its body makes of it at one row after the other, to the
/// last one, even if a `break` ends the loop before.
pub fn loops_leave_variables_alone()
    ensures { (rows : List Row) (x : List ℕ) (b : Statements) (a f : Set) (m : Option Mark)
        → a x ≡ false
        → f x ≡ false
        → AreNest b a (with_name x f) [] m
        → Apart a f
        → (w : World) (s t : State)
        → each rows x (meanings b w) s ≡ Ok (GoesOn t)
        → Left a f (λ z env v. folded rows (λ row. effects b [] w z (put env x (plainly (element row)))) v) s t }
{}

/// A nest that passes goes on: it never returns, and it leaves no loop that stands round it. Inside a loop
/// its statements never return.
#[tactic(auto, using(crate::proofs::Walks::Becoming::nest_goes_on, crate::proofs::Walks::Becoming::each_goes_on, crate::proofs::Walks::Becoming::never_returns))]
pub fn nests_go_on()
    ensures statement { (p : Statement) (a f : Set)
        → IsNest p a f None
        → Apart a f
        → (w : World) (s : State) (z : Passed)
        → meaning p w s ≡ Ok z
        → GoneOn a f (effect p w) s z }
    ensures inside { (p : Statements) (a f : Set) (bs : List (List ℕ)) (m : Option Mark)
        → AreNest p a f bs m
        → Apart a (seen f bs)
        → Distinct f bs
        → (w : World) (s t : State) (v : Option Value)
        → Have bs s.store
        → meanings p w s ≢ Ok (Returns t v) }
    ensures rows { (rows : List Row) (x : List ℕ) (b : Statements) (a f : Set) (m : Option Mark)
        → a x ≡ false
        → f x ≡ false
        → AreNest b a (with_name x f) [] m
        → Apart a f
        → (w : World) (s : State) (z : Passed)
        → each rows x (meanings b w) s ≡ Ok z
        → GoneOn a f (λ y env v. folded rows (λ row. effects b [] w y (put env x (plainly (element row)))) v) s z }
{}

/// Statements make nothing of a variable that they don't set. What they make of an accumulator depends on
/// its value and on what the nest leaves as it is.
#[tactic(auto, using(crate::proofs::Walks::Unset::unset, crate::proofs::Walks::Unset::all_unset, crate::proofs::Walks::Effects::effect_on, crate::proofs::Walks::Effects::effects_on))]
pub fn effects_depend_on_what_is_read()
    ensures not_set { (p : Statement) (w : World) (x : List ℕ) (env : Store) (v : Variable) → sets p x ≡ false → effect p w x env v ≡ Some v }
    ensures none_set { (p : Statements) (bs : List (List ℕ)) (w : World) (x : List ℕ) (env : Store) (v : Variable)
        → all_set p x ≡ false
        → effects p bs w x env v ≡ Some v }
    ensures read { (p : Statement) (a f : Set) (m : Option Mark)
        → IsNest p a f m
        → (w : World) (x : List ℕ)
        → a x ≡ true
        → (env other : Store) (v : Variable)
        → SameOn f env other
        → effect p w x env v ≡ effect p w x other v }
    ensures all_read { (p : Statements) (a f : Set) (bs : List (List ℕ)) (m : Option Mark)
        → AreNest p a f bs m
        → (w : World) (x : List ℕ)
        → a x ≡ true
        → (env other : Store) (v : Variable)
        → SameOn (seen f bs) env other
        → effects p bs w x env v ≡ effects p bs w x other v }
{}

/// A loop with a flag and a `break` is a nest, and so are one that keeps the greatest value, whose condition
/// reads its accumulator, and one that a `break` ends itself. Their effects on the worked tables.
pub fn worked_loops_are_nests()
    ensures flagged { IsNest (first_loop class_E.body) (is_among (out ∷ [])) (is_among (roles ∷ [])) None }
    ensures flagged_effect { effect (first_loop class_E.body) staff out with_roles (plainly (values.Many [])) ≡ Some (plainly (values.Many (ann ∷ bob ∷ cat ∷ dan ∷ []))) }
    ensures greatest { IsNest (first_loop class_C.body) (is_among (best ∷ [])) (is_among []) None }
    ensures greatest_effect { effect (first_loop class_C.body) staff best [] (plainly (values.One (long 10))) ≡ Some (plainly (values.One (long 41))) }
    ensures early { IsNest all_active (is_among (all ∷ [])) (is_among []) None }
    ensures early_effect { effect all_active staff all [] (plainly (values.One (scalars.Bool true))) ≡ Some (plainly (values.One (scalars.Bool false))) }
{}
