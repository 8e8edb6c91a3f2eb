//! Laws of calls and of inlined programs, for the crates above. They do nothing.
ghost use Rattle.std.specs.Prelude.{◌≡◌, ℕ, List, [], Ok};
ghost use Rattle.std.specs.List.{AllByRecursion};
ghost use Rattle.std.specs.declared.option.Option.TheVariants.{Some};
ghost use Rattle.qbs_base.specs.declared.scalar.Scalar.{Scalar};
ghost use Rattle.qbs_base.specs.declared.scalar.Value.{Value};
ghost use Rattle.qbs_base.specs.Named.{at_name};
ghost use Rattle.qbs_base.specs.Values.{Schema};
ghost use Rattle.java_ast.specs.Tree.{Expression, Statements, PlainMethod, PlainProgram};
ghost use Rattle.java_mean.specs.Expression.{value_of};
ghost use Rattle.java_mean.specs.Outcome.{outcome};
ghost use Rattle.java_mean.specs.Statement.{State, meanings};
ghost use Rattle.java_mean.specs.Store.{Store, Variable};
ghost use Rattle.java_mean.specs.World.{World};
ghost use Rattle.java_calls.specs.Calling.{Callee, meanings_with, outcome_with};
ghost use Rattle.java_calls.specs.Fitting.{AreFitting};
ghost use Rattle.java_calls.specs.Inlining.{IsInlined};
ghost use Rattle.java_calls.specs.KeepsCalls.{KeepsCalls};
ghost use Rattle.java_calls.specs.Renaming.{Renaming, renamed};
ghost use Rattle.java_calls.specs.Rules.{sites_of, BreaksNone};

/// Where no call stands, statements do what they do in java_mean, whatever calls come to, and so does a method.
pub fn statements_without_calls_mean_the_same()
    ensures meaning { (callee : Callee) (w : World) (p : Statements) (s : State) → sites_of p ≡ [] → meanings_with callee p w s ≡ meanings p w s }
    ensures outcome { (depth : ℕ) (w : World) (ms : List PlainMethod) (m : PlainMethod) (args : List Scalar) (n : ℕ) → sites_of m.body ≡ [] → outcome_with depth w ms m args n ≡ outcome w m args n }
{}

/// A value in a store is the value, renamed, in a store that includes it.
pub fn renamed_expressions_have_their_values()
    ensures { (f : Renaming) (t s : Store) → ((x : List ℕ) (v : Variable) → at_name t x ≡ Some v → at_name s (f x) ≡ Some v)
        → (w : World) (e : Expression) (v : Value) → value_of e w t ≡ Ok v → value_of (renamed f e) w s ≡ Ok v }
{}

/// The program in which the bodies of helpers stand in for their calls keeps what the program with calls does, for any number of open calls,
/// where no rule is broken and the helpers fit.
pub fn inlined_programs_keep()
    ensures { (schema : Schema) (p q : PlainProgram) → BreaksNone p → AreFitting p.methods → IsInlined p q → KeepsCalls p q schema }
{}

/// No call is left in the inlined program, where no rule is broken.
pub fn inlined_programs_have_no_calls()
    ensures { (p q : PlainProgram) → BreaksNone p → IsInlined p q → AllByRecursion (λ (m : PlainMethod). sites_of m.body ≡ []) q.methods }
{}

/// There is one inlined program, however many calls may stand in calls.
pub fn inlined_programs_are_one()
    ensures { (p q r : PlainProgram) → IsInlined p q → IsInlined p r → q ≡ r }
{}
