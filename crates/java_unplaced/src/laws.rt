//! Laws of programs that are equal but for places, for the crates above. They do nothing.
ghost use Rattle.std.specs.Prelude.{◌≡◌, ℕ, List, Option};
ghost use Rattle.qbs_base.specs.declared.scalar.Scalar.{Scalar};
ghost use Rattle.qbs_base.specs.Values.{Schema};
ghost use Rattle.java_ast.specs.Tree.{PlainMethod, PlainProgram};
ghost use Rattle.java_ast.specs.Unplaced.{unplaced_method, unplaced_program};
ghost use Rattle.java_mean.specs.Keeps.{Keeps};
ghost use Rattle.java_mean.specs.Outcome.{outcome};
ghost use Rattle.java_mean.specs.WellTyped.{IsWellTyped};
ghost use Rattle.java_mean.specs.World.{World};
ghost use Rattle.sql_ast.specs.Tree.{PlainQuery};
ghost use Rattle.java_unplaced.specs.Outcomes.{outcome_nowhere};

/// Methods that are equal but for places come to the same, each fault at its own place.
#[tactic(auto, using(crate::proofs::Kept::outcomes_alike))]
pub fn methods_but_for_places_come_to_the_same()
    ensures { (w : World) (m m' : PlainMethod) (args : List Scalar) (n : ℕ)
        → unplaced_method m ≡ unplaced_method m'
        → outcome_nowhere (outcome w m args n) ≡ outcome_nowhere (outcome w m' args n) }
{}

/// Programs that are equal but for places keep each other.
#[tactic(auto, using(crate::proofs::Kept::keep_alike))]
pub fn programs_but_for_places_keep_each_other()
    ensures { (schema : Schema) (p q : PlainProgram) → unplaced_program p ≡ unplaced_program q → Keeps p q schema }
{}

/// Programs that are equal but for places are well typed alike.
#[tactic(auto, using(crate::proofs::Typed::well_typed_alike))]
pub fn programs_but_for_places_are_well_typed_alike()
    ensures { (schema : Schema) (read : List ℕ → Option PlainQuery) (p q : PlainProgram)
        → unplaced_program p ≡ unplaced_program q
        → IsWellTyped schema read p
        → IsWellTyped schema read q }
{}
