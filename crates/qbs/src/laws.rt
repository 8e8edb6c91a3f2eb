//! Laws of the top call. They do nothing.
ghost use Rattle.std.specs.Prelude.{◌≡◌, ℕ, Bool, List, Option, IsSome, true, false};
ghost use Rattle.qbs_base.specs.declared.status.Status.{Status};
ghost use Rattle.words.specs.declared.command.Options.{Options};
ghost use Rattle.plans.specs.Calls.{Call};
ghost use Rattle.plans.specs.Tables.{IsTableFile};
ghost use Rattle.deliveries.specs.declared.plan.Plan.{Plan};
ghost use Rattle.qbs.specs.Run.{run};

/// Wherever a run ends without fault, the run of the rewritten program writes the same.
pub fn rewritten_runs_are_alike()
    ensures { (told : List ℕ → Option (List ℕ)) (failing : List ℕ → Bool) (o : Options) (schema source folder : List ℕ) (call : Call) (plan other : Plan)
        → IsSome (told schema)
        → IsSome (told source)
        → ((name : List ℕ) → IsTableFile told schema folder name → IsSome (told name))
        → ((name : List ℕ) → failing name ≡ true → ⊥)
        → run (record { told = told; failed = λ name. failing name ≡ true }) (record o { rewritten = false }) schema source folder call plan
        → plan.status ≡ Status.Ok
        → run (record { told = told; failed = λ name. failing name ≡ true }) (record o { rewritten = true }) schema source folder call other
        → plan ≡ other }
{}
