//! Laws of stores, for the crates above. They do nothing.
ghost use Rattle.std.specs.Prelude.{◌≡◌, ℕ, List};
ghost use Rattle.qbs_base.specs.Values.{Schema};
ghost use Rattle.kernel_lang.specs.Plain.{Fragment};
ghost use Rattle.query_search.specs.Verdicts.{Verdict};
ghost use Rattle.small_dbs.specs.declared.small.SmallDb.{SmallDb};
ghost use Rattle.proof_store.specs.Gathering.{GathersBefore};
ghost use Rattle.proof_store.specs.Worked.{Worked};

/// A loop that adds the users of role 2 leaves a store of one item, whose text this is.
pub fn worked_loop_leaves_its_store()
    ensures { Worked }
{}

/// The candidates before an answer lead from one bank to one other.
pub fn gathering_comes_to_one_end()
    ensures { (schema : Schema) (size : ℕ) (f : Fragment) (v : Verdict) (items a b : List SmallDb)
        → GathersBefore schema size f v items a → GathersBefore schema size f v items b → a ≡ b }
{}
