//! Laws of small databases, for the crates above. They do nothing.
ghost use Rattle.std.specs.Prelude.{◌≡◌, ℕ, true};
ghost use Rattle.qbs_base.specs.Values.{Schema, IsDatabaseOf};
ghost use Rattle.kernel_lang.specs.Fitting.{PartsFit};
ghost use Rattle.kernel_lang.specs.Plain.{Fragment};
ghost use Rattle.kernel_lang.specs.Typed.{is_typed};
ghost use Rattle.kernel_lang.specs.Worked.{class_A};
ghost use Rattle.small_dbs.specs.Small.{small};
ghost use Rattle.small_dbs.specs.Worked.{users_and_roles, second_item};

/// The parts of a fragment that fits a schema fit each of its small databases, which are databases of
/// the schema.
pub fn fragments_fit_their_small_databases()
    ensures databases { (schema : Schema) (f : Fragment) (d : ℕ) → IsDatabaseOf schema (small schema f d).db }
    ensures fit { (schema : Schema) (f : Fragment) (d : ℕ) → is_typed schema f ≡ true → PartsFit f (small schema f d).db (small schema f d).entry }
{}

/// A loop that adds the users of role 2 fits a schema of users and roles, and its second small database
/// has one user and one role.
pub fn worked_loop_has_its_second_item()
    ensures typed { is_typed users_and_roles class_A ≡ true }
    ensures item { small users_and_roles class_A 1 ≡ second_item }
{}
