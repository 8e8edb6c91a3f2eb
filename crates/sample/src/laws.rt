//! Laws of the class and of the tables, for the crates above. They do nothing.
ghost use Rattle.std.specs.Prelude.{◌<◌, ◌^◌, ℕ, List};
ghost use Rattle.std.specs.declared.option.Option.{Option};
ghost use Rattle.qbs_base.specs.Values.{IsDatabaseOf};
ghost use Rattle.sql_ast.specs.Tree.{PlainQuery};
ghost use Rattle.java_mean.specs.WellTyped.{IsWellTyped};
ghost use Rattle.sample.specs.Class.{sample_program};
ghost use Rattle.sample_data.specs.Tables.{sample_schema, sample_rows};

/// The class is well typed under the schema, however query texts are read: it has none.
#[tactic(auto, using(crate::proofs::Typed::well_typed))]
pub fn class_is_well_typed()
    ensures { (read : List ℕ → Option PlainQuery) → IsWellTyped sample_schema read sample_program }
{}

/// The tables are a database of the schema, as long as all numbers have 64 bits.
#[tactic(auto, using(sample_data::proofs::Fit::are_tables))]
pub fn tables_are_of_the_schema()
    ensures { (n : ℕ) → n < 2 ^ 63 → IsDatabaseOf sample_schema (sample_rows n) }
{}
