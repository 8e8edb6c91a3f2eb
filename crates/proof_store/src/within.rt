// Whether an item is within the limits of a store.
ghost use Rattle.std.specs.Prelude.{◌≡◌, true, drop, IsTrue};
ghost use Rattle.std.specs.List.{list_all};
ghost use Rattle.store_parts.specs.Limits.{is_small_table};
ghost use Rattle.proof_store.specs.Limits as spec;

use qbs_base::Db;
use small_dbs::SmallDb;
use store_parts::{are_small_lists, are_small_rows, are_written};

// The tables from a number on, of which the last has no number that is the largest.
fn are_small_tables(db: &Db, n: u32) -> bool
    ensures { IsTrue result → list_all is_small_table (drop n db.now) ≡ true }
{
    match db.rows(n) {
        None => true,
        Some(rows) => are_small_rows(rows) && n < u32::MAX && are_small_tables(db, n + 1),
    }
}

/// Whether an item is within the limits of a store. One with 2^32 tables isn't taken as one.
pub fn is_within(item: &SmallDb) -> bool
    ensures { IsTrue result → spec.is_within item.now ≡ true }
{
    are_small_tables(&item.db, 0)
        && are_written(&item.entry.values)
        && are_small_lists(&item.entry.known)
}
