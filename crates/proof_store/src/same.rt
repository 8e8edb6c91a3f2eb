// Whether two items are equal.
ghost use Rattle.std.specs.Prelude.{◌≡◌, ◌-◌, ◌<◌, ◌^◌, ◌||◌, IsTrue, drop, length, slice_get, nat_le, nat_lt};
ghost use Rattle.std.specs.List.{list_any};
ghost use Rattle.std.specs.Str.{bytes_eq};
ghost use Rattle.qbs_base.specs.Tables.{rows_of};
ghost use Rattle.qbs_base.specs.Scalar.{same_cells as same_cells_of};
ghost use Rattle.tor_terms.specs.Worlds.{same_rows as are_same_rows};
ghost use Rattle.proof_store.specs.Same as spec;

use prune_steps::is_full;
use qbs_base::{Db, Name, Row, Scalar, Scalars};
use small_dbs::SmallDb;
use tor_terms::{same_cell, same_row};

fn same_cells(xs: &[Scalar], ys: &[Scalar]) -> bool
    ensures { result ≡ same_cells_of xs.now ys.now }
{
    let mut rest = ys;
    for x in xs {
        match rest.split_first() {
            Some((y, others)) => {
                if !same_cell(x, y) {
                    return false;
                }
                rest = others;
            }
            None => return false,
        }
    }
    rest.is_empty()
}

fn same_values(xs: &Scalars, ys: &Scalars) -> bool
    ensures { result ≡ same_cells_of xs.now ys.now }
{
    same_cells(xs.as_slice(), ys.as_slice())
}

fn same_lists(xs: &[Scalars], ys: &[Scalars]) -> bool
    ensures { result ≡ spec.same_lists xs.now ys.now }
{
    let mut rest = ys;
    for x in xs {
        match rest.split_first() {
            Some((y, others)) => {
                if !same_values(x, y) {
                    return false;
                }
                rest = others;
            }
            None => return false,
        }
    }
    rest.is_empty()
}

fn same_rows(rs: &[Row], ss: &[Row]) -> bool
    ensures { result ≡ are_same_rows rs.now ss.now }
{
    let mut rest = ss;
    for r in rs {
        match rest.split_first() {
            Some((s, others)) => {
                if !same_row(r, s) {
                    return false;
                }
                rest = others;
            }
            None => return false,
        }
    }
    rest.is_empty()
}

fn rows_at(db: &Db, n: u32) -> &[Row]
    ensures { result.now ≡ rows_of db.now n }
{
    match db.rows(n) {
        Some(rows) => rows.as_slice(),
        None => &[],
    }
}

fn same_name(a: &Name, b: &Name) -> bool
    ensures { result ≡ bytes_eq a.now b.now }
{
    *a == *b
}

// The tables with that number are equal, or neither is there.
fn same_table_at(a: &Db, b: &Db, n: u32) -> bool
    ensures { result ≡ spec.same_place (slice_get a.now n) (slice_get b.now n) }
{
    match a.name(n) {
        None => b.name(n).is_none(),
        Some(name) => match b.name(n) {
            None => false,
            Some(other) => same_name(name, other) && same_rows(rows_at(a, n), rows_at(b, n)),
        },
    }
}

fn is_there(db: &Db, n: u32) -> bool
    ensures { result ≡ nat_lt n (length db.now) }
{
    db.name(n).is_some()
}

fn same_tables_from(a: &Db, b: &Db, n: u32) -> bool
    requires { length a.now < 2 ^ 32 - 1 }
    ensures { result ≡ spec.same_tables (drop n a.now) (drop n b.now) }
{
    if !is_there(a, n) {
        return !is_there(b, n);
    }
    same_table_at(a, b, n) && same_tables_from(a, b, n + 1)
}

/// Whether a database has so few tables that each has a number, and one more would.
pub fn are_numbered(db: &Db) -> bool
    ensures { IsTrue result → length db.now < 2 ^ 32 - 1 }
{
    !is_there(db, u32::MAX - 1)
}

/// Whether two items are equal: their entry values, known lists and tables, these by name and rows.
pub fn same_item(a: &SmallDb, b: &SmallDb) -> bool
    requires { length a.now.db < 2 ^ 32 - 1 }
    ensures { result ≡ spec.same_item a.now b.now }
{
    same_values(&a.entry.values, &b.entry.values)
        && same_lists(a.entry.known.as_slice(), b.entry.known.as_slice())
        && same_tables_from(&a.db, &b.db, 0)
}

fn has_item(items: &[SmallDb], item: &SmallDb) -> bool
    requires { length item.now.db < 2 ^ 32 - 1 }
    ensures { result ≡ list_any (spec.same_item item.now) items.now }
{
    for own in items {
        if same_item(item, own) {
            return true;
        }
    }
    false
}

/// Whether a bank of these items takes an item no more: it is full, or has an equal one.
pub fn refuses(items: &[SmallDb], item: &SmallDb) -> bool
    requires { length item.now.db < 2 ^ 32 - 1 }
    ensures { result ≡ (nat_le 256 (length items.now) || list_any (spec.same_item item.now) items.now) }
{
    is_full(items.len()) || has_item(items, item)
}
