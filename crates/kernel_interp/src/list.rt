// The lists of loops.
ghost use Rattle.std.specs.Prelude.{◌≡◌, IfOk, OnOk, map};
ghost use Rattle.std.specs.Ordering.{is_lt};
ghost use Rattle.qbs_base.specs.Sort.{stable_sort};
ghost use Rattle.qbs_base.specs.Tables.{rows_of};
ghost use Rattle.kernel_lang.specs.Given as given;
ghost use Rattle.kernel_interp.specs.Reading.{rows_seen, lists_seen};

use crate::order::order;
use kernel_lang::{Col, ListDef};
use qbs_base::{Db, NoMemory, Row};
use std::alloc::{AllocError, Global};
use std::cmp::Ordering;

/// The rows of a table; none where there is no such table.
pub fn table_rows(db: &Db, table: u32) -> &[Row]
    ensures { result.now ≡ rows_of db.now table }
{
    match db.rows(table) {
        Some(rows) => rows.as_slice(),
        None => &[],
    }
}

fn lent<'a>(alloc: Global, rows: &'a [Row]) -> Result<Vec<&'a Row>, NoMemory>
    ensures { IfOk result (λ v. rows_seen v.items ≡ rows.now) }
{
    let mut all = Vec::new(alloc);
    for row in rows {
        all.push(row)?;
    }
    Ok(all)
}

fn compare(keys: &[Col], r: &&Row, s: &&Row) -> Ordering
    ensures { is_lt result ≡ given.before keys.now r.now.now s.now.now }
{
    order(keys, r, s)
}

fn sort(keys: &[Col], rows: &mut Vec<&Row>) -> Result<(), AllocError>
    ensures { OnOk result (rows_seen rows.new.items ≡ stable_sort (given.before keys.now) (rows_seen rows.old.items)) }
{
    rows.sort_by(|r, s| compare(keys, r, s))
}

fn cut(limit: Option<u64>, rows: &mut Vec<&Row>)
    ensures { rows_seen rows.new.items ≡ given.cut limit (rows_seen rows.old.items) }
{
    if let Some(n) = limit {
        rows.truncate(n as usize);
    }
}

// The rows of a loop: those of its table, sorted stably by the keys and cut to the limit.
fn listed<'a>(alloc: Global, db: &'a Db, def: &ListDef) -> Result<Vec<&'a Row>, NoMemory>
    ensures { IfOk result (λ v. rows_seen v.items ≡ given.listed db.now def.now) }
{
    let mut rows = lent(alloc, table_rows(db, def.table))?;
    sort(def.keys.as_slice(), &mut rows)?;
    cut(def.limit, &mut rows);
    Ok(rows)
}

/// The lists of loops.
pub fn all_listed<'a>(
    alloc: Global,
    db: &'a Db,
    defs: &[ListDef],
) -> Result<Vec<Vec<&'a Row>>, NoMemory>
    ensures { IfOk result (λ v. lists_seen v.items ≡ map (given.listed db.now) defs.now) }
{
    let mut lists = Vec::new(alloc);
    for def in defs {
        lists.push(listed(alloc, db, def)?)?;
    }
    Ok(lists)
}
