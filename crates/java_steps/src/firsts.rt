// First occurrences.
ghost use Rattle.std.specs.Prelude.{◌≡◌, IfOk, OnOk};
ghost use Rattle.sql_ast.specs.Grouped.{firsts};
ghost use Rattle.java_mean.specs.Expression.{same_member};
ghost use Rattle.java_steps.specs.Held.{rows_in};
ghost use Rattle.java_steps.specs.Met.{Takes};

use crate::held::{List, list_of_members, rows};
use crate::members::Members;
use crate::met::{Key, meet};
use qbs_base::{NoMemory, Row, Rows, copy_row};
use std::alloc::Global;
use std::collections::BTreeSet;

// Adds a row whose cells were not met before.
fn take(
    alloc: Global,
    met: &mut BTreeSet<Key>,
    row: &Row,
    list: &mut Vec<Row>,
) -> Result<(), NoMemory>
    ensures { OnOk result (Takes met.old list.old.items row.now met.new list.new.items) }
{
    if meet(alloc, met, row)? {
        list.push(copy_row(alloc, row)?)?;
    }
    Ok(())
}

fn firsts_of(alloc: Global, rows: &[Row]) -> Result<Vec<Row>, NoMemory>
    ensures { IfOk result (λ v. v.items ≡ firsts same_member rows.now) }
{
    let mut met = BTreeSet::new(alloc);
    let mut list = Vec::new(alloc);
    for row in rows {
        take(alloc, &mut met, row, &mut list)?;
    }
    Ok(list)
}

/// Each row once, in the order in which they occur first, as a set that knows its members.
#[inline(never)]
pub fn first_rows<'a>(alloc: Global, list: &List) -> Result<List<'a>, NoMemory>
    ensures { IfOk result (λ l. rows_in l ≡ firsts same_member (rows_in list.now)) }
{
    let rows = Rows::from_vec(firsts_of(alloc, rows(list))?);
    list_of_members(alloc, Members::from_rows(alloc, rows)?)
}
