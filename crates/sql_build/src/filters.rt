// Filters with one condition more.
ghost use Rattle.std.specs.Prelude.{◌≡◌, IfOk};
ghost use Rattle.sql_ast.specs.Reading.{condition, inner_filter};
ghost use Rattle.sql_ast.specs.Tree as plain;
ghost use Rattle.sql_build.specs.Filters.{with_also};

use crate::conditions::both;
use qbs_base::NoMemory;
use sql_ast::{Cmp, Cond, SqlOpnd};
use std::alloc::Global;

/// A WHERE with one condition more.
pub fn also(
    alloc: Global,
    filter: Option<Box<Cond>>,
    c: Box<Cond>,
) -> Result<Option<Box<Cond>>, NoMemory>
    ensures { IfOk result (λ f. inner_filter f ≡ with_also (inner_filter filter) (condition c.value)) }
{
    match filter {
        None => Ok(Some(c)),
        Some(a) => Ok(Some(both(alloc, a, c)?)),
    }
}

/// A WHERE that compares two operands as well.
pub fn also_compared(
    alloc: Global,
    filter: Option<Box<Cond>>,
    cmp: Cmp,
    a: SqlOpnd,
    b: SqlOpnd,
) -> Result<Option<Box<Cond>>, NoMemory>
    ensures { IfOk result (λ f. inner_filter f ≡ with_also (inner_filter filter) (plain.Compare cmp a b)) }
{
    let test = Box::new(alloc, Cond::Compare(cmp, a, b))?;
    also(alloc, filter, test)
}
