// FROM items of known queries, counted. A number past 64 bits wants more memory than there is.
ghost use Rattle.std.specs.Prelude.{◌≡◌, ◌+◌, ◌<◌, ◌^◌, length, map, IfOk, OnOk};
ghost use Rattle.std.specs.List.{AllByRecursion};
ghost use Rattle.sql_ast.specs.Reading.{condition, filter_of, query};
ghost use Rattle.sql_parts.specs.Given.{AreCounted, FilterIsCounted, QueryIsCounted};

use qbs_base::NoMemory;
use sql_ast::{Cond, FromItems, Query};

/// The number of the last of these FROM items, which are numbered on after `n`.
fn counted(n: u64, from: &FromItems) -> Result<u64, NoMemory>
    ensures value { IfOk result (λ m. m ≡ n + length from.now) }
    ensures fits { OnOk result (n + length from.now < 2 ^ 64) }
{
    match n.checked_add(from.len() as u64) {
        Some(m) => Ok(m),
        None => Err(NoMemory),
    }
}

/// Counts the FROM items of each inner SELECT, where there are `n` around.
fn count_items(n: u64, cond: &Cond) -> Result<(), NoMemory>
    ensures { OnOk result (AreCounted n (condition cond.now)) }
{
    match cond {
        Cond::Both(a, b) => {
            count_items(n, a)?;
            count_items(n, b)
        }
        Cond::Either(a, b) => {
            count_items(n, a)?;
            count_items(n, b)
        }
        Cond::Not(a) => count_items(n, a),
        Cond::Compare(_, _, _) => Ok(()),
        Cond::Bare(_) => Ok(()),
        Cond::Exists { from, filter: None } => {
            counted(n, from)?;
            Ok(())
        }
        Cond::Exists {
            from,
            filter: Some(a),
        } => {
            let n = counted(n, from)?;
            count_items(n, a)
        }
        Cond::Within {
            opnd: _,
            negated: _,
            col: _,
            from,
            filter: None,
        } => {
            counted(n, from)?;
            Ok(())
        }
        Cond::Within {
            opnd: _,
            negated: _,
            col: _,
            from,
            filter: Some(a),
        } => {
            let n = counted(n, from)?;
            count_items(n, a)
        }
    }
}

fn count_filter(n: u64, filter: &Option<Cond>) -> Result<(), NoMemory>
    ensures { OnOk result (FilterIsCounted n (filter_of filter.now)) }
{
    match filter {
        None => Ok(()),
        Some(a) => count_items(n, a),
    }
}

/// Around a known query there are six FROM items at most.
fn count_query(q: &Query) -> Result<(), NoMemory>
    ensures { OnOk result (QueryIsCounted (query q.now)) }
{
    match q {
        Query::Listing(q) => {
            let n = counted(6, &q.from)?;
            count_filter(n, &q.filter)
        }
        Query::Number(_) => Ok(()),
        Query::Truth(_) => Ok(()),
    }
}

/// Counts the FROM items of known queries. It changes nothing.
pub fn count_queries(known: &[Query]) -> Result<(), NoMemory>
    ensures { OnOk result (AllByRecursion QueryIsCounted (map query known.now)) }
{
    for q in known {
        count_query(q)?;
    }
    Ok(())
}
