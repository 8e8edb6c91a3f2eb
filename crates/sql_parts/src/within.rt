// A known query within another.
ghost use Rattle.std.specs.Prelude.{◌≡◌, ◌+◌, ℕ, IfOk, Some, option_map, slice_get};
ghost use Rattle.sql_ast.specs.Meaning.{nth};
ghost use Rattle.sql_ast.specs.Reading.{condition, filter_of, inner_filter};
ghost use Rattle.sql_ast.specs.Tree as plain;
ghost use Rattle.sql_parts.specs.Emitted as spec;

use qbs_base::NoMemory;
use sql_ast::{Cmp, Cond, FromItems, SqlCol, SqlItem, SqlOpnd};
use sql_build::conditions::{both, either, exists_in, opposite, within};
use sql_build::keys::position;
use std::alloc::Global;

/// The next number. A number past 32 bits wants more memory than there is.
pub fn next(n: u32) -> Result<u32, NoMemory>
    ensures { IfOk result (λ m. m ≡ n + 1) }
{
    match n.checked_add(1) {
        Some(m) => Ok(m),
        None => Err(NoMemory),
    }
}

/// The sum of numbers. A number past 32 bits wants more memory than there is.
pub fn sum(n: u32, m: u32) -> Result<u32, NoMemory>
    ensures { IfOk result (λ k. k ≡ n + m) }
{
    match n.checked_add(m) {
        Some(k) => Ok(k),
        None => Err(NoMemory),
    }
}

/// A column whose item is numbered on after `n`.
pub fn moved_col(n: u32, col: &SqlCol) -> Result<SqlCol, NoMemory>
    ensures { IfOk result (λ c. c ≡ spec.moved_col n col.now) }
{
    let item = sum(n, col.item)?;
    let column = col.column.clone()?;
    Ok(SqlCol { item, column })
}

/// The entry that is the argument of this number, counted from 1.
fn argument(args: &[u64], m: u32) -> Option<u64>
    ensures { result ≡ nth args.now m }
{
    if m == 0 {
        return None;
    }
    args.get(m as usize - 1).copied()
}

/// The parameter of an entry.
fn entry_param(entry: Option<u64>) -> Result<SqlOpnd, NoMemory>
    ensures { IfOk result (λ opnd. opnd ≡ spec.entry_param entry) }
{
    match entry {
        None => Ok(SqlOpnd::Param(0)),
        Some(k) => match u32::try_from(k) {
            Ok(k) => Ok(SqlOpnd::Param(next(k)?)),
            Err(_) => Err(NoMemory),
        },
    }
}

/// An operand whose item is numbered on after `n`, with its argument for a parameter.
pub fn moved_opnd(n: u32, args: &[u64], opnd: &SqlOpnd) -> Result<SqlOpnd, NoMemory>
    ensures { IfOk result (λ o. o ≡ spec.moved_opnd n args.now opnd.now) }
{
    match opnd {
        SqlOpnd::Column(col) => Ok(SqlOpnd::Column(moved_col(n, col)?)),
        SqlOpnd::Lit(x) => Ok(SqlOpnd::Lit(x.clone()?)),
        SqlOpnd::Param(m) => entry_param(argument(args, *m)),
    }
}

fn moved_compare(
    alloc: Global,
    n: u32,
    args: &[u64],
    cmp: Cmp,
    a: &SqlOpnd,
    b: &SqlOpnd,
) -> Result<Box<Cond>, NoMemory>
    ensures { IfOk result (λ c. condition c.value ≡ plain.Compare cmp (spec.moved_opnd n args.now a.now) (spec.moved_opnd n args.now b.now)) }
{
    let a = moved_opnd(n, args, a)?;
    let b = moved_opnd(n, args, b)?;
    Ok(Box::new(alloc, Cond::Compare(cmp, a, b))?)
}

/// The parts of IN, without its filter.
#[derive(Clone, Copy)]
pub struct Membership<'a> {
    pub opnd: &'a SqlOpnd,
    pub negated: bool,
    pub col: &'a SqlCol,
    pub from: &'a FromItems,
}

fn moved_within(
    alloc: Global,
    n: u32,
    args: &[u64],
    parts: Membership,
    filter: Option<Box<Cond>>,
) -> Result<Box<Cond>, NoMemory>
    ensures { IfOk result (λ c.
        condition c.value
        ≡ plain.Within (spec.moved_opnd n args.now parts.entry.opnd.now) parts.entry.negated (spec.moved_col n parts.entry.col.now) parts.entry.from.now (inner_filter filter)) }
{
    let opnd = moved_opnd(n, args, parts.opnd)?;
    let col = moved_col(n, parts.col)?;
    let from = parts.from.clone()?;
    within(alloc, opnd, parts.negated, col, from, filter)
}

/// A condition whose items are numbered on after `n`, with its arguments for its parameters.
pub fn moved(alloc: Global, n: u32, args: &[u64], cond: &Cond) -> Result<Box<Cond>, NoMemory>
    ensures { IfOk result (λ c. condition c.value ≡ spec.moved n args.now (condition cond.now)) }
{
    match cond {
        Cond::Both(a, b) => {
            let a = moved(alloc, n, args, a)?;
            let b = moved(alloc, n, args, b)?;
            both(alloc, a, b)
        }
        Cond::Either(a, b) => {
            let a = moved(alloc, n, args, a)?;
            let b = moved(alloc, n, args, b)?;
            either(alloc, a, b)
        }
        Cond::Not(a) => {
            let a = moved(alloc, n, args, a)?;
            opposite(alloc, a)
        }
        Cond::Compare(cmp, a, b) => moved_compare(alloc, n, args, *cmp, a, b),
        Cond::Bare(col) => Ok(Box::new(alloc, Cond::Bare(moved_col(n, col)?))?),
        Cond::Exists { from, filter: None } => exists_in(alloc, from, None),
        Cond::Exists {
            from,
            filter: Some(a),
        } => {
            let a = moved(alloc, n, args, a)?;
            exists_in(alloc, from, Some(a))
        }
        Cond::Within {
            opnd,
            negated,
            col,
            from,
            filter: None,
        } => {
            let negated = *negated;
            moved_within(
                alloc,
                n,
                args,
                Membership {
                    opnd,
                    negated,
                    col,
                    from,
                },
                None,
            )
        }
        Cond::Within {
            opnd,
            negated,
            col,
            from,
            filter: Some(a),
        } => {
            let negated = *negated;
            let a = moved(alloc, n, args, a)?;
            moved_within(
                alloc,
                n,
                args,
                Membership {
                    opnd,
                    negated,
                    col,
                    from,
                },
                Some(a),
            )
        }
    }
}

/// The column of an item, or its position.
pub fn item_col(item: &SqlItem) -> Result<SqlCol, NoMemory>
    ensures { IfOk result (λ col. col ≡ spec.item_col item.now) }
{
    match item {
        SqlItem::Whole(n) => Ok(position(*n)),
        SqlItem::Column(col) => Ok(col.clone()?),
    }
}

/// A WHERE whose items are numbered on after `n`, with its arguments for its parameters.
pub fn moved_filter(
    alloc: Global,
    n: u32,
    args: &[u64],
    filter: &Option<Cond>,
) -> Result<Option<Box<Cond>>, NoMemory>
    ensures { IfOk result (λ f. inner_filter f ≡ spec.moved_filter n args.now (filter_of filter.now)) }
{
    match filter {
        None => Ok(None),
        Some(a) => Ok(Some(moved(alloc, n, args, a)?)),
    }
}
