// Conditions, made of their parts.
ghost use Rattle.std.specs.Prelude.{◌≡◌, IfOk, not};
ghost use Rattle.sql_ast.specs.Reading.{condition, inner_filter};
ghost use Rattle.sql_ast.specs.Tree as plain;

use qbs_base::NoMemory;
use sql_ast::{Cond, FromItems, SqlCol, SqlOpnd};
use std::alloc::Global;

/// Both conditions.
pub fn both(alloc: Global, a: Box<Cond>, b: Box<Cond>) -> Result<Box<Cond>, NoMemory>
    ensures { IfOk result (λ c. condition c.value ≡ plain.Both (condition a.value) (condition b.value)) }
{
    Ok(Box::new(alloc, Cond::Both(a, b))?)
}

/// One of the conditions, or both.
pub fn either(alloc: Global, a: Box<Cond>, b: Box<Cond>) -> Result<Box<Cond>, NoMemory>
    ensures { IfOk result (λ c. condition c.value ≡ plain.Either (condition a.value) (condition b.value)) }
{
    Ok(Box::new(alloc, Cond::Either(a, b))?)
}

/// The opposite of a condition.
pub fn opposite(alloc: Global, a: Box<Cond>) -> Result<Box<Cond>, NoMemory>
    ensures { IfOk result (λ c. condition c.value ≡ plain.Not (condition a.value)) }
{
    Ok(Box::new(alloc, Cond::Not(a))?)
}

/// EXISTS over FROM items.
pub fn exists(
    alloc: Global,
    from: FromItems,
    filter: Option<Box<Cond>>,
) -> Result<Box<Cond>, NoMemory>
    ensures { IfOk result (λ c. condition c.value ≡ plain.Exists from (inner_filter filter)) }
{
    match filter {
        None => Ok(Box::new(alloc, Cond::Exists { from, filter: None })?),
        Some(a) => Ok(Box::new(
            alloc,
            Cond::Exists {
                from,
                filter: Some(a),
            },
        )?),
    }
}

/// EXISTS over a copy of FROM items.
pub fn exists_in(
    alloc: Global,
    from: &FromItems,
    filter: Option<Box<Cond>>,
) -> Result<Box<Cond>, NoMemory>
    ensures { IfOk result (λ c. condition c.value ≡ plain.Exists from.now (inner_filter filter)) }
{
    let from = from.clone()?;
    exists(alloc, from, filter)
}

/// IN, or NOT IN, over FROM items.
pub fn within(
    alloc: Global,
    opnd: SqlOpnd,
    negated: bool,
    col: SqlCol,
    from: FromItems,
    filter: Option<Box<Cond>>,
) -> Result<Box<Cond>, NoMemory>
    ensures { IfOk result (λ c. condition c.value ≡ plain.Within opnd negated col from (inner_filter filter)) }
{
    match filter {
        None => Ok(Box::new(
            alloc,
            Cond::Within {
                opnd,
                negated,
                col,
                from,
                filter: None,
            },
        )?),
        Some(a) => Ok(Box::new(
            alloc,
            Cond::Within {
                opnd,
                negated,
                col,
                from,
                filter: Some(a),
            },
        )?),
    }
}

/// IN over FROM items where `holds`, else NOT IN.
pub fn membership(
    alloc: Global,
    opnd: SqlOpnd,
    holds: bool,
    col: SqlCol,
    from: FromItems,
    filter: Option<Box<Cond>>,
) -> Result<Box<Cond>, NoMemory>
    ensures { IfOk result (λ c. condition c.value ≡ plain.Within opnd (not holds) col from (inner_filter filter)) }
{
    within(alloc, opnd, !holds, col, from, filter)
}
