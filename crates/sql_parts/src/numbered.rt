// Parameters numbered by their first occurrence.
ghost use Rattle.std.specs.Prelude.{◌≡◌, ◌+◌, [], IfOk, OnOk, nat_eq};
ghost use Rattle.std.specs.List.{list_any};
ghost use Rattle.sql_ast.specs.Reading.{condition, inner_filter};
ghost use Rattle.sql_ast.specs.Tree as plain;
ghost use Rattle.sql_parts.specs.Numbered as spec;

use crate::within::{Membership, next};
use qbs_base::{Items, NoMemory, Numbers};
use sql_ast::{Cmp, Cond, SqlOpnd};
use sql_build::conditions::{both, either, exists_in, opposite, within};
use std::alloc::Global;

fn is_among(seen: &[u64], n: u64) -> bool
    ensures { result ≡ list_any (nat_eq n) seen.now }
{
    seen.iter().any(|m| n == *m)
}

/// A number more, where it isn't there.
fn enter(seen: &mut Numbers, n: u64) -> Result<(), NoMemory>
    ensures { OnOk result (seen.new ≡ spec.entered seen.old n) }
{
    if is_among(seen.as_slice(), n) {
        return Ok(());
    }
    seen.push(n)?;
    Ok(())
}

fn enter_opnd(seen: &mut Numbers, opnd: &SqlOpnd) -> Result<(), NoMemory>
    ensures { OnOk result (seen.new ≡ spec.first_uses seen.old (spec.opnd_uses opnd.now)) }
{
    match opnd {
        SqlOpnd::Column(_) => Ok(()),
        SqlOpnd::Lit(_) => Ok(()),
        SqlOpnd::Param(n) => enter(seen, u64::from(n.saturating_sub(1))),
    }
}

/// The entries that a condition uses, each where it is used first, after those that were seen.
#[tactic(auto, using(crate::proofs::Uses::uses_append))]
fn enter_uses(seen: &mut Numbers, cond: &Cond) -> Result<(), NoMemory>
    ensures { OnOk result (seen.new ≡ spec.first_uses seen.old (spec.uses (condition cond.now))) }
{
    match cond {
        Cond::Both(a, b) => {
            enter_uses(seen, a)?;
            enter_uses(seen, b)
        }
        Cond::Either(a, b) => {
            enter_uses(seen, a)?;
            enter_uses(seen, b)
        }
        Cond::Not(a) => enter_uses(seen, a),
        Cond::Compare(_, a, b) => {
            enter_opnd(seen, a)?;
            enter_opnd(seen, b)
        }
        Cond::Bare(_) => Ok(()),
        Cond::Exists {
            from: _,
            filter: None,
        } => Ok(()),
        Cond::Exists {
            from: _,
            filter: Some(a),
        } => enter_uses(seen, a),
        Cond::Within {
            opnd,
            negated: _,
            col: _,
            from: _,
            filter: None,
        } => enter_opnd(seen, opnd),
        Cond::Within {
            opnd,
            negated: _,
            col: _,
            from: _,
            filter: Some(a),
        } => {
            enter_opnd(seen, opnd)?;
            enter_uses(seen, a)
        }
    }
}

/// The number of an entry in the order, counted from 1, and 0 where it isn't there.
fn number_among(order: &[u64], n: u64) -> Result<u32, NoMemory>
    ensures { IfOk result (λ m. m ≡ spec.number_among order.now n) }
{
    match order.split_first() {
        None => Ok(0),
        Some((m, rest)) => {
            if *m == n {
                return Ok(1);
            }
            next(number_among(rest, n)?)
        }
    }
}

fn renumbered_opnd(order: &[u64], opnd: &SqlOpnd) -> Result<SqlOpnd, NoMemory>
    ensures { IfOk result (λ o. o ≡ spec.renumbered_opnd order.now opnd.now) }
{
    match opnd {
        SqlOpnd::Column(col) => Ok(SqlOpnd::Column(col.clone()?)),
        SqlOpnd::Lit(x) => Ok(SqlOpnd::Lit(x.clone()?)),
        SqlOpnd::Param(n) => {
            let n = u64::from(n.saturating_sub(1));
            Ok(SqlOpnd::Param(number_among(order, n)?))
        }
    }
}

fn renumbered_compare(
    alloc: Global,
    order: &[u64],
    cmp: Cmp,
    a: &SqlOpnd,
    b: &SqlOpnd,
) -> Result<Box<Cond>, NoMemory>
    ensures { IfOk result (λ c. condition c.value ≡ plain.Compare cmp (spec.renumbered_opnd order.now a.now) (spec.renumbered_opnd order.now b.now)) }
{
    let a = renumbered_opnd(order, a)?;
    let b = renumbered_opnd(order, b)?;
    Ok(Box::new(alloc, Cond::Compare(cmp, a, b))?)
}

fn renumbered_within(
    alloc: Global,
    order: &[u64],
    parts: Membership,
    filter: Option<Box<Cond>>,
) -> Result<Box<Cond>, NoMemory>
    ensures { IfOk result (λ c.
        condition c.value
        ≡ plain.Within (spec.renumbered_opnd order.now parts.entry.opnd.now) parts.entry.negated parts.entry.col.now parts.entry.from.now (inner_filter filter)) }
{
    let opnd = renumbered_opnd(order, parts.opnd)?;
    let col = parts.col.clone()?;
    let from = parts.from.clone()?;
    within(alloc, opnd, parts.negated, col, from, filter)
}

/// A condition whose parameters are numbered by the order of their entries.
fn renumbered(alloc: Global, order: &[u64], cond: &Cond) -> Result<Box<Cond>, NoMemory>
    ensures { IfOk result (λ c. condition c.value ≡ spec.renumbered order.now (condition cond.now)) }
{
    match cond {
        Cond::Both(a, b) => {
            let a = renumbered(alloc, order, a)?;
            let b = renumbered(alloc, order, b)?;
            both(alloc, a, b)
        }
        Cond::Either(a, b) => {
            let a = renumbered(alloc, order, a)?;
            let b = renumbered(alloc, order, b)?;
            either(alloc, a, b)
        }
        Cond::Not(a) => {
            let a = renumbered(alloc, order, a)?;
            opposite(alloc, a)
        }
        Cond::Compare(cmp, a, b) => renumbered_compare(alloc, order, *cmp, a, b),
        Cond::Bare(col) => Ok(Box::new(alloc, Cond::Bare(col.clone()?))?),
        Cond::Exists { from, filter: None } => exists_in(alloc, from, None),
        Cond::Exists {
            from,
            filter: Some(a),
        } => {
            let a = renumbered(alloc, order, a)?;
            exists_in(alloc, from, Some(a))
        }
        Cond::Within {
            opnd,
            negated,
            col,
            from,
            filter: None,
        } => {
            let negated = *negated;
            renumbered_within(
                alloc,
                order,
                Membership {
                    opnd,
                    negated,
                    col,
                    from,
                },
                None,
            )
        }
        Cond::Within {
            opnd,
            negated,
            col,
            from,
            filter: Some(a),
        } => {
            let negated = *negated;
            let a = renumbered(alloc, order, a)?;
            renumbered_within(
                alloc,
                order,
                Membership {
                    opnd,
                    negated,
                    col,
                    from,
                },
                Some(a),
            )
        }
    }
}

/// A WHERE whose parameters are numbered by the order of their entries.
pub fn renumbered_filter(
    alloc: Global,
    order: &[u64],
    filter: &Option<Box<Cond>>,
) -> Result<Option<Box<Cond>>, NoMemory>
    ensures { IfOk result (λ f. inner_filter f ≡ spec.renumbered_filter order.now (inner_filter filter.now)) }
{
    match filter {
        None => Ok(None),
        Some(a) => Ok(Some(renumbered(alloc, order, a)?)),
    }
}

fn enter_filter(seen: &mut Numbers, filter: &Option<Box<Cond>>) -> Result<(), NoMemory>
    ensures { OnOk result (seen.new ≡ spec.first_uses seen.old (spec.filter_uses (inner_filter filter.now))) }
{
    match filter {
        None => Ok(()),
        Some(a) => enter_uses(seen, a),
    }
}

/// The entries that a WHERE uses, each where it is used first.
pub fn order_of(alloc: Global, filter: &Option<Box<Cond>>) -> Result<Numbers, NoMemory>
    ensures { IfOk result (λ order. order ≡ spec.first_uses [] (spec.filter_uses (inner_filter filter.now))) }
{
    let mut order = Items::new(alloc);
    enter_filter(&mut order, filter)?;
    Ok(order)
}
