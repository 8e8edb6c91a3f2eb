// The query that a text says, with its names looked up in a schema.
ghost use Rattle.std.specs.Prelude.{◌≡◌, ◌≤◌, true, length, take, IfOk, OnOk, option_map};
ghost use Rattle.std.specs.declared.option.Option.TheVariants.{Some};
ghost use Rattle.sql_ast.specs.InSight.{in_sight};
ghost use Rattle.sql_ast.specs.Knowns.{knowns_of};
ghost use Rattle.sql_ast.specs.Names.{each_of, named_condition, named_filter, named_item as named_item_of, named_group as named_group_of, named_key as named_key_of, named_kind as named_kind_of, named_listing, named_number, named_truth, named_query as named_query_of};
ghost use Rattle.sql_ast.specs.Reading.{condition as plain_condition, filter_of as plain_filter, inner_filter, listing as plain_listing, number as plain_number, truth as plain_truth, query as plain_query};
ghost use Rattle.sql_ast.specs.Tree.{Both, Either, Not, Exists, Within};
ghost use Rattle.sql_parse.specs.Said.{col_of, condition_of, filter_of, item_of, key_of, keys_of, kind_of, listing_of, number_of, opnd_of, parts_of, truth_of, query_of};
ghost use Rattle.sql_parse.specs.Chains.{is_part};
ghost use Rattle.sql_parse.specs.Inner.{compared_in, entered_in, membership_in};
ghost use Rattle.sql_parse.specs.Scopes.{scope_of};
ghost use Rattle.sql_parse.specs.Steps.{stepped, climbed};
ghost use Rattle.sql_parse.specs.Seen.{Gives};

use crate::fault::Stop;
use crate::raw::{
    RawCol, RawCond, RawItem, RawKey, RawKind, RawListing, RawNumber, RawOpnd, RawParts, RawQuery,
    RawTruth,
};
use crate::scope::{from_items, item_named, known_parts, named_col, named_opnd, small};
use qbs_base::{NoMemory, Table, Tys};
use sql_ast::{
    Cmp, Cond, FromItems, ListQuery, NumberKind, NumberQuery, Query, Sight, SqlCol, SqlItem,
    SqlKey, SqlKeys, SqlOpnd, TruthQuery,
};
use std::alloc::Global;

// ---- conditions made of others

fn both(alloc: Global, a: Box<Cond>, b: Box<Cond>) -> Result<Box<Cond>, NoMemory>
    ensures { IfOk result (λ c. plain_condition c.value ≡ Both (plain_condition a.value) (plain_condition b.value)) }
{
    Ok(Box::new(alloc, Cond::Both(a, b))?)
}

fn either(alloc: Global, a: Box<Cond>, b: Box<Cond>) -> Result<Box<Cond>, NoMemory>
    ensures { IfOk result (λ c. plain_condition c.value ≡ Either (plain_condition a.value) (plain_condition b.value)) }
{
    Ok(Box::new(alloc, Cond::Either(a, b))?)
}

fn not(alloc: Global, a: Box<Cond>) -> Result<Box<Cond>, NoMemory>
    ensures { IfOk result (λ c. plain_condition c.value ≡ Not (plain_condition a.value)) }
{
    Ok(Box::new(alloc, Cond::Not(a))?)
}

fn exists(alloc: Global, from: FromItems, filter: Option<Box<Cond>>) -> Result<Box<Cond>, NoMemory>
    ensures { IfOk result (λ c. plain_condition c.value ≡ Exists from (inner_filter filter)) }
{
    Ok(Box::new(alloc, Cond::Exists { from, filter })?)
}

/// What stands before the WHERE of a SELECT behind IN: the operand before IN, and the SELECT's
/// column and FROM items.
#[derive(Drop)]
struct Membership {
    opnd: SqlOpnd,
    col: SqlCol,
    from: FromItems,
}

fn within(
    alloc: Global,
    membership: Box<Membership>,
    negated: bool,
    filter: Option<Box<Cond>>,
) -> Result<Box<Cond>, NoMemory>
    ensures { IfOk result (λ c. plain_condition c.value ≡ Within membership.value.opnd negated membership.value.col membership.value.from (inner_filter filter)) }
{
    let Membership { opnd, col, from } = Box::into_inner(membership);
    let cond = Cond::Within {
        opnd,
        negated,
        col,
        from,
        filter,
    };
    Ok(Box::new(alloc, cond)?)
}

fn unboxed(filter: Option<Box<Cond>>) -> Option<Cond>
    ensures { plain_filter result ≡ inner_filter filter }
{
    match filter {
        None => None,
        Some(a) => Some(Box::into_inner(a)),
    }
}

// ---- chains, of which the first operand is named last

/// What is made of a condition: with a second operand, or its opposite.
#[derive(Drop)]
pub enum Step {
    And(Box<Cond>),
    Or(Box<Cond>),
    Not,
}

fn take_step(alloc: Global, step: Step, a: Box<Cond>) -> Result<Box<Cond>, NoMemory>
    ensures { IfOk result (λ c. plain_condition c.value ≡ stepped step (plain_condition a.value)) }
{
    match step {
        Step::And(b) => both(alloc, a, b),
        Step::Or(b) => either(alloc, a, b),
        Step::Not => not(alloc, a),
    }
}

/// What the steps make of a condition, the last one first.
fn climb(alloc: Global, steps: Vec<Step>, a: Box<Cond>) -> Result<Box<Cond>, NoMemory>
    ensures { IfOk result (λ c. plain_condition c.value ≡ climbed steps.items (plain_condition a.value)) }
{
    let mut steps = steps;
    let mut a = a;
    while let Some(last) = steps.pop() {
        a = take_step(alloc, last, a)?;
    }
    Ok(a)
}

fn compared(
    alloc: Global,
    known: &Sight<'_>,
    around: usize,
    cmp: Cmp,
    a: &RawOpnd,
    b: &RawOpnd,
) -> Result<Box<Cond>, Stop>
    requires { around ≤ length (in_sight known.now) }
    ensures { Gives (λ c. plain_condition c.value) result (compared_in (scope_of around (knowns_of (in_sight known.now))) cmp (opnd_of a.now) (opnd_of b.now)) }
{
    let a = named_opnd(known, around, a)?;
    let b = named_opnd(known, around, b)?;
    Ok(Box::new(alloc, Cond::Compare(cmp, a, b))?)
}

// ---- what stands before the WHERE of a SELECT

/// The FROM items of a SELECT, which come in sight behind those of the SELECTs around. Where it
/// fails, some of them may be in sight.
fn entered<'a>(
    alloc: Global,
    schema: &'a [Table],
    known: &mut Sight<'a>,
    parts: &'a RawParts,
) -> Result<FromItems, Stop>
    ensures value { Gives (λ from. (from, knowns_of (in_sight known.new))) result (entered_in schema.now (knowns_of (in_sight known.old)) (parts_of parts.now)) }
    ensures more { OnOk result (length (in_sight known.old) ≤ length (in_sight known.new)) }
    ensures kept { OnOk result (take (length (in_sight known.old)) (in_sight known.new) ≡ in_sight known.old) }
{
    let own = known_parts(alloc, schema, parts.as_slice())?;
    let from = from_items(alloc, &own)?;
    known.enter(own)?;
    Ok(from)
}

/// IN before its WHERE, where the first `around` items in sight are of the SELECTs around. Those of
/// its SELECT come in sight, also where it fails.
fn named_membership<'a>(
    alloc: Global,
    schema: &'a [Table],
    known: &mut Sight<'a>,
    around: usize,
    opnd: &'a RawOpnd,
    col: &'a RawCol,
    parts: &'a RawParts,
) -> Result<Box<Membership>, Stop>
    requires { around ≤ length (in_sight known.old) }
    ensures value { Gives (λ m. (m.value.opnd, m.value.col, m.value.from, knowns_of (in_sight known.new))) result (
        membership_in schema.now (scope_of around (knowns_of (in_sight known.old))) (knowns_of (in_sight known.old)) (opnd_of opnd.now) (col_of col.now) (parts_of parts.now)) }
    ensures more { OnOk result (length (in_sight known.old) ≤ length (in_sight known.new)) }
    ensures kept { OnOk result (take (length (in_sight known.old)) (in_sight known.new) ≡ in_sight known.old) }
{
    let opnd = named_opnd(known, around, opnd)?;
    let inner = known.len();
    let from = entered(alloc, schema, known, parts)?;
    let col = named_col(known, inner, col)?;
    Ok(Box::new(alloc, Membership { opnd, col, from })?)
}

// ---- conditions, where the first `around` items in sight are of the SELECTs around

/// Where it fails, items of inner SELECTs may be left in sight. Chains of AND, OR and NOT are walked
/// without recursion.
#[cycle(condition)]
fn condition<'a>(
    alloc: Global,
    schema: &'a [Table],
    known: &mut Sight<'a>,
    around: usize,
    raw: &'a RawCond,
) -> Result<Box<Cond>, Stop>
    requires { around ≤ length (in_sight known.old) }
    ensures value { Gives (λ c. plain_condition c.value) result (named_condition schema.now (scope_of around (knowns_of (in_sight known.old))) (condition_of raw.now)) }
    ensures same { OnOk result (in_sight known.new ≡ in_sight known.old) }
{
    let mut steps = Vec::new(alloc);
    let mut rest = raw;
    loop {
        match rest {
            RawCond::Both(a, b) => {
                let b = condition(alloc, schema, known, around, b)?;
                steps.push(Step::And(b))?;
                rest = a;
            }
            RawCond::Either(a, b) => {
                let b = condition(alloc, schema, known, around, b)?;
                steps.push(Step::Or(b))?;
                rest = a;
            }
            RawCond::Not(a) => {
                steps.push(Step::Not)?;
                rest = a;
            }
            RawCond::Compare(_, _, _)
            | RawCond::Bare(_)
            | RawCond::Exists { .. }
            | RawCond::Within { .. } => {
                let a = part(alloc, schema, known, around, rest)?;
                return Ok(climb(alloc, steps, a)?);
            }
        }
    }
}

/// A condition that is no AND, OR or NOT of others.
#[cycle(condition)]
fn part<'a>(
    alloc: Global,
    schema: &'a [Table],
    known: &mut Sight<'a>,
    around: usize,
    raw: &'a RawCond,
) -> Result<Box<Cond>, Stop>
    requires room { around ≤ length (in_sight known.old) }
    requires part { is_part (condition_of raw.now) ≡ true }
    ensures value { Gives (λ c. plain_condition c.value) result (named_condition schema.now (scope_of around (knowns_of (in_sight known.old))) (condition_of raw.now)) }
    ensures same { OnOk result (in_sight known.new ≡ in_sight known.old) }
{
    match raw {
        RawCond::Both(_, _) | RawCond::Either(_, _) | RawCond::Not(_) => unreachable!(),
        RawCond::Compare(cmp, a, b) => compared(alloc, known, around, *cmp, a, b),
        RawCond::Bare(col) => {
            let col = named_col(known, around, col)?;
            Ok(Box::new(alloc, Cond::Bare(col))?)
        }
        RawCond::Exists { parts, filter } => {
            let inner = known.len();
            let from = entered(alloc, schema, known, parts)?;
            let filter = inside(alloc, schema, known, inner, filter)?;
            Ok(exists(alloc, from, filter)?)
        }
        RawCond::Within {
            opnd,
            negated,
            col,
            parts,
            filter,
        } => {
            let inner = known.len();
            let membership = named_membership(alloc, schema, known, around, opnd, col, parts)?;
            let filter = inside(alloc, schema, known, inner, filter)?;
            Ok(within(alloc, membership, *negated, filter)?)
        }
    }
}

/// The WHERE of an inner SELECT, or none, whose items then go out of sight.
#[cycle(condition)]
fn inside<'a>(
    alloc: Global,
    schema: &'a [Table],
    known: &mut Sight<'a>,
    inner: usize,
    raw: &'a Option<Box<RawCond>>,
) -> Result<Option<Box<Cond>>, Stop>
    requires { inner ≤ length (in_sight known.old) }
    ensures value { Gives inner_filter result (named_filter schema.now (scope_of inner (knowns_of (in_sight known.old))) (filter_of raw.now)) }
    ensures left { OnOk result (in_sight known.new ≡ take inner (in_sight known.old)) }
{
    match raw {
        None => {
            known.leave(inner)?;
            Ok(None)
        }
        Some(a) => {
            let cond = condition(alloc, schema, known, inner, a)?;
            known.leave(inner)?;
            Ok(Some(cond))
        }
    }
}

// ---- queries, whose own items are all that are in sight

/// WHERE, or none.
fn filter<'a>(
    alloc: Global,
    schema: &'a [Table],
    known: &mut Sight<'a>,
    raw: &'a Option<Box<RawCond>>,
) -> Result<Option<Box<Cond>>, Stop>
    ensures value { Gives inner_filter result (named_filter schema.now (scope_of 0 (knowns_of (in_sight known.old))) (filter_of raw.now)) }
    ensures same { OnOk result (in_sight known.new ≡ in_sight known.old) }
{
    match raw {
        None => Ok(None),
        Some(a) => Ok(Some(condition(alloc, schema, known, 0, a)?)),
    }
}

fn item(known: &Sight<'_>, raw: &RawItem) -> Result<SqlItem, Stop>
    ensures { Gives (λ x. x) result (named_item_of (scope_of 0 (knowns_of (in_sight known.now))) (item_of raw.now)) }
{
    match raw {
        RawItem::Whole(alias) => {
            let Some((number, _)) = item_named(known, 0, alias) else {
                return Err(Stop::Broken);
            };
            Ok(SqlItem::Whole(small(number)?))
        }
        RawItem::Column(col) => Ok(SqlItem::Column(named_col(known, 0, col)?)),
    }
}

fn group(known: &Sight<'_>, raw: &Option<RawCol>) -> Result<Option<SqlCol>, Stop>
    ensures { Gives (λ x. x) result (named_group_of (scope_of 0 (knowns_of (in_sight known.now))) (option_map col_of raw.now)) }
{
    match raw {
        None => Ok(None),
        Some(col) => Ok(Some(named_col(known, 0, col)?)),
    }
}

fn key(known: &Sight<'_>, raw: &RawKey) -> Result<SqlKey, Stop>
    ensures { Gives (λ x. x) result (named_key_of (scope_of 0 (knowns_of (in_sight known.now))) (key_of raw.now)) }
{
    let col = named_col(known, 0, &raw.col)?;
    Ok(SqlKey {
        least: raw.least,
        col,
        down: raw.down,
    })
}

fn keys(alloc: Global, known: &Sight<'_>, raw: &[RawKey]) -> Result<SqlKeys, Stop>
    ensures { Gives (λ x. x) result (each_of (named_key_of (scope_of 0 (knowns_of (in_sight known.now)))) (keys_of raw.now)) }
{
    let mut keys = SqlKeys::new(alloc);
    for raw_key in raw {
        keys.push(key(known, raw_key)?)?;
    }
    Ok(keys)
}

fn kind(known: &Sight<'_>, raw: &RawKind) -> Result<NumberKind, Stop>
    ensures { Gives (λ x. x) result (named_kind_of (scope_of 0 (knowns_of (in_sight known.now))) (kind_of raw.now)) }
{
    match raw {
        RawKind::Count => Ok(NumberKind::Count),
        RawKind::Sum(col, other) => Ok(NumberKind::Sum(named_col(known, 0, col)?, *other)),
        RawKind::Max(col, other) => Ok(NumberKind::Max(named_col(known, 0, col)?, *other)),
        RawKind::Min(col, other) => Ok(NumberKind::Min(named_col(known, 0, col)?, *other)),
    }
}

fn listing(alloc: Global, schema: &[Table], raw: &RawListing) -> Result<ListQuery, Stop>
    ensures { Gives plain_listing result (named_listing schema.now (listing_of raw.now)) }
{
    let mut known = Sight::new(alloc);
    let from = entered(alloc, schema, &mut known, &raw.source.parts)?;
    let item = item(&known, &raw.item)?;
    let filter = filter(alloc, schema, &mut known, &raw.source.filter)?;
    let group = group(&known, &raw.group)?;
    let keys = keys(alloc, &known, raw.keys.as_slice())?;
    Ok(ListQuery {
        item,
        from,
        filter: unboxed(filter),
        group,
        keys,
        limit: raw.limit,
        params: Tys::new(alloc),
    })
}

fn number(alloc: Global, schema: &[Table], raw: &RawNumber) -> Result<NumberQuery, Stop>
    ensures { Gives plain_number result (named_number schema.now (number_of raw.now)) }
{
    let mut known = Sight::new(alloc);
    let from = entered(alloc, schema, &mut known, &raw.source.parts)?;
    let kind = kind(&known, &raw.kind)?;
    let filter = filter(alloc, schema, &mut known, &raw.source.filter)?;
    Ok(NumberQuery {
        kind,
        from,
        filter: unboxed(filter),
        params: Tys::new(alloc),
    })
}

fn truth(alloc: Global, schema: &[Table], raw: &RawTruth) -> Result<TruthQuery, Stop>
    ensures { Gives plain_truth result (named_truth schema.now (truth_of raw.now)) }
{
    let mut known = Sight::new(alloc);
    let from = entered(alloc, schema, &mut known, &raw.source.parts)?;
    let filter = filter(alloc, schema, &mut known, &raw.source.filter)?;
    Ok(TruthQuery {
        negated: raw.negated,
        from,
        filter: unboxed(filter),
        params: Tys::new(alloc),
    })
}

/// The query that is written, its parameters' types still to be found.
pub fn named_query(alloc: Global, schema: &[Table], raw: &RawQuery) -> Result<Box<Query>, Stop>
    ensures { Gives (λ q. plain_query q.value) result (named_query_of schema.now (query_of raw.now)) }
{
    match raw {
        RawQuery::Listing(raw) => {
            let q = listing(alloc, schema, raw)?;
            Ok(Box::new(alloc, Query::Listing(q))?)
        }
        RawQuery::Number(raw) => {
            let q = number(alloc, schema, raw)?;
            Ok(Box::new(alloc, Query::Number(q))?)
        }
        RawQuery::Truth(raw) => {
            let q = truth(alloc, schema, raw)?;
            Ok(Box::new(alloc, Query::Truth(q))?)
        }
    }
}
