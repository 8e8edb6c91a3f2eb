// The rules that a query with known names keeps.
ghost use Rattle.std.specs.Prelude.{◌≡◌, IfOk, suc, length};
ghost use Rattle.std.specs.List.{list_any};
ghost use Rattle.sql_ast.specs.Reading.{filter_of as plain_filter, query as plain_query, listing as plain_listing};
ghost use Rattle.sql_ast.specs.Texts.{judged_named};
ghost use Rattle.sql_ast.specs.Typing.{types_fit as types_fit_of, kind_fits as kind_fits_of, filter_param as filter_param_of, listing_groups, group_fits as group_fits_of, with_params as with_params_of, ty_of_param};
ghost use Rattle.sql_parse.specs.Answers.{Answers};
ghost use Rattle.sql_parse.specs.Types.{param_at, from_in, filter_in};

use crate::fault::Stop;
use crate::params::{filter_fits_all, known_tys, outermost, param_tys};
use crate::refusal::{SqlFault, broken};
use crate::typing::kind_fits;
use qbs_base::{Fail, NoMemory, Table, Ty, Tys};
use sql_ast::{
    Cond, FromItems, ListQuery, NumberKind, NumberQuery, Query, SqlKey, SqlRule, TruthQuery,
    is_grouped,
};
use std::alloc::Global;

/// The FROM and the WHERE of a query.
fn source(query: &Query) -> (&FromItems, &Option<Cond>)
    ensures from { result.0.now ≡ from_in (plain_query query.now) }
    ensures filter { plain_filter result.1.now ≡ filter_in (plain_query query.now) }
{
    match query {
        Query::Listing(q) => (&q.from, &q.filter),
        Query::Number(q) => (&q.from, &q.filter),
        Query::Truth(q) => (&q.from, &q.filter),
    }
}

fn total_fits(
    alloc: Global,
    schema: &[Table],
    from: &FromItems,
    kind: &NumberKind,
) -> Result<bool, NoMemory>
    ensures { IfOk result (λ b. b ≡ kind_fits_of schema.now from.now kind.now) }
{
    let froms = outermost(alloc, from)?;
    Ok(kind_fits(schema, &froms, kind))
}

/// Whether the types of a query fit, given those of its parameters.
fn types_fit(
    alloc: Global,
    schema: &[Table],
    params: &[Option<Ty>],
    query: &Query,
) -> Result<bool, NoMemory>
    requires { param_at params.now ≡ ty_of_param schema.now (from_in (plain_query query.now)) (filter_in (plain_query query.now)) }
    ensures { IfOk result (λ b. b ≡ types_fit_of schema.now (plain_query query.now)) }
{
    match query {
        Query::Listing(q) => filter_fits_all(alloc, schema, params, &q.from, &q.filter),
        Query::Number(q) => {
            let total = total_fits(alloc, schema, &q.from, &q.kind)?;
            let filter = filter_fits_all(alloc, schema, params, &q.from, &q.filter)?;
            Ok(total && filter)
        }
        Query::Truth(q) => filter_fits_all(alloc, schema, params, &q.from, &q.filter),
    }
}

fn has_least(keys: &[SqlKey]) -> bool
    ensures { result ≡ list_any (λ key. key.least) keys.now }
{
    keys.iter().any(|key| key.least)
}

fn listing_fits(q: &ListQuery) -> bool
    ensures { result ≡ listing_groups (plain_listing q.now) }
{
    match &q.group {
        None => !has_least(q.keys.as_slice()),
        Some(_) => is_grouped(q),
    }
}

/// Whether a query is grouped as it has to be, and has no MIN key where it isn't grouped.
fn group_fits(query: &Query) -> bool
    ensures { result ≡ group_fits_of (plain_query query.now) }
{
    match query {
        Query::Listing(q) => listing_fits(q),
        Query::Number(_) => true,
        Query::Truth(_) => true,
    }
}

fn with_params(query: Query, params: Tys) -> Query
    ensures { plain_query result ≡ with_params_of (plain_query query) params }
{
    match query {
        Query::Listing(q) => Query::Listing(ListQuery { params, ..q }),
        Query::Number(q) => Query::Number(NumberQuery { params, ..q }),
        Query::Truth(q) => Query::Truth(TruthQuery { params, ..q }),
    }
}

/// The types of a query's parameters from 0 on.
fn params_from_zero(
    alloc: Global,
    schema: &[Table],
    query: &Query,
) -> Result<Vec<Option<Ty>>, NoMemory>
    ensures value { IfOk result (λ v. param_at v.items ≡ ty_of_param schema.now (from_in (plain_query query.now)) (filter_in (plain_query query.now))) }
    ensures len { IfOk result (λ v. length v.items ≡ suc (filter_param_of (filter_in (plain_query query.now)))) }
{
    let (from, filter) = source(query);
    param_tys(alloc, schema, from, filter)
}

/// The query with the types of its parameters, or the first rule that it breaks of those on types,
/// groups and parameters.
pub fn judge(alloc: Global, schema: &[Table], query: Box<Query>) -> Result<Query, Fail<SqlFault>>
    ensures { Answers plain_query result (judged_named schema.now (plain_query query.value)) }
{
    let params = params_from_zero(alloc, schema, &query)?;
    if !types_fit(alloc, schema, &params, &query)? {
        return Err(broken(SqlRule::Mismatch));
    }
    if !group_fits(&query) {
        return Err(broken(SqlRule::BadGroup));
    }
    let last = params.len() - 1;
    match known_tys(alloc, &params, last) {
        Ok(tys) => Ok(with_params(Box::into_inner(query), tys)),
        Err(Stop::Broken) => Err(broken(SqlRule::BadParameter)),
        Err(Stop::NoMemory) => Err(Fail::NoMemory),
    }
}
