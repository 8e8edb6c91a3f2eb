// What may be called behind a dot.
ghost use Rattle.std.specs.Prelude.{◌≡◌, option_map, IfOk};
ghost use Rattle.std.specs.Option.{option_copied};
ghost use Rattle.java_grammar.specs.Expressions.{limit as limit_of, created as created_by, query_of as query_of_member, call_of_database as database_call, call_of_name as name_call, call_on as call_on_name, call_of as call_of_member, left_behind as left_behind_call, name_or_none};
ghost use Rattle.java_grammar.specs.Calls.{seen};

use qbs_base::{Name, Text};
use std::alloc::{AllocError, Global};

/// A call behind a dot.
#[derive(Clone, Copy, PartialEq, Eq)]
pub enum Called {
    EqualTo,
    SizeOf,
    GetFrom,
    ContainedIn,
    FetchFrom,
    QueryOf,
    QueryOfLong,
    QueryOfBoolean,
}

/// The least and the greatest number of a type.
pub fn limit(ty: &str, bound: &str) -> Option<i64>
    ensures { result ≡ limit_of ty.now bound.now }
{
    if bound == "MIN_VALUE" {
        if ty == "Long" {
            Some(-9223372036854775808)
        } else {
            Some(-2147483648)
        }
    } else if bound == "MAX_VALUE" {
        if ty == "Long" {
            Some(9223372036854775807)
        } else {
            Some(2147483647)
        }
    } else {
        None
    }
}

/// What this word makes new: true where it is a set.
pub fn created(word: &str) -> Option<bool>
    ensures { result ≡ created_by word.now }
{
    if word == "ArrayList" {
        Some(false)
    } else if word == "LinkedHashSet" {
        Some(true)
    } else {
        None
    }
}

/// The query that this member of the database asks.
pub fn query_of(member: &str) -> Option<Called>
    ensures { option_map seen result ≡ query_of_member member.now }
{
    if member == "query" {
        Some(Called::QueryOf)
    } else if member == "queryLong" {
        Some(Called::QueryOfLong)
    } else if member == "queryBoolean" {
        Some(Called::QueryOfBoolean)
    } else {
        None
    }
}

fn call_of_database(member: &str) -> Option<Called>
    ensures { option_map seen result ≡ database_call member.now }
{
    if member == "fetch" {
        Some(Called::FetchFrom)
    } else {
        query_of(member)
    }
}

fn call_of_name(name: &str, member: &str) -> Option<Called>
    ensures { option_map seen result ≡ name_call name.now member.now }
{
    if member == "size" {
        Some(Called::SizeOf)
    } else if member == "get" {
        Some(Called::GetFrom)
    } else if member == "contains" {
        Some(Called::ContainedIn)
    } else if name == "db" {
        call_of_database(member)
    } else {
        None
    }
}

/// The call of this member, behind a name that stands alone or behind anything else.
pub fn call_of(bare: Option<&Name>, member: &str) -> Option<Called>
    ensures { option_map seen result ≡ call_of_member (option_copied bare.entry) member.now }
{
    if member == "equals" {
        return Some(Called::EqualTo);
    }
    match bare {
        Some(name) => call_of_name(name.as_str(), member),
        None => None,
    }
}

/// How many more parts may follow a call. A query is no part of a chain.
pub fn left_behind(call: Called, left: u32) -> u32
    ensures { result ≡ left_behind_call (seen call) left }
{
    match call {
        Called::FetchFrom | Called::QueryOf | Called::QueryOfLong | Called::QueryOfBoolean => left,
        _ => left.saturating_sub(1),
    }
}

/// The name, or an empty one where there is none.
pub fn name_or_empty(alloc: Global, name: Option<&Name>) -> Result<Name, AllocError>
    ensures { IfOk result (λ w. w ≡ name_or_none (option_copied name.entry)) }
{
    match name {
        Some(name) => name.clone(),
        None => Text::from_str(alloc, ""),
    }
}
