// The names that tokens declare, and the rules that they break.
use crate::keywords::{is_reserved, is_reserved_table};
use qbs_base::{Name, Names, NoMemory};
use schema::keywords::spells;
use schema::names::{Role, Seen, Where, is_full};
use schema::token::{Kind, Sign, Token};
use schema::{SchemaFault, SchemaRule};
use std::alloc::Global;

/// A table has no more columns.
const MOST_COLUMNS: usize = 32;

ghost use Rattle.std.specs.Prelude.{◌≡◌, ◌++◌, List, IfOk, OnOk, Some, option_map};
ghost use Rattle.std.specs.Str.{bytes_eq};
ghost use Rattle.readers.specs.Reading.{option_cases};
ghost use Rattle.schema.specs.Words.{is_among};
ghost use Rattle.schema.specs.Naming.{Declared, next_where, begins_key as begins_key_clause, role_of, declares, declared_before, nothing_seen, seen_with, broken_by, first_broken as first_broken_name};
ghost use Rattle.schema.specs.declared.names.Where.TheVariants.{Create};

/// Whether a name is one of these.
pub fn holds(names: &[Name], name: &Name) -> bool
    ensures { result ≡ is_among bytes_eq names.now name.now }
{
    for other in names {
        if *other == *name {
            return true;
        }
    }
    false
}

/// The rule of the smallest number that a name breaks behind these.
fn rule(seen: &Seen, role: Role, name: &Name) -> Option<SchemaRule>
    ensures { result ≡ broken_by seen.now role name.now }
{
    match role {
        Role::Table => table_rule(seen, name),
        Role::Column => column_rule(seen, name),
    }
}

fn table_rule(seen: &Seen, name: &Name) -> Option<SchemaRule>
    ensures { result ≡ broken_by seen.now Role.Table name.now }
{
    if holds(seen.tables.as_slice(), name) {
        Some(SchemaRule::DoubleTable)
    } else if is_reserved_table(name.as_str()) {
        Some(SchemaRule::NameReserved)
    } else if is_full(seen.tables.len()) {
        Some(SchemaRule::TooManyTables)
    } else {
        None
    }
}

fn column_rule(seen: &Seen, name: &Name) -> Option<SchemaRule>
    ensures { result ≡ broken_by seen.now Role.Column name.now }
{
    if holds(seen.columns.as_slice(), name) {
        Some(SchemaRule::DoubleColumn)
    } else if is_reserved(name.as_str()) {
        Some(SchemaRule::NameReserved)
    } else if seen.columns.len() >= MOST_COLUMNS {
        Some(SchemaRule::TooManyColumns)
    } else {
        None
    }
}

/// Adds a name. The columns are those of the table that was added last.
fn add(seen: &mut Seen, alloc: Global, role: Role, name: &Name) -> Result<(), NoMemory>
    ensures { OnOk result (seen.new ≡ seen_with seen.old role name.now) }
{
    let name = name.clone()?;
    match role {
        Role::Table => {
            seen.columns = Names::new(alloc);
            seen.tables.push(name)
        }
        Role::Column => seen.columns.push(name),
    }
}

/// Where the token behind this one stands.
fn next(place: Where, token: &Token) -> Where
    ensures { result ≡ next_where place token.now.kind }
{
    match place {
        Where::Create => Where::Table,
        Where::Table => Where::TableName,
        Where::TableName => Where::Open,
        Where::Open => Where::ColumnName,
        Where::ColumnName => Where::Body,
        Where::Body => match &token.kind {
            Kind::Sign(Sign::Comma) => Where::ColumnName,
            Kind::Sign(Sign::Open) => Where::Inner,
            Kind::Sign(Sign::Close) => Where::End,
            _ => Where::Body,
        },
        Where::Inner => match &token.kind {
            Kind::Sign(Sign::Close) => Where::Body,
            _ => Where::Inner,
        },
        Where::End => Where::Create,
    }
}

/// Whether a word before these tokens begins a key clause.
fn begins_key(word: &Name, rest: &[Token]) -> bool
    ensures { result ≡ begins_key_clause word.now rest.now }
{
    match rest {
        [] => false,
        [first, ..] => spells("PRIMARY", word.as_slice()) && first.is_word("KEY"),
    }
}

/// What a token declares, before these.
fn declared_by<'a>(place: Where, token: &'a Token, rest: &[Token]) -> Option<(Role, &'a Name)>
    ensures { option_map (λ x. (x.0, x.1.now)) result ≡ role_of place token.now.kind rest.now }
{
    match (place, &token.kind) {
        (Where::TableName, Kind::Word(name)) => Some((Role::Table, name)),
        (Where::ColumnName, Kind::Word(name)) if !begins_key(name, rest) => {
            Some((Role::Column, name))
        }
        _ => None,
    }
}

/// The fault of the name that a token declares before these, and none where it declares none
/// or breaks no rule. The name is then added.
fn judge(
    seen: &mut Seen,
    alloc: Global,
    place: Where,
    token: &Token,
    rest: &[Token],
) -> Result<Option<SchemaFault>, NoMemory>
    ensures { IfOk result (λ fault.
        (names : List Declared)
        → first_broken_name seen.old (declares (role_of place token.now.kind rest.now) token.now.at ++ names)
        ≡ option_cases fault (first_broken_name seen.new names) (λ f. Some f)) }
{
    let Some((role, name)) = declared_by(place, token, rest) else {
        return Ok(None);
    };
    if let Some(rule) = rule(seen, role, name) {
        return Ok(Some(SchemaFault { rule, at: token.at }));
    }
    add(seen, alloc, role, name)?;
    Ok(None)
}

/// The fault of the first name that breaks a rule, among those that all but the last so many of the
/// tokens of a schema declare.
pub fn first_broken(
    alloc: Global,
    tokens: &[Token],
    left: usize,
) -> Result<Option<SchemaFault>, NoMemory>
    ensures { IfOk result (λ fault. fault ≡ first_broken_name nothing_seen (declared_before left Create tokens.now)) }
{
    let mut seen = Seen {
        tables: Names::new(alloc),
        columns: Names::new(alloc),
    };
    let mut place = Where::Create;
    let mut rest = tokens;
    while let Some((token, after)) = rest.split_first() {
        if after.len() < left {
            return Ok(None);
        }
        let fault = judge(&mut seen, alloc, place, token, after)?;
        if fault.is_some() {
            return Ok(fault);
        }
        place = next(place, token);
        rest = after;
    }
    Ok(None)
}
