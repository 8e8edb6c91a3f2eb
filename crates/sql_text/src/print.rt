// The printer of queries. Each function appends to the text so far.
ghost use Rattle.std.specs.Prelude.{◌≡◌, ◌+◌, ◌++◌, OnOk, IfOk, string_bytes, length, codes};
ghost use Rattle.std.specs.Fmt.{decimal, signed_decimal};
ghost use Rattle.sql_ast.specs.Reading.{query, condition, filter_of, inner_filter, listing, number, truth};
ghost use Rattle.sql_ast.specs.Tree.{Both, Either};
ghost use Rattle.sql_ast.specs.Canonical.{canonical, col_text, scalar_text, opnd_text, cmp_text, from_item_text, further_items_text, from_text, opening, closing, in_text, condition_text, filter_text, item_text, group_text, key_text, keys_text, limit_text, kind_text, source_text, listing_text, number_text, truth_text, exists_text, down_text, least_text, total_text};
ghost use Rattle.std.specs.List.{flat_map};

use qbs_base::{NoMemory, Scalar, Text};
use sql_ast::{
    Cmp, Cond, FromItem, FromItems, ListQuery, NumberKind, NumberQuery, Query, SqlCol, SqlColumn,
    SqlItem, SqlKey, SqlOpnd, TruthQuery, put_doubled,
};
use std::alloc::Global;

fn put_col(out: &mut String, col: &SqlCol) -> Result<(), NoMemory>
    ensures { OnOk result (string_bytes out.new ≡ string_bytes out.old ++ col_text col.now) }
{
    let item = col.item;
    write!(out, "t{item}.")?;
    match &col.column {
        SqlColumn::Pos => out.push_str("_pos")?,
        SqlColumn::Named { name, number: _ } => out.push_str(name.as_str())?,
    }
    Ok(())
}

fn put_scalar(out: &mut String, scalar: &Scalar) -> Result<(), NoMemory>
    ensures { OnOk result (string_bytes out.new ≡ string_bytes out.old ++ scalar_text scalar.now) }
{
    match scalar {
        Scalar::Long(n) => {
            let n = *n;
            write!(out, "{n}")?;
        }
        Scalar::Bool(true) => out.push_str("TRUE")?,
        Scalar::Bool(false) => out.push_str("FALSE")?,
        Scalar::Text(text) => {
            out.push_str("'")?;
            put_doubled(out, text.as_str())?;
            out.push_str("'")?;
        }
    }
    Ok(())
}

fn put_opnd(out: &mut String, opnd: &SqlOpnd) -> Result<(), NoMemory>
    ensures { OnOk result (string_bytes out.new ≡ string_bytes out.old ++ opnd_text opnd.now) }
{
    match opnd {
        SqlOpnd::Column(col) => put_col(out, col),
        SqlOpnd::Lit(scalar) => put_scalar(out, scalar),
        SqlOpnd::Param(n) => {
            let n = *n;
            write!(out, "?{n}")?;
            Ok(())
        }
    }
}

fn put_cmp(out: &mut String, cmp: Cmp) -> Result<(), NoMemory>
    ensures { OnOk result (string_bytes out.new ≡ string_bytes out.old ++ cmp_text cmp) }
{
    let text = match cmp {
        Cmp::Eq => " = ",
        Cmp::Ne => " <> ",
        Cmp::Lt => " < ",
        Cmp::Le => " <= ",
        Cmp::Gt => " > ",
        Cmp::Ge => " >= ",
    };
    out.push_str(text)?;
    Ok(())
}

fn put_from_item(out: &mut String, number: u64, from: &FromItem) -> Result<(), NoMemory>
    ensures { OnOk result (string_bytes out.new ≡ string_bytes out.old ++ from_item_text number from.now) }
{
    out.push_str(from.name.as_str())?;
    write!(out, " t{number}")?;
    Ok(())
}

/// Appends FROM items after the first, the next one with the number after `last`. More of them
/// than a u64 counts do not fit in memory.
fn put_further_items(out: &mut String, last: u64, froms: &[FromItem]) -> Result<(), NoMemory>
    ensures { OnOk result (string_bytes out.new ≡ string_bytes out.old ++ further_items_text (last + 1) froms.now) }
{
    let mut number = last;
    for from in froms {
        number = number.checked_add(1).ok_or(NoMemory)?;
        out.push_str(", ")?;
        put_from_item(out, number, from)?;
    }
    Ok(())
}

/// Appends FROM items, the first with the number after `around`.
fn put_from(out: &mut String, around: u64, froms: &[FromItem]) -> Result<(), NoMemory>
    ensures { OnOk result (string_bytes out.new ≡ string_bytes out.old ++ from_text around froms.now) }
{
    match froms {
        [] => Ok(()),
        [first, rest @ ..] => {
            let number = around.checked_add(1).ok_or(NoMemory)?;
            put_from_item(out, number, first)?;
            put_further_items(out, number, rest)
        }
    }
}

fn open_if(out: &mut String, wrapped: bool) -> Result<(), NoMemory>
    ensures { OnOk result (string_bytes out.new ≡ string_bytes out.old ++ opening wrapped) }
{
    if wrapped {
        out.push_str("(")?;
    }
    Ok(())
}

fn close_if(out: &mut String, wrapped: bool) -> Result<(), NoMemory>
    ensures { OnOk result (string_bytes out.new ≡ string_bytes out.old ++ closing wrapped) }
{
    if wrapped {
        out.push_str(")")?;
    }
    Ok(())
}

fn put_in(out: &mut String, negated: bool) -> Result<(), NoMemory>
    ensures { OnOk result (string_bytes out.new ≡ string_bytes out.old ++ in_text negated) }
{
    let text = if negated {
        " NOT IN (SELECT "
    } else {
        " IN (SELECT "
    };
    out.push_str(text)?;
    Ok(())
}

/// How many FROM items stand in a SELECT and those around it. More than a u64 counts do not fit in
/// memory.
fn with_items(around: u64, froms: &FromItems) -> Result<u64, NoMemory>
    ensures { IfOk result (λ n. n ≡ around + length froms.now) }
{
    around.checked_add(froms.len() as u64).ok_or(NoMemory)
}

fn put_comparison(out: &mut String, cmp: Cmp, a: &SqlOpnd, b: &SqlOpnd) -> Result<(), NoMemory>
    ensures { OnOk result (string_bytes out.new ≡ string_bytes out.old ++ (opnd_text a.now ++ cmp_text cmp ++ opnd_text b.now)) }
{
    put_opnd(out, a)?;
    put_cmp(out, cmp)?;
    put_opnd(out, b)
}

/// Appends IN or NOT IN as far as its FROM.
fn put_member(out: &mut String, opnd: &SqlOpnd, negated: bool, col: &SqlCol) -> Result<(), NoMemory>
    ensures { OnOk result (string_bytes out.new ≡ string_bytes out.old ++ (opnd_text opnd.now ++ in_text negated ++ col_text col.now ++ codes " FROM ")) }
{
    put_opnd(out, opnd)?;
    put_in(out, negated)?;
    put_col(out, col)?;
    out.push_str(" FROM ")?;
    Ok(())
}

/// Appends a condition where so many FROM items stand in the SELECTs around, in parentheses where
/// it binds less tightly than `rank` wants.
#[cycle(put_condition)]
fn put_condition(out: &mut String, around: u64, rank: u8, cond: &Cond) -> Result<(), NoMemory>
    ensures { OnOk result (string_bytes out.new ≡ string_bytes out.old ++ condition_text around rank (condition cond.now)) }
{
    match cond {
        Cond::Either(a, b) => put_either(out, around, rank, a, b),
        Cond::Both(a, b) => put_both(out, around, rank, a, b),
        Cond::Not(a) => {
            out.push_str("NOT ")?;
            put_condition(out, around, 2, a)
        }
        Cond::Compare(cmp, a, b) => put_comparison(out, *cmp, a, b),
        Cond::Bare(col) => put_col(out, col),
        Cond::Exists { from, filter } => {
            out.push_str("EXISTS (SELECT 1 FROM ")?;
            put_inner(out, around, from, filter)
        }
        Cond::Within {
            opnd,
            negated,
            col,
            from,
            filter,
        } => {
            put_member(out, opnd, *negated, col)?;
            put_inner(out, around, from, filter)
        }
    }
}

#[cycle(put_condition)]
fn put_either(out: &mut String, around: u64, rank: u8, a: &Cond, b: &Cond) -> Result<(), NoMemory>
    ensures { OnOk result (string_bytes out.new ≡ string_bytes out.old ++ condition_text around rank (Either (condition a.now) (condition b.now))) }
{
    open_if(out, 0 < rank)?;
    put_condition(out, around, 0, a)?;
    out.push_str(" OR ")?;
    put_condition(out, around, 1, b)?;
    close_if(out, 0 < rank)
}

#[cycle(put_condition)]
fn put_both(out: &mut String, around: u64, rank: u8, a: &Cond, b: &Cond) -> Result<(), NoMemory>
    ensures { OnOk result (string_bytes out.new ≡ string_bytes out.old ++ condition_text around rank (Both (condition a.now) (condition b.now))) }
{
    open_if(out, 1 < rank)?;
    put_condition(out, around, 1, a)?;
    out.push_str(" AND ")?;
    put_condition(out, around, 2, b)?;
    close_if(out, 1 < rank)
}

/// Appends FROM and WHERE of an inner SELECT, and closes it.
#[cycle(put_condition)]
fn put_inner(
    out: &mut String,
    around: u64,
    from: &FromItems,
    filter: &Option<Box<Cond>>,
) -> Result<(), NoMemory>
    ensures { OnOk result (
        string_bytes out.new
        ≡ string_bytes out.old ++ (from_text around from.now ++ filter_text (around + length from.now) (inner_filter filter.now) ++ codes ")")) }
{
    put_from(out, around, from.as_slice())?;
    put_filter(out, with_items(around, from)?, filter)?;
    close_if(out, true)
}

/// Appends WHERE, where so many FROM items stand before it.
#[cycle(put_condition)]
fn put_filter(out: &mut String, around: u64, filter: &Option<Box<Cond>>) -> Result<(), NoMemory>
    ensures { OnOk result (string_bytes out.new ≡ string_bytes out.old ++ filter_text around (inner_filter filter.now)) }
{
    match filter {
        None => Ok(()),
        Some(a) => {
            out.push_str(" WHERE ")?;
            put_condition(out, around, 0, a)
        }
    }
}

/// Appends FROM and WHERE of the outermost SELECT.
fn put_source(out: &mut String, froms: &FromItems, filter: &Option<Cond>) -> Result<(), NoMemory>
    ensures { OnOk result (string_bytes out.new ≡ string_bytes out.old ++ source_text froms.now (filter_of filter.now)) }
{
    out.push_str(" FROM ")?;
    put_from(out, 0, froms.as_slice())?;
    match filter {
        None => Ok(()),
        Some(cond) => {
            out.push_str(" WHERE ")?;
            put_condition(out, froms.len() as u64, 0, cond)
        }
    }
}

fn put_item(out: &mut String, item: &SqlItem) -> Result<(), NoMemory>
    ensures { OnOk result (string_bytes out.new ≡ string_bytes out.old ++ item_text item.now) }
{
    match item {
        SqlItem::Whole(number) => {
            let number = *number;
            write!(out, "t{number}.*")?;
            Ok(())
        }
        SqlItem::Column(col) => put_col(out, col),
    }
}

fn put_group(out: &mut String, group: &Option<SqlCol>) -> Result<(), NoMemory>
    ensures { OnOk result (string_bytes out.new ≡ string_bytes out.old ++ group_text group.now) }
{
    match group {
        None => Ok(()),
        Some(col) => {
            out.push_str(" GROUP BY ")?;
            put_col(out, col)
        }
    }
}

fn put_direction(out: &mut String, down: bool) -> Result<(), NoMemory>
    ensures { OnOk result (string_bytes out.new ≡ string_bytes out.old ++ down_text down) }
{
    if down {
        out.push_str(" DESC")?;
    }
    Ok(())
}

fn put_key_column(out: &mut String, key: &SqlKey) -> Result<(), NoMemory>
    ensures { OnOk result (string_bytes out.new ≡ string_bytes out.old ++ least_text key.now.least key.now.col) }
{
    if key.least {
        out.push_str("MIN(")?;
        put_col(out, &key.col)?;
        close_if(out, true)
    } else {
        put_col(out, &key.col)
    }
}

fn put_key(out: &mut String, key: &SqlKey) -> Result<(), NoMemory>
    ensures { OnOk result (string_bytes out.new ≡ string_bytes out.old ++ key_text key.now) }
{
    put_key_column(out, key)?;
    put_direction(out, key.down)
}

/// Appends keys after the first.
fn put_further_keys(out: &mut String, keys: &[SqlKey]) -> Result<(), NoMemory>
    ensures { OnOk result (string_bytes out.new ≡ string_bytes out.old ++ flat_map (λ key. codes ", " ++ key_text key) keys.now) }
{
    for key in keys {
        out.push_str(", ")?;
        put_key(out, key)?;
    }
    Ok(())
}

fn put_keys(out: &mut String, keys: &[SqlKey]) -> Result<(), NoMemory>
    ensures { OnOk result (string_bytes out.new ≡ string_bytes out.old ++ keys_text keys.now) }
{
    match keys {
        [] => Ok(()),
        [first, rest @ ..] => {
            out.push_str(" ORDER BY ")?;
            put_key(out, first)?;
            put_further_keys(out, rest)
        }
    }
}

fn put_limit(out: &mut String, limit: Option<u64>) -> Result<(), NoMemory>
    ensures { OnOk result (string_bytes out.new ≡ string_bytes out.old ++ limit_text limit) }
{
    match limit {
        None => Ok(()),
        Some(most) => {
            write!(out, " LIMIT {most}")?;
            Ok(())
        }
    }
}

/// Appends the column of a total, and the number over no rows.
fn put_total(out: &mut String, col: &SqlCol, other: &i64) -> Result<(), NoMemory>
    ensures { OnOk result (string_bytes out.new ≡ string_bytes out.old ++ total_text col.now other.now) }
{
    let other = *other;
    put_col(out, col)?;
    write!(out, "), {other})")?;
    Ok(())
}

fn put_kind(out: &mut String, kind: &NumberKind) -> Result<(), NoMemory>
    ensures { OnOk result (string_bytes out.new ≡ string_bytes out.old ++ kind_text kind.now) }
{
    match kind {
        NumberKind::Count => {
            out.push_str("COUNT(*)")?;
            Ok(())
        }
        NumberKind::Sum(col, other) => {
            out.push_str("COALESCE(SUM(")?;
            put_total(out, col, other)
        }
        NumberKind::Max(col, other) => {
            out.push_str("COALESCE(MAX(")?;
            put_total(out, col, other)
        }
        NumberKind::Min(col, other) => {
            out.push_str("COALESCE(MIN(")?;
            put_total(out, col, other)
        }
    }
}

fn put_listing(out: &mut String, q: &ListQuery) -> Result<(), NoMemory>
    ensures { OnOk result (string_bytes out.new ≡ string_bytes out.old ++ listing_text (listing q.now)) }
{
    out.push_str("SELECT ")?;
    put_item(out, &q.item)?;
    put_source(out, &q.from, &q.filter)?;
    put_group(out, &q.group)?;
    put_keys(out, q.keys.as_slice())?;
    put_limit(out, q.limit)
}

fn put_number(out: &mut String, q: &NumberQuery) -> Result<(), NoMemory>
    ensures { OnOk result (string_bytes out.new ≡ string_bytes out.old ++ number_text (number q.now)) }
{
    out.push_str("SELECT ")?;
    put_kind(out, &q.kind)?;
    put_source(out, &q.from, &q.filter)
}

fn put_exists(out: &mut String, negated: bool) -> Result<(), NoMemory>
    ensures { OnOk result (string_bytes out.new ≡ string_bytes out.old ++ exists_text negated) }
{
    let text = if negated {
        "SELECT NOT EXISTS (SELECT 1"
    } else {
        "SELECT EXISTS (SELECT 1"
    };
    out.push_str(text)?;
    Ok(())
}

fn put_truth(out: &mut String, q: &TruthQuery) -> Result<(), NoMemory>
    ensures { OnOk result (string_bytes out.new ≡ string_bytes out.old ++ truth_text (truth q.now)) }
{
    put_exists(out, q.negated)?;
    put_source(out, &q.from, &q.filter)?;
    close_if(out, true)
}

fn put_query(out: &mut String, q: &Query) -> Result<(), NoMemory>
    ensures { OnOk result (string_bytes out.new ≡ string_bytes out.old ++ canonical (query q.now)) }
{
    match q {
        Query::Listing(q) => put_listing(out, q),
        Query::Number(q) => put_number(out, q),
        Query::Truth(q) => put_truth(out, q),
    }
}

/// The canonical text of a query.
pub fn print_query(alloc: Global, q: &Query) -> Result<Text, NoMemory>
    ensures { IfOk result (λ text. text ≡ canonical (query q.now)) }
{
    let mut out = String::new(alloc);
    put_query(&mut out, q)?;
    Ok(Text::from_string(out))
}
