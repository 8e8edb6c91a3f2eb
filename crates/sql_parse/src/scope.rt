// FROM items in sight, and what names mean among them.
ghost use Rattle.std.specs.Prelude.{◌≡◌, ◌≤◌, map, length, IfOk, option_map};
ghost use Rattle.qbs_base.specs.Columns.{table_number, column_number};
ghost use Rattle.std.specs.declared.option.Option.TheVariants.{Some};
ghost use Rattle.sql_ast.specs.InSight.{in_sight};
ghost use Rattle.sql_ast.specs.Knowns.{known_of, knowns_of};
ghost use Rattle.sql_ast.specs.Names.{alias_of as alias_of_part, known_part as known_part_of, each_of, are_distinct as all_differ, known_parts as known_parts_of, item_named as item_named_of, column_named as column_named_of, named_col as named_col_of, named_opnd as named_opnd_of, froms_of};
ghost use Rattle.sql_parse.specs.Said.{col_of, opnd_of, part_of, parts_of};
ghost use Rattle.sql_parse.specs.Scopes.{scope_of, aliases_of, table_named as table_named_of};
ghost use Rattle.sql_parse.specs.Seen.{Gives};

use crate::fault::Stop;
use crate::raw::{RawCol, RawOpnd, RawPart};
use qbs_base::{Column, Columns, Name, NoMemory, Table};
use sql_ast::{FromItem, FromItems, Known, Places, Sight, SqlCol, SqlColumn, SqlOpnd};
use std::alloc::Global;

/// A number of 32 bits. More tables, columns or FROM items do not fit in memory.
pub fn small(number: usize) -> Result<u32, Stop>
    ensures { Gives (λ n. n) result (Some number) }
{
    match u32::try_from(number) {
        Ok(number) => Ok(number),
        Err(_) => Err(Stop::NoMemory),
    }
}

// ---- FROM

fn table_place(schema: &[Table], name: &Name) -> Option<usize>
    ensures { result ≡ table_number schema.now name.now }
{
    schema.iter().position(|table| table.name == *name)
}

/// The first table of this name, with its number.
fn table_named<'a>(schema: &'a [Table], name: &Name) -> Option<(usize, &'a Table)>
    ensures { option_map (λ x. (x.0, x.1.now)) result ≡ table_named_of schema.now name.now }
{
    match table_place(schema, name) {
        None => None,
        Some(number) => match schema.get(number) {
            None => None,
            Some(table) => Some((number, table)),
        },
    }
}

/// A FROM item without an alias has its table's name.
fn alias_of(part: &RawPart) -> &Name
    ensures { result.now ≡ alias_of_part (part_of part.now) }
{
    match &part.alias {
        Some(alias) => alias,
        None => &part.table,
    }
}

fn known_part<'a>(schema: &'a [Table], part: &'a RawPart) -> Result<Known<'a>, Stop>
    ensures { Gives known_of result (known_part_of schema.now (part_of part.now)) }
{
    let Some((number, table)) = table_named(schema, &part.table) else {
        return Err(Stop::Broken);
    };
    let number = small(number)?;
    let name = part.table.clone()?;
    let from = FromItem {
        name,
        table: number,
    };
    Ok(Known {
        alias: alias_of(part),
        columns: &table.columns,
        from,
    })
}

fn each_part<'a>(
    alloc: Global,
    schema: &'a [Table],
    parts: &'a [RawPart],
) -> Result<Vec<Known<'a>>, Stop>
    ensures { Gives (λ v. knowns_of v.items) result (each_of (known_part_of schema.now) (parts_of parts.now)) }
{
    let mut own = Vec::new(alloc);
    for number in 0..parts.len() {
        let item = known_part(schema, &parts[number])?;
        own.push(item)?;
    }
    Ok(own)
}

/// Whether no alias stands twice.
fn are_distinct(alloc: Global, own: &[Known<'_>]) -> Result<bool, NoMemory>
    ensures { IfOk result (λ b. b ≡ all_differ (aliases_of (knowns_of own.now))) }
{
    let mut met = Places::new(alloc);
    for number in 0..own.len() {
        let alias = own[number].alias;
        if met.get(alias).is_some() {
            return Ok(false);
        }
        met.put(alias, Some(number))?;
    }
    Ok(true)
}

/// The items of one FROM, whose aliases differ.
pub fn known_parts<'a>(
    alloc: Global,
    schema: &'a [Table],
    parts: &'a [RawPart],
) -> Result<Vec<Known<'a>>, Stop>
    ensures { Gives (λ v. knowns_of v.items) result (known_parts_of schema.now (parts_of parts.now)) }
{
    let own = each_part(alloc, schema, parts)?;
    if !are_distinct(alloc, &own)? {
        return Err(Stop::Broken);
    }
    Ok(own)
}

/// What a query keeps of FROM items.
pub fn from_items(alloc: Global, own: &[Known<'_>]) -> Result<FromItems, NoMemory>
    ensures { IfOk result (λ items. items ≡ froms_of (knowns_of own.now)) }
{
    let mut items = FromItems::new(alloc);
    for item in own {
        items.push(item.from.clone()?)?;
    }
    Ok(items)
}

// ---- names, where the first `around` items in sight are of the SELECTs around

/// The item that an alias means, or the only one of the SELECT where there is no alias.
pub fn item_named<'k, 'a>(
    known: &'k Sight<'a>,
    around: usize,
    alias: &Option<Name>,
) -> Option<(usize, &'k Known<'a>)>
    requires { around ≤ length (in_sight known.now) }
    ensures { option_map (λ x. (x.0, known_of x.1.now)) result ≡ item_named_of (scope_of around (knowns_of (in_sight known.now))) alias.now }
{
    match alias {
        Some(alias) => known.innermost(alias),
        None => known.only(around),
    }
}

fn column_place(columns: &[Column], name: &Name) -> Option<usize>
    ensures { result ≡ column_number columns.now name.now }
{
    columns.iter().position(|column| column.name == *name)
}

fn column_named(columns: &Columns, name: &Name) -> Result<SqlColumn, Stop>
    ensures { Gives (λ c. c) result (column_named_of columns.now name.now) }
{
    if name.as_str() == "_pos" {
        return Ok(SqlColumn::Pos);
    }
    match column_place(columns.as_slice(), name) {
        None => Err(Stop::Broken),
        Some(number) => {
            let number = small(number)?;
            let name = name.clone()?;
            Ok(SqlColumn::Named { name, number })
        }
    }
}

pub fn named_col(known: &Sight<'_>, around: usize, col: &RawCol) -> Result<SqlCol, Stop>
    requires { around ≤ length (in_sight known.now) }
    ensures { Gives (λ c. c) result (named_col_of (scope_of around (knowns_of (in_sight known.now))) (col_of col.now)) }
{
    let Some((number, item)) = item_named(known, around, &col.alias) else {
        return Err(Stop::Broken);
    };
    let column = column_named(item.columns, &col.name)?;
    let item = small(number)?;
    Ok(SqlCol { item, column })
}

pub fn named_opnd(known: &Sight<'_>, around: usize, opnd: &RawOpnd) -> Result<SqlOpnd, Stop>
    requires { around ≤ length (in_sight known.now) }
    ensures { Gives (λ o. o) result (named_opnd_of (scope_of around (knowns_of (in_sight known.now))) (opnd_of opnd.now)) }
{
    match opnd {
        RawOpnd::Column(col) => Ok(SqlOpnd::Column(named_col(known, around, col)?)),
        RawOpnd::Lit(scalar) => Ok(SqlOpnd::Lit(scalar.clone()?)),
        RawOpnd::Param(number) => Ok(SqlOpnd::Param(*number)),
    }
}
