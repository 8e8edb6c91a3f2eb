// The elements of a table: columns and constraints.
ghost use Rattle.std.specs.Prelude.{◌≡◌, IfOk, OnOk, map, option_map};
ghost use Rattle.std.specs.List.{list_any};
ghost use Rattle.std.specs.Str.{bytes_eq};
ghost use Rattle.dump_tables.specs.Columns as specs;

use crate::parts::{behind_open, has_pair, parts};
use crate::types::{is_serial, sort_of, spelling, type_len};
use crate::words::{is_name, is_one_of, is_quoted, meaning};
use crate::{DumpColumn, DumpTable, Sort};
use dump_items::Item;
use qbs_base::{Bytes, Items, NoMemory};
use std::alloc::Global;

/// What always begins a constraint.
const CONSTRAINTS: [&str; 8] = [
    "CONSTRAINT",
    "PRIMARY",
    "UNIQUE",
    "CHECK",
    "FOREIGN",
    "EXCLUDE",
    "LIKE",
    "PARTITION",
];

/// What begins a constraint, or names a column of a type of the language.
const INDEXES: [&str; 5] = ["KEY", "INDEX", "FULLTEXT", "SPATIAL", "PERIOD"];

/// The largest number of columns that is kept of a table.
const MOST_COLUMNS: usize = 4096;

pub fn copied(alloc: Global, bytes: &[u8]) -> Result<Bytes, NoMemory>
    ensures { IfOk result (λ b. b ≡ bytes.now) }
{
    Ok(Bytes::from_vec(bytes.to_vec(alloc)?))
}

fn not_null_in(items: &[Item]) -> bool
    ensures { result ≡ specs.not_null_in items.now }
{
    has_pair("NOT", "NULL", items)
}

fn primary_key_in(items: &[Item]) -> bool
    ensures { result ≡ specs.primary_key_in items.now }
{
    has_pair("PRIMARY", "KEY", items)
}

/// A column by its name, its type and its marks.
fn column_by(
    alloc: Global,
    name: &Item,
    ty: &[Item],
    marks: &[Item],
) -> Result<DumpColumn, NoMemory>
    ensures { IfOk result (λ c. c ≡ specs.column_by name.now ty.now marks.now) }
{
    Ok(DumpColumn {
        name: copied(alloc, meaning(name))?,
        quoted: is_quoted(name.kind),
        sort: sort_of(ty),
        spelled: spelling(alloc, ty)?,
        not_null: not_null_in(marks) || is_serial(ty),
        primary: primary_key_in(marks),
    })
}

/// A column by its name and what stands behind it.
fn column_of(alloc: Global, name: &Item, items: &[Item]) -> Result<DumpColumn, NoMemory>
    ensures { IfOk result (λ c. c ≡ specs.column_of name.now items.now) }
{
    let (ty, marks) = items.split_at(type_len(items));
    column_by(alloc, name, ty, marks)
}

/// The name that a part begins with.
fn first_name<'a>(part: &'a [Item]) -> Option<&'a [u8]>
    ensures { specs.names_in (option_map (λ n. n.now) result) ≡ specs.first_name part.now }
{
    match part {
        [first, ..] if is_name(first.kind) => Some(meaning(first)),
        _ => None,
    }
}

/// The names of a constraint's columns.
#[tactic(auto, unfolding(crate::specs::Columns::first_names))]
fn key_names<'a>(alloc: Global, constraint: &'a [Item]) -> Result<Vec<&'a [u8]>, NoMemory>
    ensures { IfOk result (λ ns. map (λ n. n.now) ns.items ≡ specs.key_names constraint.now) }
{
    let mut names = Vec::new(alloc);
    let parts = parts(alloc, behind_open(constraint))?;
    for part in parts.as_slice() {
        if let Some(name) = first_name(part) {
            names.push(name)?;
        }
    }
    Ok(names)
}

fn is_among(names: &[&[u8]], name: &[u8]) -> bool
    ensures { result ≡ list_any (λ n. bytes_eq n.now name.now) names.now }
{
    names.iter().any(|n| *n == name)
}

fn has_name(names: &[&[u8]], name: &[u8]) -> bool
    ensures { result ≡ specs.has_name (map (λ n. n.now) names.now) name.now }
{
    is_among(names, name)
}

/// Marks a column of these names as one of the primary key.
fn mark_key(column: &mut DumpColumn, names: &[&[u8]])
    ensures { column.new ≡ specs.with_key (map (λ n. n.now) names.now) column.old }
{
    column.primary = column.primary || has_name(names, column.name.as_slice());
}

/// Marks the columns of these names as those of the primary key.
#[tactic(auto, using(crate::proofs::Marked::changed_on))]
fn mark_keyed(columns: &mut Vec<DumpColumn>, names: &[&[u8]])
    ensures { columns.new.items ≡ map (specs.with_key (map (λ n. n.now) names.now)) columns.old.items }
{
    for column in columns.iter_mut() {
        mark_key(column, names);
    }
}

/// Marks the columns of a primary key.
fn take_key(alloc: Global, table: &mut DumpTable, constraint: &[Item]) -> Result<(), NoMemory>
    ensures { OnOk result (table.new ≡ specs.keyed table.old (specs.key_names constraint.now)) }
{
    let names = key_names(alloc, constraint)?;
    let mut columns = std::mem::replace(&mut table.columns, Items::new(alloc)).into_vec();
    mark_keyed(&mut columns, &names);
    table.columns = Items::from_vec(columns);
    Ok(())
}

/// Marks a column of this name as never NULL, or takes that mark away.
fn mark_null(column: &mut DumpColumn, name: &[u8], not_null: bool)
    ensures { column.new ≡ specs.with_null name.now not_null column.old }
{
    if column.name.as_slice() == name {
        column.not_null = not_null;
    }
}

/// Marks the columns of a name as never NULL, or takes that mark away.
#[tactic(auto, using(crate::proofs::Marked::changed_on))]
fn mark_nulls(columns: &mut Vec<DumpColumn>, name: &[u8], not_null: bool)
    ensures { columns.new.items ≡ map (specs.with_null name.now not_null) columns.old.items }
{
    for column in columns.iter_mut() {
        mark_null(column, name, not_null);
    }
}

pub fn take_null(alloc: Global, table: &mut DumpTable, name: &[u8], not_null: bool)
    ensures { table.new ≡ specs.with_nulls table.old name.now not_null }
{
    let mut columns = std::mem::replace(&mut table.columns, Items::new(alloc)).into_vec();
    mark_nulls(&mut columns, name, not_null);
    table.columns = Items::from_vec(columns);
}

/// Whether an element that begins with this item is a constraint.
fn is_constraint(first: &Item, rest: &[Item]) -> bool
    ensures { result ≡ specs.is_constraint first.now rest.now }
{
    is_one_of(&CONSTRAINTS, first)
        || (is_one_of(&INDEXES, first) && matches!(sort_of(&rest[..type_len(rest)]), Sort::Other))
}

fn take_column(table: &mut DumpTable, column: DumpColumn) -> Result<(), NoMemory>
    ensures { OnOk result (table.new ≡ specs.with_column table.old column) }
{
    if table.columns.len() < MOST_COLUMNS {
        table.columns.push(column)?;
    }
    Ok(())
}

/// Takes an element of a table: a column, or a constraint.
#[tactic(auto, unfolding(crate::specs::Columns::with_element))]
fn take_element(alloc: Global, table: &mut DumpTable, element: &[Item]) -> Result<(), NoMemory>
    ensures { OnOk result (table.new ≡ specs.with_element table.old element.now) }
{
    let [first, rest @ ..] = element else {
        return Ok(());
    };
    if is_constraint(first, rest) {
        if primary_key_in(element) {
            return take_key(alloc, table, element);
        }
        Ok(())
    } else if is_name(first.kind) {
        take_column(table, column_of(alloc, first, rest)?)
    } else {
        Ok(())
    }
}

/// Takes elements of a table in order.
#[tactic(auto, unfolding(crate::specs::Columns::with_elements))]
pub fn take_elements(
    alloc: Global,
    table: &mut DumpTable,
    elements: &[&[Item]],
) -> Result<(), NoMemory>
    ensures { OnOk result (table.new ≡ specs.with_elements table.old (map (λ e. e.now) elements.now)) }
{
    for element in elements {
        take_element(alloc, table, element)?;
    }
    Ok(())
}
