// What the options say besides: tables that aren't chosen, and names that nothing has.
ghost use Rattle.std.specs.Prelude.{◌≡◌, ◌++◌, ◌≤◌, IfOk, OnOk, length, codes};
ghost use Rattle.std.specs.Option.{option_copied};
ghost use Rattle.std.specs.List.{flat_map};
ghost use Rattle.dump_schema.specs.Entries as specs;

use crate::choice::{Choice, ColumnChoice, is_chosen, tables_chosen};
use crate::names::{push_named, push_pair};
use dump_tables::DumpTable;
use dump_text::{Entries, Entry};
use itoa::Buffer;
use qbs_base::{Bytes, NoMemory};
use std::alloc::Global;

/// One for a table that isn't chosen.
fn unchosen_here(chosen: Option<&[Bytes]>, name: &[u8]) -> usize
    ensures value { result ≡ specs.unchosen_here (option_copied chosen.entry) name.now }
    ensures within { result ≤ 1 }
{
    if is_chosen(chosen, name) { 0 } else { 1 }
}

/// How many tables aren't chosen.
fn unchosen(chosen: Option<&[Bytes]>, tables: &[DumpTable]) -> usize
    ensures { result ≡ specs.unchosen (option_copied chosen.entry) tables.now }
{
    let mut count = 0;
    for table in tables {
        count += unchosen_here(chosen, table.name.as_slice());
    }
    count
}

/// The comment on so many tables that aren't chosen.
#[tactic(auto, unfolding(crate::specs::Entries::unchosen_line))]
fn unchosen_entry(alloc: Global, count: usize) -> Result<Entry, NoMemory>
    ensures { IfOk result (λ e. e ≡ specs.unchosen_comment count) }
{
    let mut buffer = Buffer::new();
    let mut out = Vec::new(alloc);
    push_pair(
        &mut out,
        buffer.format(count as u64),
        " tables that --tables does not name",
    )?;
    Ok(Entry::Comment(Bytes::from_vec(out)))
}

fn push_unchosen(alloc: Global, entries: &mut Entries, count: usize) -> Result<(), NoMemory>
    ensures { OnOk result (entries.new ≡ entries.old ++ specs.unchosen_entry count) }
{
    if count == 0 {
        return Ok(());
    }
    entries.push(unchosen_entry(alloc, count)?)
}

/// Whether a table has this name.
fn has_name(tables: &[DumpTable], name: &[u8]) -> bool
    ensures { result ≡ specs.has_name tables.now name.now }
{
    for table in tables {
        if table.name.as_slice() == name {
            return true;
        }
    }
    false
}

/// The comment on a name that an option has and no table.
#[tactic(auto, unfolding(crate::specs::Entries::missing_line))]
fn missing(alloc: Global, option: &str, name: &[u8]) -> Result<Entry, NoMemory>
    ensures { IfOk result (λ e. e ≡ specs.missing option.now name.now) }
{
    let mut out = Vec::new(alloc);
    push_named(
        &mut out,
        option,
        " names the table ",
        name,
        ", which is not declared",
    )?;
    Ok(Entry::Comment(Bytes::from_vec(out)))
}

fn push_missing(
    alloc: Global,
    entries: &mut Entries,
    option: &str,
    tables: &[DumpTable],
    name: &[u8],
) -> Result<(), NoMemory>
    ensures { OnOk result (entries.new ≡ entries.old ++ specs.missing_entry option.now tables.now name.now) }
{
    if has_name(tables, name) {
        return Ok(());
    }
    entries.push(missing(alloc, option, name)?)
}

fn push_missing_names(
    alloc: Global,
    entries: &mut Entries,
    tables: &[DumpTable],
    names: &[Bytes],
) -> Result<(), NoMemory>
    ensures { OnOk result (entries.new ≡ entries.old ++ flat_map (specs.missing_entry (codes "--tables") tables.now) names.now) }
{
    for name in names {
        push_missing(alloc, entries, "--tables", tables, name.as_slice())?;
    }
    Ok(())
}

fn push_missing_tables(
    alloc: Global,
    entries: &mut Entries,
    tables: &[DumpTable],
    chosen: Option<&[Bytes]>,
) -> Result<(), NoMemory>
    ensures { OnOk result (entries.new ≡ entries.old ++ specs.missing_tables (option_copied chosen.entry) tables.now) }
{
    match chosen {
        None => Ok(()),
        Some(names) => push_missing_names(alloc, entries, tables, names),
    }
}

fn push_missing_choices(
    alloc: Global,
    entries: &mut Entries,
    tables: &[DumpTable],
    choices: &[ColumnChoice],
) -> Result<(), NoMemory>
    ensures { OnOk result (entries.new ≡ entries.old ++ specs.missing_choices choices.now tables.now) }
{
    for choice in choices {
        push_missing(alloc, entries, "--columns", tables, choice.table.as_slice())?;
    }
    Ok(())
}

/// Appends comments on the tables that aren't chosen and on the names that nothing has.
pub fn push_remarks(
    alloc: Global,
    entries: &mut Entries,
    choice: &Choice,
    tables: &[DumpTable],
) -> Result<(), NoMemory>
    ensures { OnOk result (entries.new ≡ entries.old ++ specs.remarks choice.now tables.now) }
{
    let chosen = tables_chosen(choice);
    push_unchosen(alloc, entries, unchosen(chosen, tables))?;
    push_missing_tables(alloc, entries, tables, tables_chosen(choice))?;
    push_missing_choices(alloc, entries, tables, choice.columns.as_slice())?;
    Ok(())
}
