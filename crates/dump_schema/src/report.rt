// How many tables and columns are written, of how many that the dump declares.
ghost use Rattle.std.specs.Prelude.{◌≡◌, ◌+◌, ◌++◌, ◌∷◌, [], IfOk, OnOk, length};
ghost use Rattle.std.specs.Fmt.{decimal};
ghost use Rattle.dump_text.specs.Entries.{columns_of, tables_of};
ghost use Rattle.dump_schema.specs.Report as specs;

use crate::names::push_str;
use dump_tables::DumpTable;
use dump_text::{Entry, Part};
use itoa::Buffer;
use qbs_base::{Bytes, NoMemory};
use std::alloc::Global;

/// How many columns are among these lines.
fn columns_in(parts: &[Part]) -> usize
    ensures { result ≡ length (columns_of parts.now) }
{
    let mut count = 0;
    for part in parts {
        if let Part::Column(_) = part {
            count += 1;
        }
    }
    count
}

/// How many tables are among these entries.
fn tables_in(entries: &[Entry]) -> usize
    ensures { result ≡ length (tables_of entries.now) }
{
    let mut count = 0;
    for entry in entries {
        if let Entry::Table(_) = entry {
            count += 1;
        }
    }
    count
}

/// How many columns an entry has.
fn columns_here(entry: &Entry) -> usize
    ensures { result ≡ specs.written_columns (tables_of (entry.now ∷ [])) }
{
    match entry {
        Entry::Table(table) => columns_in(table.parts.as_slice()),
        Entry::Comment(_) => 0,
    }
}

/// The sum, unless so many things are more than fit into memory.
fn sum(a: u64, b: u64) -> Result<u64, NoMemory>
    ensures { IfOk result (λ n. n ≡ a + b) }
{
    match a.checked_add(b) {
        Some(n) => Ok(n),
        None => Err(NoMemory),
    }
}

/// How many columns are written.
fn written_columns(entries: &[Entry]) -> Result<u64, NoMemory>
    ensures { IfOk result (λ n. n ≡ specs.written_columns (tables_of entries.now)) }
{
    let mut count = 0;
    for entry in entries {
        count = sum(count, columns_here(entry) as u64)?;
    }
    Ok(count)
}

/// How many columns are declared.
fn declared_columns(tables: &[DumpTable]) -> Result<u64, NoMemory>
    ensures { IfOk result (λ n. n ≡ specs.declared_columns tables.now) }
{
    let mut count = 0;
    for table in tables {
        count = sum(count, table.columns.len() as u64)?;
    }
    Ok(count)
}

fn push_number(out: &mut Vec<u8>, number: u64) -> Result<(), NoMemory>
    ensures { OnOk result (out.new.items ≡ out.old.items ++ decimal number) }
{
    let mut buffer = Buffer::new();
    push_str(out, buffer.format(number))
}

fn push_behind(out: &mut Vec<u8>, front: &str, number: u64, back: &str) -> Result<(), NoMemory>
    ensures { OnOk result (out.new.items ≡ out.old.items ++ (front.now ++ (decimal number ++ back.now))) }
{
    push_str(out, front)?;
    push_number(out, number)?;
    push_str(out, back)?;
    Ok(())
}

fn push_numbers(
    out: &mut Vec<u8>,
    front: &str,
    written: u64,
    middle: &str,
    declared: u64,
    back: &str,
) -> Result<(), NoMemory>
    ensures { OnOk result (out.new.items ≡ out.old.items ++ (front.now ++ (decimal written ++ (middle.now ++ (decimal declared ++ back.now))))) }
{
    push_str(out, front)?;
    push_number(out, written)?;
    push_behind(out, middle, declared, back)?;
    Ok(())
}

#[tactic(auto, unfolding(crate::specs::Report::line))]
fn push_line(out: &mut Vec<u8>, what: &str, written: u64, declared: u64) -> Result<(), NoMemory>
    ensures { OnOk result (out.new.items ≡ out.old.items ++ specs.line what.now written declared) }
{
    push_numbers(out, what, written, " of ", declared, "\n")
}

/// The lines `tables N of M` and `columns N of M`.
pub fn report(alloc: Global, entries: &[Entry], tables: &[DumpTable]) -> Result<Bytes, NoMemory>
    ensures { IfOk result (λ r. r ≡ specs.report_of (tables_of entries.now) tables.now) }
{
    let columns = written_columns(entries)?;
    let declared = declared_columns(tables)?;
    let mut out = Vec::new(alloc);
    push_line(
        &mut out,
        "tables ",
        tables_in(entries) as u64,
        tables.len() as u64,
    )?;
    push_line(&mut out, "columns ", columns, declared)?;
    Ok(Bytes::from_vec(out))
}
