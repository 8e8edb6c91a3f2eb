// The lines of a table.
ghost use Rattle.std.specs.Prelude.{◌≡◌, ◌∷◌, ◌++◌, [], List, IfOk, OnOk, Some};
ghost use Rattle.std.specs.Option.{option_copied};
ghost use Rattle.std.specs.List.{flat_map};
ghost use Rattle.dump_tables.specs.declared.table.DumpColumn.{DumpColumn as PlainColumn};
ghost use Rattle.dump_schema.specs.Choices.{is_chosen as is_name_chosen};
ghost use Rattle.dump_schema.specs.Columns as specs;
ghost use Rattle.dump_schema.specs.Going.{all_parts};

use crate::Reason;
use crate::choice::{copied, is_chosen};
use crate::names::{push_around, push_left_out, push_str, push_twin, reason_for, twin};
use crate::words::{is_column_word, name_in};
use dump_tables::{DumpColumn, Sort};
use dump_text::{Part, Parts, WrittenColumn};
use qbs_base::{Bytes, Column, Items, NoMemory, Text, Ty};
use std::alloc::Global;

/// A table has no more columns.
const MOST_COLUMNS: usize = 32;

fn type_of(sort: Sort) -> Option<Ty>
    ensures { result ≡ specs.type_of sort }
{
    match sort {
        Sort::Whole | Sort::Unsigned => Some(Ty::Long),
        Sort::Truth => Some(Ty::Bool),
        Sort::Text | Sort::Padded => Some(Ty::Text),
        Sort::Other => None,
    }
}

fn separate(out: &mut Vec<u8>) -> Result<(), NoMemory>
    ensures { OnOk result (out.new.items ≡ specs.separated out.old.items) }
{
    match out.as_slice() {
        [] => Ok(()),
        [_, ..] => push_str(out, "; "),
    }
}

/// Puts a note behind those that are there.
fn push_note(out: &mut Vec<u8>, note: &str) -> Result<(), NoMemory>
    ensures { OnOk result (out.new.items ≡ specs.with_note out.old.items note.now) }
{
    separate(out)?;
    push_str(out, note)
}

#[tactic(auto, unfolding(crate::specs::Columns::with_sort_note))]
fn push_sort_note(out: &mut Vec<u8>, sort: Sort) -> Result<(), NoMemory>
    ensures { OnOk result (out.new.items ≡ specs.with_sort_note out.old.items sort) }
{
    match sort {
        Sort::Unsigned => push_note(out, "values up to 9223372036854775807"),
        Sort::Padded => push_note(out, "may be padded with spaces"),
        _ => Ok(()),
    }
}

fn push_twin_note(out: &mut Vec<u8>, twin: Option<&[u8]>) -> Result<(), NoMemory>
    ensures { OnOk result (out.new.items ≡ specs.with_twin_note out.old.items (option_copied twin.entry)) }
{
    match twin {
        None => Ok(()),
        Some(twin) => {
            separate(out)?;
            push_twin(out, twin)
        }
    }
}

/// A column that is never NULL needs no word on it.
#[tactic(auto, unfolding(crate::specs::Columns::null_note))]
fn push_null_note(out: &mut Vec<u8>, never: bool) -> Result<(), NoMemory>
    ensures { OnOk result (out.new.items ≡ out.old.items ++ specs.null_note never) }
{
    if never {
        Ok(())
    } else {
        push_str(out, "may hold NULL")
    }
}

/// What is said behind a column.
#[tactic(auto, unfolding(crate::specs::Columns::note_of))]
fn note(alloc: Global, taken: &[Bytes], column: &DumpColumn) -> Result<Bytes, NoMemory>
    ensures { IfOk result (λ n. n ≡ specs.note_of taken.now column.now) }
{
    let mut out = Vec::new(alloc);
    push_null_note(&mut out, column.not_null || column.primary)?;
    push_sort_note(&mut out, column.sort)?;
    push_twin_note(&mut out, twin(taken, column.name.as_slice()))?;
    Ok(Bytes::from_vec(out))
}

fn push_spelled(out: &mut Vec<u8>, spelled: &[u8]) -> Result<(), NoMemory>
    ensures { OnOk result (out.new.items ≡ out.old.items ++ specs.spelled_text spelled.now) }
{
    match spelled {
        [] => Ok(()),
        [_, ..] => {
            out.extend_from_slice(b" ")?;
            out.extend_from_slice(spelled)?;
            Ok(())
        }
    }
}

/// The comment on a column that is left out.
#[tactic(auto, unfolding(crate::specs::Columns::left_out_line))]
fn left_out(alloc: Global, column: &DumpColumn, reason: Reason) -> Result<Part, NoMemory>
    ensures { IfOk result (λ p. p ≡ specs.left_out column.now reason) }
{
    let mut out = Vec::new(alloc);
    out.extend_from_slice(column.name.as_slice())?;
    push_spelled(&mut out, column.spelled.as_slice())?;
    push_left_out(&mut out, reason)?;
    Ok(Part::Comment(Bytes::from_vec(out)))
}

/// The line of a column that is taken.
fn written(
    alloc: Global,
    taken: &[Bytes],
    column: &DumpColumn,
    ty: Ty,
    name: &str,
) -> Result<Part, NoMemory>
    ensures { IfOk result (λ p. p ≡ specs.written taken.now column.now ty name.now) }
{
    let note = note(alloc, taken, column)?;
    let name = Text::from_str(alloc, name)?;
    let column = Column {
        name,
        ty,
        not_null: column.not_null,
        primary: column.primary,
    };
    Ok(Part::Column(WrittenColumn { column, note }))
}

/// The line of a column whose name and type the language has.
fn free_part(
    alloc: Global,
    taken: &[Bytes],
    column: &DumpColumn,
    ty: Ty,
    name: &str,
) -> Result<Part, NoMemory>
    ensures { IfOk result (λ p. p ≡ specs.named_part taken.now column.now ty (Some name.now)) }
{
    let reserved = is_column_word(name);
    match reason_for(
        reserved,
        MOST_COLUMNS,
        Reason::ManyColumns,
        taken,
        name.as_bytes(),
    ) {
        Some(reason) => left_out(alloc, column, reason),
        None => written(alloc, taken, column, ty, name),
    }
}

/// The line of a column behind columns of these names.
#[tactic(auto, unfolding(crate::specs::Columns::part_of))]
fn column_part(alloc: Global, taken: &Items<Bytes>, column: &DumpColumn) -> Result<Part, NoMemory>
    ensures { IfOk result (λ p. p ≡ specs.part_of taken.now column.now) }
{
    let Some(ty) = type_of(column.sort) else {
        return left_out(alloc, column, Reason::NoType);
    };
    match name_in(column.name.as_slice()) {
        None => left_out(alloc, column, Reason::NoName),
        Some(name) => free_part(alloc, taken.as_slice(), column, ty, name),
    }
}

fn is_column_chosen(chosen: Option<&[Bytes]>, column: &DumpColumn) -> bool
    ensures { result ≡ is_name_chosen (option_copied chosen.entry) column.now.name }
{
    is_chosen(chosen, column.name.as_slice())
}

/// Takes the name of a column.
fn take_name(alloc: Global, taken: &mut Items<Bytes>, part: &Part) -> Result<(), NoMemory>
    ensures { OnOk result (taken.new ≡ specs.taken_after taken.old part.now) }
{
    match part {
        Part::Column(written) => taken.push(copied(alloc, written.column.name.as_slice())?),
        Part::Comment(_) => Ok(()),
    }
}

/// The lines of a table so far, and the names of its columns.
#[derive(Drop)]
pub struct Lines {
    pub parts: Parts,
    pub taken: Items<Bytes>,
}

impl Lines {
    /// Appends a line. The name of a column is taken behind it.
    fn push(&mut self, alloc: Global, part: Part) -> Result<(), NoMemory>
        ensures parts { OnOk result (self.new.parts ≡ self.old.parts ++ part ∷ []) }
        ensures taken { OnOk result (self.new.taken ≡ specs.taken_after self.old.taken part) }
    {
        take_name(alloc, &mut self.taken, &part)?;
        self.parts.push(part)
    }

    /// Appends the line of a column, if the column is chosen.
    fn add(
        &mut self,
        alloc: Global,
        chosen: Option<&[Bytes]>,
        column: &DumpColumn,
    ) -> Result<(), NoMemory>
        ensures { OnOk result ((cs : List PlainColumn)
            → all_parts (option_copied chosen.entry) self.new cs ≡ all_parts (option_copied chosen.entry) self.old (column.now ∷ cs)) }
    {
        if is_column_chosen(chosen, column) {
            let part = column_part(alloc, &self.taken, column)?;
            self.push(alloc, part)
        } else {
            Ok(())
        }
    }
}

/// Whether a column has this name.
fn has_name(columns: &[DumpColumn], name: &[u8]) -> bool
    ensures { result ≡ specs.has_name columns.now name.now }
{
    for column in columns {
        if column.name.as_slice() == name {
            return true;
        }
    }
    false
}

/// The comment on a name that no column has.
#[tactic(auto, unfolding(crate::specs::Columns::missing_line))]
fn missing(alloc: Global, name: &[u8]) -> Result<Part, NoMemory>
    ensures { IfOk result (λ p. p ≡ specs.missing name.now) }
{
    let mut out = Vec::new(alloc);
    push_around(
        &mut out,
        "--columns names ",
        name,
        ", which this table does not have",
    )?;
    Ok(Part::Comment(Bytes::from_vec(out)))
}

fn push_missing(
    alloc: Global,
    parts: &mut Parts,
    columns: &[DumpColumn],
    name: &[u8],
) -> Result<(), NoMemory>
    ensures { OnOk result (parts.new ≡ parts.old ++ specs.missing_part columns.now name.now) }
{
    if has_name(columns, name) {
        return Ok(());
    }
    parts.push(missing(alloc, name)?)
}

fn push_each_missing(
    alloc: Global,
    parts: &mut Parts,
    columns: &[DumpColumn],
    names: &[Bytes],
) -> Result<(), NoMemory>
    ensures { OnOk result (parts.new ≡ parts.old ++ flat_map (specs.missing_part columns.now) names.now) }
{
    for name in names {
        push_missing(alloc, parts, columns, name.as_slice())?;
    }
    Ok(())
}

/// Appends comments on the names that are chosen and that no column has.
fn push_all_missing(
    alloc: Global,
    parts: &mut Parts,
    chosen: Option<&[Bytes]>,
    columns: &[DumpColumn],
) -> Result<(), NoMemory>
    ensures { OnOk result (parts.new ≡ parts.old ++ specs.missing_parts (option_copied chosen.entry) columns.now) }
{
    match chosen {
        None => Ok(()),
        Some(names) => push_each_missing(alloc, parts, columns, names),
    }
}

/// Appends the lines of the columns that are chosen, and of what is chosen and isn't there.
pub fn push_columns(
    alloc: Global,
    parts: Parts,
    chosen: Option<&[Bytes]>,
    columns: &[DumpColumn],
) -> Result<Parts, NoMemory>
    ensures { IfOk result (λ ps.
        ps ≡ parts ++ (specs.parts_from (option_copied chosen.entry) [] columns.now ++ specs.missing_parts (option_copied chosen.entry) columns.now)) }
{
    let mut lines = Lines {
        parts,
        taken: Items::new(alloc),
    };
    for column in columns {
        lines.add(alloc, chosen, column)?;
    }
    push_all_missing(alloc, &mut lines.parts, chosen, columns)?;
    Ok(lines.parts)
}
