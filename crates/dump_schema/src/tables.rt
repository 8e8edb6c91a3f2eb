// The entries of tables.
ghost use Rattle.std.specs.Prelude.{◌≡◌, ◌∷◌, ◌++◌, [], List, IfOk, OnOk, Some};
ghost use Rattle.std.specs.Option.{option_copied};
ghost use Rattle.dump_tables.specs.declared.table.DumpTable.{DumpTable as PlainTable};
ghost use Rattle.dump_schema.specs.Choices.{is_chosen as is_name_chosen};
ghost use Rattle.dump_schema.specs.Entries as specs;
ghost use Rattle.dump_schema.specs.Going.{all_entries};

use crate::Reason;
use crate::choice::{Choice, ColumnChoice, columns_for, copied, is_chosen, tables_chosen};
use crate::columns::push_columns;
use crate::names::{push_left_out_of, push_str, push_twin, reason_for, twin};
use crate::words::{is_table_word, name_in};
use dump_tables::DumpTable;
use dump_text::{Entries, Entry, Part, Parts, WrittenTable, has_column};
use qbs_base::{Bytes, Items, NoMemory, Text};
use std::alloc::Global;

/// A schema has no more tables.
const MOST_TABLES: usize = 64;

/// The comment on a table that is left out.
#[tactic(auto, unfolding(crate::specs::Entries::left_out_line))]
fn left_out(alloc: Global, table: &DumpTable, reason: Reason) -> Result<Entry, NoMemory>
    ensures { IfOk result (λ e. e ≡ specs.left_out table.now reason) }
{
    let mut out = Vec::new(alloc);
    push_left_out_of(&mut out, "table ", table.name.as_slice(), reason)?;
    Ok(Entry::Comment(Bytes::from_vec(out)))
}

/// The comment on a table whose name another one has in other letters.
#[tactic(auto, unfolding(crate::specs::Entries::twin_line))]
fn twin_part(alloc: Global, twin: &[u8]) -> Result<Part, NoMemory>
    ensures { IfOk result (λ p. p ≡ specs.twin_part twin.now) }
{
    let mut out = Vec::new(alloc);
    push_str(&mut out, "the name of this table ")?;
    push_twin(&mut out, twin)?;
    Ok(Part::Comment(Bytes::from_vec(out)))
}

fn twin_parts(alloc: Global, twin: Option<&[u8]>) -> Result<Parts, NoMemory>
    ensures { IfOk result (λ ps. ps ≡ specs.twin_parts (option_copied twin.entry)) }
{
    let mut parts = Parts::new(alloc);
    if let Some(twin) = twin {
        parts.push(twin_part(alloc, twin)?)?;
    }
    Ok(parts)
}

/// The lines of a table behind tables of these names, of which these columns are chosen.
fn table_parts(
    alloc: Global,
    taken: &[Bytes],
    table: &DumpTable,
    chosen: Option<&[Bytes]>,
) -> Result<Parts, NoMemory>
    ensures { IfOk result (λ ps. ps ≡ specs.parts_of taken.now table.now (option_copied chosen.entry)) }
{
    let front = twin_parts(alloc, twin(taken, table.name.as_slice()))?;
    push_columns(alloc, front, chosen, table.columns.as_slice())
}

/// The table of these lines, if there is a column among them.
fn filled(alloc: Global, table: &DumpTable, name: &str, parts: Parts) -> Result<Entry, NoMemory>
    ensures { IfOk result (λ e. e ≡ specs.filled_entry table.now name.now parts) }
{
    if !has_column(parts.as_slice()) {
        return left_out(alloc, table, Reason::NoColumn);
    }
    let name = Text::from_str(alloc, name)?;
    Ok(Entry::Table(WrittenTable { name, parts }))
}

/// The entry of a table whose name the language has.
fn free_entry(
    alloc: Global,
    choices: &[ColumnChoice],
    taken: &[Bytes],
    table: &DumpTable,
    name: &str,
) -> Result<Entry, NoMemory>
    ensures { IfOk result (λ e. e ≡ specs.named_entry choices.now taken.now table.now (Some name.now)) }
{
    let reserved = is_table_word(name);
    match reason_for(
        reserved,
        MOST_TABLES,
        Reason::ManyTables,
        taken,
        name.as_bytes(),
    ) {
        Some(reason) => left_out(alloc, table, reason),
        None => {
            let chosen = columns_for(choices, table.name.as_slice());
            let parts = table_parts(alloc, taken, table, chosen)?;
            filled(alloc, table, name, parts)
        }
    }
}

/// The entry of a table behind tables of these names.
#[tactic(auto, unfolding(crate::specs::Entries::entry_of))]
fn table_entry(
    alloc: Global,
    choice: &Choice,
    taken: &Items<Bytes>,
    table: &DumpTable,
) -> Result<Entry, NoMemory>
    ensures { IfOk result (λ e. e ≡ specs.entry_of choice.now.columns taken.now table.now) }
{
    match name_in(table.name.as_slice()) {
        None => left_out(alloc, table, Reason::NoName),
        Some(name) => free_entry(
            alloc,
            choice.columns.as_slice(),
            taken.as_slice(),
            table,
            name,
        ),
    }
}

fn is_table_chosen(choice: &Choice, table: &DumpTable) -> bool
    ensures { result ≡ is_name_chosen choice.now.tables table.now.name }
{
    is_chosen(tables_chosen(choice), table.name.as_slice())
}

/// Takes the name of a table.
fn take_name(alloc: Global, taken: &mut Items<Bytes>, entry: &Entry) -> Result<(), NoMemory>
    ensures { OnOk result (taken.new ≡ specs.taken_after taken.old entry.now) }
{
    match entry {
        Entry::Table(table) => taken.push(copied(alloc, table.name.as_slice())?),
        Entry::Comment(_) => Ok(()),
    }
}

/// The entries so far, and the names of their tables.
#[derive(Drop)]
pub struct Drawing {
    pub entries: Entries,
    pub taken: Items<Bytes>,
}

impl Drawing {
    /// Appends an entry. The name of a table is taken behind it.
    fn push(&mut self, alloc: Global, entry: Entry) -> Result<(), NoMemory>
        ensures entries { OnOk result (self.new.entries ≡ self.old.entries ++ entry ∷ []) }
        ensures taken { OnOk result (self.new.taken ≡ specs.taken_after self.old.taken entry) }
    {
        take_name(alloc, &mut self.taken, &entry)?;
        self.entries.push(entry)
    }

    /// Appends the entry of a table, if the table is chosen.
    fn add(&mut self, alloc: Global, choice: &Choice, table: &DumpTable) -> Result<(), NoMemory>
        ensures { OnOk result ((ts : List PlainTable) → all_entries choice.now self.new ts ≡ all_entries choice.now self.old (table.now ∷ ts)) }
    {
        if is_table_chosen(choice, table) {
            let entry = table_entry(alloc, choice, &self.taken, table)?;
            self.push(alloc, entry)
        } else {
            Ok(())
        }
    }
}

/// The entries of the tables that are chosen.
pub fn chosen_entries(
    alloc: Global,
    choice: &Choice,
    tables: &[DumpTable],
) -> Result<Entries, NoMemory>
    ensures { IfOk result (λ es. es ≡ specs.entries_from choice.now [] tables.now) }
{
    let mut drawing = Drawing {
        entries: Entries::new(alloc),
        taken: Items::new(alloc),
    };
    for table in tables {
        drawing.add(alloc, choice, table)?;
    }
    Ok(drawing.entries)
}
