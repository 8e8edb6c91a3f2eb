// The schema that a dump declares.
ghost use Rattle.std.specs.Prelude.{◌≡◌, IfOk};
ghost use Rattle.std.specs.Option.{option_copied};
ghost use Rattle.schema.specs.Grammar.{HasSchema};
ghost use Rattle.schema.specs.Rules.{IsSchema};
ghost use Rattle.schema.specs.Tokens.{tokens_of, kinds_of};
ghost use Rattle.dump_text.specs.Entries.{tables_of};
ghost use Rattle.dump_text.specs.Text.{text_of};
ghost use Rattle.dump_schema.specs.Entries.{declared_in, drawn_from, entries_of as entries_of_tables};
ghost use Rattle.dump_schema.specs.Report.{report_of};

use crate::choice::{Choice, choice_of};
use crate::remarks::push_remarks;
use crate::report::report;
use crate::tables::chosen_entries;
use dump_items::statements;
use dump_tables::{DumpTable, tables_of as declared_tables};
use dump_text::{Entries, schema_text};
use qbs_base::{Bytes, Items, NoMemory, boxed};
use std::alloc::Global;

/// A schema as text, and the lines `tables N of M` and `columns N of M`: so many are written of those that the dump declares.
#[derive(Drop)]
pub struct Drawn {
    pub text: Bytes,
    pub report: Bytes,
}

#[tactic(auto, unfolding(crate::specs::Entries::entries_of))]
fn entries_of(alloc: Global, choice: &Choice, tables: &[DumpTable]) -> Result<Entries, NoMemory>
    ensures { IfOk result (λ es. es ≡ entries_of_tables choice.now tables.now) }
{
    let mut entries = chosen_entries(alloc, choice, tables)?;
    push_remarks(alloc, &mut entries, choice, tables)?;
    Ok(entries)
}

fn exactly_drawn(
    alloc: Global,
    choice: &Choice,
    tables: &Items<DumpTable>,
) -> Result<Box<Drawn>, NoMemory>
    ensures text { IfOk result (λ d. d.value.text ≡ text_of (entries_of_tables choice.now tables.now)) }
    ensures report { IfOk result (λ d. d.value.report ≡ report_of (tables_of (entries_of_tables choice.now tables.now)) tables.now) }
{
    let entries = entries_of(alloc, choice, tables.as_slice())?;
    let report = report(alloc, entries.as_slice(), tables.as_slice())?;
    let text = schema_text(alloc, entries.as_slice())?;
    boxed(alloc, Drawn { text, report })
}

/// The schema of the language that tables of a dump make, of which the options choose these, with comments on what is left out.
pub fn drawn_of(
    alloc: Global,
    choice: &Choice,
    tables: &Items<DumpTable>,
) -> Result<Box<Drawn>, NoMemory>
    ensures text { IfOk result (λ d. d.value.text ≡ text_of (entries_of_tables choice.now tables.now)) }
    ensures report { IfOk result (λ d. d.value.report ≡ report_of (tables_of (entries_of_tables choice.now tables.now)) tables.now) }
    ensures declared { IfOk result (λ d. HasSchema (kinds_of (tokens_of d.value.text)) (tables_of (entries_of_tables choice.now tables.now))) }
    ensures sound { IfOk result (λ _. IsSchema (tables_of (entries_of_tables choice.now tables.now))) }
{
    exactly_drawn(alloc, choice, tables)
}

/// The tables that a dump declares.
fn declared_by(alloc: Global, text: &[u8]) -> Result<Items<DumpTable>, NoMemory>
    ensures { IfOk result (λ ts. ts ≡ declared_in text.now) }
{
    let statements = statements(alloc, text)?;
    declared_tables(alloc, statements.as_slice())
}

/// The schema of the language that a dump declares, with comments on what is left out. `tables` has the names of tables with commas
/// between them, and `columns` names of columns for tables, as `T=a,b;U=c`: nothing else of these is written. Any bytes have one. It
/// fails only by want of memory.
pub fn schema_of_dump(
    alloc: Global,
    text: &[u8],
    tables: Option<&str>,
    columns: Option<&str>,
) -> Result<Box<Drawn>, NoMemory>
    ensures text { IfOk result (λ d. d.value.text ≡ text_of (drawn_from text.now (option_copied tables.entry) (option_copied columns.entry))) }
    ensures report { IfOk result (λ d.
        d.value.report ≡ report_of (tables_of (drawn_from text.now (option_copied tables.entry) (option_copied columns.entry))) (declared_in text.now)) }
    // What is written is read as exactly the tables of the definition, and they are a schema.
    ensures declared { IfOk result (λ d.
        HasSchema (kinds_of (tokens_of d.value.text)) (tables_of (drawn_from text.now (option_copied tables.entry) (option_copied columns.entry)))) }
    ensures sound { IfOk result (λ _. IsSchema (tables_of (drawn_from text.now (option_copied tables.entry) (option_copied columns.entry)))) }
{
    let choice = choice_of(alloc, tables, columns)?;
    let declared = declared_by(alloc, text)?;
    drawn_of(alloc, &choice, &declared)
}
