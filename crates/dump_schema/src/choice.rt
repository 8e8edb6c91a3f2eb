// What the options choose.
ghost use Rattle.std.specs.Prelude.{◌≡◌, ◌∷◌, ◌≤◌, ℕ, List, IfOk, OnOk, length, map, drop};
ghost use Rattle.std.specs.Option.{option_copied};
ghost use Rattle.std.specs.List.{prefix_len};
ghost use Rattle.dump_schema.specs.Choices as specs;
ghost use Rattle.dump_schema.specs.Going.{pieces_of_all};

use crate::names::is_among;
use qbs_base::{Bytes, Items, NoMemory};
use std::alloc::Global;

/// The columns that an option names for a table.
#[derive(Drop)]
pub struct ColumnChoice {
    pub table: Bytes,
    pub columns: Items<Bytes>,
}

/// The tables that an option names, where there is one, and the columns that another one names for tables.
#[derive(Drop)]
pub struct Choice {
    pub tables: Option<Items<Bytes>>,
    pub columns: Items<ColumnChoice>,
}

/// The pieces that have ended, and the one that has begun.
#[derive(Drop)]
pub struct Cutting {
    pub done: Items<Bytes>,
    pub current: Bytes,
}

impl Cutting {
    /// Takes a byte, which may be the mark.
    fn take(&mut self, alloc: Global, mark: u8, byte: u8) -> Result<(), NoMemory>
        ensures { OnOk result ((bs : List ℕ) → pieces_of_all mark self.new bs ≡ pieces_of_all mark self.old (byte ∷ bs)) }
    {
        if byte == mark {
            let piece = std::mem::replace(&mut self.current, Bytes::new(alloc));
            self.done.push(piece)?;
        } else {
            self.current.push(byte)?;
        }
        Ok(())
    }
}

/// The bytes, owned.
pub fn copied(alloc: Global, bytes: &[u8]) -> Result<Bytes, NoMemory>
    ensures { IfOk result (λ b. b ≡ bytes.now) }
{
    Ok(Bytes::from_vec(bytes.to_vec(alloc)?))
}

/// What stands between the marks.
fn pieces(alloc: Global, mark: u8, bytes: &[u8]) -> Result<Items<Bytes>, NoMemory>
    ensures { IfOk result (λ ps. ps ≡ specs.pieces mark bytes.now) }
{
    let mut pieces = Cutting {
        done: Items::new(alloc),
        current: Bytes::new(alloc),
    };
    for byte in bytes {
        pieces.take(alloc, mark, *byte)?;
    }
    let Cutting { mut done, current } = pieces;
    done.push(current)?;
    Ok(done)
}

fn is_before_equals(byte: u8) -> bool
    ensures { result ≡ specs.is_before_equals byte }
{
    byte != b'='
}

/// How many bytes there are before an equals sign.
fn name_len(piece: &[u8]) -> usize
    ensures value { result ≡ prefix_len specs.is_before_equals piece.now }
    ensures within { result ≤ length piece.now }
{
    piece.iter().take_while(|b| is_before_equals(**b)).count()
}

fn behind_first(bytes: &[u8]) -> &[u8]
    ensures { result.now ≡ drop 1 bytes.now }
{
    match bytes {
        [] => bytes,
        [_, rest @ ..] => rest,
    }
}

/// A table's name, an equals sign, and the names of columns.
fn column_choice(alloc: Global, piece: &[u8]) -> Result<ColumnChoice, NoMemory>
    ensures { IfOk result (λ c. c ≡ specs.column_choice piece.now) }
{
    let (table, rest) = piece.split_at(name_len(piece));
    Ok(ColumnChoice {
        table: copied(alloc, table)?,
        columns: pieces(alloc, b',', behind_first(rest))?,
    })
}

fn choices_in(alloc: Global, pieces: &[Bytes]) -> Result<Items<ColumnChoice>, NoMemory>
    ensures { IfOk result (λ cs. cs ≡ map specs.column_choice pieces.now) }
{
    let mut choices = Items::new(alloc);
    for piece in pieces {
        choices.push(column_choice(alloc, piece.as_slice())?)?;
    }
    Ok(choices)
}

fn column_choices(alloc: Global, text: Option<&str>) -> Result<Items<ColumnChoice>, NoMemory>
    ensures { IfOk result (λ cs. cs ≡ specs.column_choices (option_copied text.entry)) }
{
    match text {
        None => Ok(Items::new(alloc)),
        Some(text) => {
            let pieces = pieces(alloc, b';', text.as_bytes())?;
            choices_in(alloc, pieces.as_slice())
        }
    }
}

fn table_names(alloc: Global, text: Option<&str>) -> Result<Option<Items<Bytes>>, NoMemory>
    ensures { IfOk result (λ names. names ≡ specs.table_names (option_copied text.entry)) }
{
    match text {
        None => Ok(None),
        Some(text) => {
            let names = pieces(alloc, b',', text.as_bytes())?;
            Ok(Some(names))
        }
    }
}

/// What the texts of both options choose. Nothing is refused: names that nothing has choose nothing.
pub fn choice_of(
    alloc: Global,
    tables: Option<&str>,
    columns: Option<&str>,
) -> Result<Choice, NoMemory>
    ensures { IfOk result (λ c. c ≡ specs.choice_of (option_copied tables.entry) (option_copied columns.entry)) }
{
    let tables = table_names(alloc, tables)?;
    let columns = column_choices(alloc, columns)?;
    Ok(Choice { tables, columns })
}

/// Whether a name is chosen: all are, where nothing was said.
pub fn is_chosen(chosen: Option<&[Bytes]>, name: &[u8]) -> bool
    ensures { result ≡ specs.is_chosen (option_copied chosen.entry) name.now }
{
    match chosen {
        None => true,
        Some(names) => is_among(names, name),
    }
}

/// The columns that are named for a table.
pub fn columns_for<'a>(choices: &'a [ColumnChoice], table: &[u8]) -> Option<&'a [Bytes]>
    ensures { option_copied result ≡ specs.columns_for choices.now table.now }
{
    for choice in choices {
        if choice.table.as_slice() == table {
            return Some(choice.columns.as_slice());
        }
    }
    None
}

/// The tables that are chosen, where the option was given.
pub fn tables_chosen(choice: &Choice) -> Option<&[Bytes]>
    ensures { option_copied result ≡ choice.now.tables }
{
    match &choice.tables {
        None => None,
        Some(names) => Some(names.as_slice()),
    }
}
