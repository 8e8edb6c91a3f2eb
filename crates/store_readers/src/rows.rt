// The lines of a table.
ghost use Rattle.std.specs.Prelude.{◌≡◌, ◌<◌, OnOk, IfErr, length};
ghost use Rattle.readers.specs.Reading.{Gives};
ghost use Rattle.store_readers.specs.Into.{read_into, pushed, row_put};
ghost use Rattle.store_readers.specs.Reading as spec;

use crate::values::{count, spaced};
use qbs_base::{Column, Db, Items, Kind, Row, Scalar};
use readers::ReadError;
use std::alloc::Global;
use text_readers::{byte, word};

/// A value of each column, behind those that are there.
fn put_cells<'a>(
    alloc: Global,
    columns: &[Column],
    cells: &mut Vec<Scalar>,
    bytes: &'a [u8],
) -> Result<&'a [u8], ReadError>
    ensures { Gives (λ x. (cells.new.items, x.now)) result (read_into pushed cells.old.items (spec.cells_at columns.now bytes.now)) }
{
    match columns.split_first() {
        None => Ok(bytes),
        Some((column, further)) => {
            let (x, rest) = spaced(alloc, Some(column.ty), bytes)?;
            cells.push(x)?;
            put_cells(alloc, further, cells, rest)
        }
    }
}

fn cells<'a>(
    alloc: Global,
    columns: &[Column],
    bytes: &'a [u8],
) -> Result<(Vec<Scalar>, &'a [u8]), ReadError>
    ensures { Gives (λ x. (x.0.items, x.1.now)) result (spec.cells_at columns.now bytes.now) }
{
    let mut cells = Vec::new(alloc);
    let rest = put_cells(alloc, columns, &mut cells, bytes)?;
    Ok((cells, rest))
}

/// The line of a row.
#[tactic(auto, unfolding(crate::specs::Reading::row_at))]
fn row<'a>(
    alloc: Global,
    table: u32,
    columns: &[Column],
    bytes: &'a [u8],
) -> Result<(Row, &'a [u8]), ReadError>
    ensures { Gives (λ x. (x.0, x.1.now)) result (spec.row_at table columns.now bytes.now) }
{
    let rest = word(b"row", bytes)?;
    let (cells, rest) = cells(alloc, columns, rest)?;
    let rest = byte(b'\n', rest)?;
    let row = Row {
        kind: Kind::Table(table),
        cells: Items::from_vec(cells),
    };
    Ok((row, rest))
}

/// A row, at the end of the table with that number.
fn put_row(table: u32, row: Row, db: &mut Db) -> Result<(), ReadError>
    requires there { table < length db.old }
    ensures ok { OnOk result (db.new ≡ row_put table db.old row) }
    ensures err { IfErr result (λ e. e ≡ ReadError.Memory) }
{
    match db.put_row(table, row) {
        Ok(()) => Ok(()),
        Err(_) => Err(ReadError::Memory),
    }
}

/// So many rows, at the end of the table with that number.
fn put_so_many<'a>(
    alloc: Global,
    table: u32,
    columns: &[Column],
    count: u64,
    db: &mut Db,
    bytes: &'a [u8],
) -> Result<&'a [u8], ReadError>
    requires there { table < length db.old }
    ensures { Gives (λ x. (db.new, x.now)) result (read_into (row_put table) db.old (spec.times count (spec.row_at table columns.now) bytes.now)) }
{
    if count == 0 {
        return Ok(bytes);
    }
    let (row, rest) = row(alloc, table, columns, bytes)?;
    put_row(table, row, &mut *db)?;
    put_so_many(alloc, table, columns, count - 1, db, rest)
}

/// Puts the rows of a table's lines at the end of the table with that number, and gives what stands
/// behind these lines.
#[tactic(auto, unfolding(crate::specs::Reading::rows_at, crate::specs::Reading::lines_at))]
pub fn put_rows<'a>(
    alloc: Global,
    table: u32,
    columns: &[Column],
    db: &mut Db,
    bytes: &'a [u8],
) -> Result<&'a [u8], ReadError>
    requires there { table < length db.old }
    ensures { Gives (λ x. (db.new, x.now)) result (read_into (row_put table) db.old (spec.rows_at table columns.now bytes.now)) }
{
    let rest = word(b"table ", bytes)?;
    let (count, rest) = count(rest)?;
    let rest = byte(b'\n', rest)?;
    put_so_many(alloc, table, columns, count, db, rest)
}
