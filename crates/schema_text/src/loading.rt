// The rows of a table.
ghost use Rattle.std.specs.Prelude.{◌≡◌, ◌≤◌, ◌<◌, length, OnOk, IfOk};
ghost use Rattle.std.specs.List.{AllByRecursion};
ghost use Rattle.qbs_base.specs.Values.{IsRowOf};
ghost use Rattle.csv.specs.Records.{fields_of};
ghost use Rattle.qbs_base.specs.Memory.{Answers};
ghost use Rattle.schema.specs.Csv.{IsReading, records_in};
ghost use Rattle.schema.specs.Rows.{is_header as is_header_row, cells_of, row_of, most_rows, numbered_row, rows_from, rows_under, records_of, columns_of, table_rows};

use crate::fields::cell;
use crate::records::{next_record, open_records};
use csv::{ByteRecord, Reader};
use qbs_base::{Cells, Column, Fail, Kind, Row, Rows};
use schema::fields::next_number;
use schema::{DataFault, DataRule, Schema};
use std::alloc::Global;

/// A table has no more rows.
const MOST_ROWS: u64 = 1_000_000;

/// Whether the fields of a record are the names of the columns in order.
pub fn is_header(columns: &[Column], record: &ByteRecord) -> bool
    ensures { result ≡ is_header_row columns.now (fields_of record.now) }
{
    for (i, column) in columns.iter().enumerate() {
        let Some(field) = record.get(i) else {
            return false;
        };
        if field != column.name.as_slice() {
            return false;
        }
    }
    record.len() == columns.len()
}

/// The cells of a record, or the rule that its first bad field breaks.
fn cells(alloc: Global, columns: &[Column], record: &ByteRecord) -> Result<Cells, Fail<DataRule>>
    ensures { Answers result (cells_of columns.now (fields_of record.now)) }
{
    let mut cells = Cells::new(alloc);
    for (i, column) in columns.iter().enumerate() {
        let Some(field) = record.get(i) else {
            return Err(Fail::Fault(DataRule::Width));
        };
        cells.push(cell(alloc, column.ty, field)?)?;
    }
    Ok(cells)
}

/// The row of the table of this number that a record is, or the rule that it breaks: its width
/// comes before its fields.
#[tactic(auto, unfolding(schema::specs::Rows::row_of))]
fn row(
    alloc: Global,
    table: u32,
    columns: &[Column],
    record: &ByteRecord,
) -> Result<Row, Fail<DataRule>>
    ensures { Answers result (row_of table columns.now (fields_of record.now)) }
{
    if record.len() != columns.len() {
        return Err(Fail::Fault(DataRule::Width));
    }
    let cells = cells(alloc, columns, record)?;
    Ok(Row {
        kind: Kind::Table(table),
        cells,
    })
}

/// The row that a record is, which is that of this number.
#[tactic(auto, unfolding(schema::specs::Rows::numbered_row))]
fn numbered(
    alloc: Global,
    table: u32,
    columns: &[Column],
    number: u64,
    record: &ByteRecord,
) -> Result<Row, Fail<DataFault>>
    ensures value { Answers result (numbered_row table columns.now number (fields_of record.now)) }
    ensures within { OnOk result (number ≤ most_rows) }
{
    if number > MOST_ROWS {
        return Err(Fail::Fault(DataFault {
            rule: DataRule::TooManyRows,
            row: number,
        }));
    }
    match row(alloc, table, columns, record) {
        Ok(row) => Ok(row),
        Err(Fail::Fault(rule)) => Err(Fail::Fault(DataFault { rule, row: number })),
        Err(Fail::NoMemory) => Err(Fail::NoMemory),
    }
}

/// The rows that the records left are, numbered from 1.
fn rows(
    alloc: Global,
    table: u32,
    columns: &[Column],
    reader: &mut Reader<&[u8]>,
    record: &mut ByteRecord,
) -> Result<Rows, Fail<DataFault>>
    requires { IsReading reader.old }
    ensures { Answers result (rows_from table columns.now 1 (records_in reader.old)) }
{
    let mut rows = Rows::new(alloc);
    while next_record(reader, record)? {
        let number = next_number(&rows);
        rows.push(numbered(alloc, table, columns, number, record)?)?;
    }
    Ok(rows)
}

/// The rows of the table of this number, with these columns. The first record is the header.
#[tactic(auto, unfolding(schema::specs::Rows::rows_under))]
fn table_of(
    alloc: Global,
    table: u32,
    columns: &[Column],
    bytes: &[u8],
) -> Result<Rows, Fail<DataFault>>
    ensures { Answers result (rows_under table columns.now (records_of bytes.now)) }
{
    let mut reader = open_records(alloc, bytes);
    let mut record = ByteRecord::new(alloc);
    if !next_record(&mut reader, &mut record)? || !is_header(columns, &record) {
        return Err(Fail::Fault(DataFault {
            rule: DataRule::Header,
            row: 0,
        }));
    }
    rows(alloc, table, columns, &mut reader, &mut record)
}

/// The rows of the table of this number of a schema.
#[tactic(auto, unfolding(schema::specs::Rows::table_rows))]
fn rows_of(
    alloc: Global,
    schema: &Schema,
    table: u32,
    bytes: &[u8],
) -> Result<Rows, Fail<DataFault>>
    requires { table < length schema.now }
    ensures { Answers result (table_rows schema.now table bytes.now) }
{
    let columns = schema.tables()[table as usize].columns.as_slice();
    table_of(alloc, table, columns, bytes)
}

/// Reads the rows of a table, as CSV whose first record is the header: the names of the columns in
/// order. A Long field is an optional sign and decimal digits in the range of 64 bits, a Bool field
/// `true` or `false`, a Text field any UTF-8. The fault is that of the first bad row and in it of
/// the first bad field; a wrong number of fields comes before a bad field. It takes time linear in
/// the bytes.
pub fn load_table(
    alloc: Global,
    schema: &Schema,
    table: u32,
    bytes: &[u8],
) -> Result<Rows, Fail<DataFault>>
    requires { table < length schema.now }
    ensures value { Answers result (table_rows schema.now table bytes.now) }
    // Each row is a row of the table.
    ensures rows { IfOk result (λ rows. AllByRecursion (IsRowOf table (columns_of schema.now table)) rows) }
    ensures few { IfOk result (λ rows. length rows ≤ most_rows) }
{
    rows_of(alloc, schema, table, bytes)
}
