// The columns that key clauses name are marked once the names of a schema are judged: tables have few columns then, so that no long
// key clause is searched for many of them.
ghost use Rattle.std.specs.Prelude.{◌≡◌, IfOk, map};
ghost use Rattle.schema.specs.Marks.{keyed as keyed_column, table_of};

use crate::names::holds;
use qbs_base::{Column, Columns, Name, NoMemory, Table, Tables};
use schema::draft::Draft;
use std::alloc::Global;

/// The column, which is primary too where it is among the names of a key clause.
fn keyed(key: &[Name], column: &Column) -> Result<Column, NoMemory>
    ensures { IfOk result (λ c. c ≡ keyed_column key.now column.now) }
{
    Ok(Column {
        name: column.name.clone()?,
        ty: column.ty,
        not_null: column.not_null,
        primary: column.primary || holds(key, &column.name),
    })
}

/// The columns, each so.
fn all_keyed(alloc: Global, key: &[Name], columns: &[Column]) -> Result<Columns, NoMemory>
    ensures { IfOk result (λ cs. cs ≡ map (keyed_column key.now) columns.now) }
{
    let mut all = Columns::new(alloc);
    for column in columns {
        all.push(keyed(key, column)?)?;
    }
    Ok(all)
}

/// The table that is declared.
fn table(alloc: Global, draft: &Draft) -> Result<Table, NoMemory>
    ensures { IfOk result (λ t. t ≡ table_of draft.now) }
{
    let name = draft.table.name.clone()?;
    let columns = all_keyed(alloc, draft.key.as_slice(), draft.table.columns.as_slice())?;
    Ok(Table { name, columns })
}

/// The tables that are declared.
pub fn tables(alloc: Global, drafts: &[Draft]) -> Result<Tables, NoMemory>
    ensures { IfOk result (λ ts. ts ≡ map table_of drafts.now) }
{
    let mut tables = Tables::new(alloc);
    for draft in drafts {
        tables.push(table(alloc, draft)?)?;
    }
    Ok(tables)
}
