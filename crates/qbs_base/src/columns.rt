// The schema as plain tables and columns.
ghost use Rattle.std.specs.Prelude.{◌≡◌};
ghost use Rattle.qbs_base.specs.Columns as specs;

use crate::{Items, Name, Ty};

/// A column of a table: its name, its type, and what the schema says of NULL. Both marks are as written, so that a primary column
/// without `NOT NULL` has the second alone; neither changes what a program or a query means.
#[derive(Clone, Drop)]
pub struct Column {
    pub name: Name,
    pub ty: Ty,
    pub not_null: bool,
    pub primary: bool,
}

pub type Columns = Items<Column>;

/// A table of a schema: its name and its columns in order. A schema is a list of tables.
#[derive(Clone, Drop)]
pub struct Table {
    pub name: Name,
    pub columns: Columns,
}

pub type Tables = Items<Table>;

/// The columns of the table with this number, none where there is no such table.
pub fn columns_at(tables: &[Table], number: u32) -> &[Column]
    ensures { result.now ≡ specs.columns_at tables.now number }
{
    match tables.get(number as usize) {
        Some(table) => table.columns.as_slice(),
        None => &[],
    }
}

/// Whether two types are one.
pub fn same_ty(a: Ty, b: Ty) -> bool
    ensures { result ≡ specs.same_ty a b }
{
    match (a, b) {
        (Ty::Long, Ty::Long) => true,
        (Ty::Bool, Ty::Bool) => true,
        (Ty::Text, Ty::Text) => true,
        _ => false,
    }
}
