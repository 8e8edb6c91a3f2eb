// Schemas, and what stands in them.
ghost use Rattle.std.specs.Prelude.{◌≡◌, ◌<◌, IfSome, length};
ghost use Rattle.schema.specs.Numbers.{column_number_at};
ghost use Rattle.qbs_base.specs.Columns.{table_number, column_number};
ghost use Rattle.schema.specs.Rules.{IsSchema, AreNamed};

use qbs_base::{Column, Name, Table, Tables};
use std::marker::Model;

/// The tables of a database in order, with their columns.
#[derive(Drop)]
pub struct Schema {
    tables: Tables,
}

impl Model for Schema {
    ghost use Rattle.std.specs.Prelude.{List};
    ghost use Rattle.qbs_base.specs.declared.columns.Table.{Table};
    ghost use Rattle.schema.specs.Rules.{IsSchema, AreNamed};

    ghost Value = { List Table };

    ghost view = { λ a. a.tables };

    ghost invariant = { λ a. IsSchema a.tables × AreNamed a.tables };
}

impl Schema {
    /// The schema of these tables.
    pub fn from_tables(tables: Tables) -> Schema
        requires sound { IsSchema tables }
        requires named { AreNamed tables }
        ensures { result ≡ tables }
    {
        Schema { tables }
    }

    /// The tables in order. It takes no memory.
    pub fn tables(&self) -> &[Table]
        ensures value { result.now ≡ self.now }
        ensures sound { IsSchema self.now }
        ensures named { AreNamed self.now }
    {
        self.tables.as_slice()
    }

    /// The number of the table of this name. It takes no memory.
    pub fn table(&self, name: &Name) -> Option<u32>
        ensures { result ≡ table_number self.now name.now }
    {
        let place = table_place(self.tables.as_slice(), name)?;
        Some(place as u32)
    }

    /// The number of the column of this name in the table of that number, and None where there is
    /// no such table. It takes no memory.
    pub fn column(&self, table: u32, name: &Name) -> Option<u32>
        ensures { result ≡ column_number_at self.now table name.now }
    {
        let table = self.tables.as_slice().get(table as usize)?;
        let place = column_place(table.columns.as_slice(), name)?;
        Some(place as u32)
    }
}

/// The place of the first table of this name.
fn table_place(tables: &[Table], name: &Name) -> Option<usize>
    ensures value { result ≡ table_number tables.now name.now }
    ensures within { IfSome result (λ place. place < length tables.now) }
{
    tables.iter().position(|table| table.name == *name)
}

/// The place of the first column of this name.
fn column_place(columns: &[Column], name: &Name) -> Option<usize>
    ensures value { result ≡ column_number columns.now name.now }
    ensures within { IfSome result (λ place. place < length columns.now) }
{
    columns.iter().position(|column| column.name == *name)
}
