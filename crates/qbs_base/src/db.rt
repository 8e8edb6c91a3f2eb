// Tables, as a list of names and rows.
ghost use Rattle.std.specs.Prelude.{◌≡◌, ◌<◌, ◌-◌, ◌+◌, ◌^◌, ℕ, List, [], ◌∷◌, ◌++◌, Some, None, IsOkUnless, IfOk, OnOk, OnErr, length, slice_get};
ghost use Rattle.std.specs.Option.{option_copied, option_map};
ghost use Rattle.qbs_base.specs.Named.{at_name};
ghost use Rattle.qbs_base.specs.Tables.{NamedRows, with_row};

use crate::named::find_name;
use crate::{Name, NoMemory, Row, Rows, Text};
use std::alloc::Global;
use std::marker::Model;

/// A database: its tables by number, each with its name and its rows.
#[derive(Drop)]
pub struct Db {
    alloc: Global,
    tables: Vec<(Text, Rows)>,
}

impl Model for Db {
    ghost Value = { List NamedRows };

    ghost view = { λ a. a.tables.items };
}

impl Db {
    /// No tables. It takes no memory.
    pub fn new(alloc: Global) -> Db
        ensures { result ≡ [] }
    {
        Db {
            alloc,
            tables: Vec::new(alloc),
        }
    }

    /// Adds an empty table, and answers its number.
    pub fn add_table(&mut self, name: Name) -> Result<u32, NoMemory>
        requires fresh { at_name self.old name ≡ None }
        requires few { length self.old < 2 ^ 32 - 1 }
        ensures number { IfOk result (λ n. n ≡ length self.old) }
        ensures ok { OnOk result (self.new ≡ self.old ++ (name, []) ∷ []) }
        ensures err { OnErr result (self.new ≡ self.old) }
    {
        let number = self.tables.len() as u32;
        self.tables.push((name, Rows::new(self.alloc)))?;
        Ok(number)
    }

    /// Appends a row to the table with that number.
    pub fn put_row(&mut self, table: u32, row: Row) -> Result<(), NoMemory>
        requires { table < length self.old }
        ensures ok { OnOk result (self.new ≡ with_row self.old table row) }
        ensures err { OnErr result (self.new ≡ self.old) }
    {
        let place = &mut self.tables[table as usize];
        place.1.push(row)?;
        Ok(())
    }

    /// The rows of the table with that name. It takes no memory.
    pub fn table(&self, name: &Name) -> Option<&Rows>
        ensures { option_copied result ≡ at_name self.now name.now }
    {
        find_name(&self.tables, name)
    }

    /// The rows of the table with that number. It takes no memory.
    pub fn rows(&self, table: u32) -> Option<&Rows>
        ensures { option_copied result ≡ option_map (λ t. t.1) (slice_get self.now table) }
    {
        match self.tables.get(table as usize) {
            Some(place) => Some(&place.1),
            None => None,
        }
    }

    /// The name of the table with that number. It takes no memory.
    pub fn name(&self, table: u32) -> Option<&Name>
        ensures { option_copied result ≡ option_map (λ t. t.0) (slice_get self.now table) }
    {
        match self.tables.get(table as usize) {
            Some(place) => Some(&place.0),
            None => None,
        }
    }
}
