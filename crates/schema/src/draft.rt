//! What the text of a schema says of a table, before its key clause has marked columns.
ghost use Rattle.std.specs.Prelude.{◌≡◌};
ghost use Rattle.schema.specs.Marks.{with_mark, column_of as column_with};

use qbs_base::{Column, Name, Names, Table, Ty};

/// A mark behind the type of a column.
#[derive(Clone, Copy)]
pub enum Mark {
    /// NOT NULL.
    NotNull,
    /// PRIMARY KEY.
    PrimaryKey,
}

/// Which marks stand behind the type of a column.
#[derive(Clone, Copy)]
pub struct Marks {
    pub not_null: bool,
    pub primary: bool,
}

/// What stands behind a comma: a column, or the names of a key clause.
#[derive(Drop)]
pub enum Item {
    Column(Column),
    Key(Names),
}

/// A table as it is written: its columns have the marks behind their types alone, and the names of
/// its key clause stand beside it, none where it has no such clause.
#[derive(Drop)]
pub struct Draft {
    pub table: Table,
    pub key: Names,
}

impl Marks {
    /// These and one more.
    pub fn with(self, mark: Mark) -> Marks
        ensures { result ≡ with_mark self mark }
    {
        match mark {
            Mark::NotNull => Marks {
                not_null: true,
                primary: self.primary,
            },
            Mark::PrimaryKey => Marks {
                not_null: self.not_null,
                primary: true,
            },
        }
    }
}

/// The column of a name, a type and marks.
pub fn column_of(name: Name, ty: Ty, marks: Marks) -> Column
    ensures { result ≡ column_with (name, (ty, marks)) }
{
    Column {
        name,
        ty,
        not_null: marks.not_null,
        primary: marks.primary,
    }
}
