// Lists and sets that know their members.
ghost use Rattle.std.specs.Prelude.{◌≡◌, ◌++◌, [], ◌∷◌, true, IfOk};
ghost use Rattle.std.specs.List.{list_any};
ghost use Rattle.qbs_base.specs.Scalar.{same_cells};
ghost use Rattle.java_mean.specs.Statement.{added};

use crate::met::{Key, meet, met_rows, was_met};
use qbs_base::{NoMemory, Row, Rows, Scalar};
use std::alloc::Global;
use std::collections::BTreeSet;
use std::marker::Model;

/// Rows in their order, and beside them an ordered set of what their cells are, so that a row is
/// found among them without a walk. Contracts see the rows.
#[derive(Drop)]
pub struct Members {
    rows: Vec<Row>,
    met: BTreeSet<Key>,
}

impl Model for Members {
    ghost use Rattle.std.specs.Prelude.{List};
    ghost use Rattle.qbs_base.specs.declared.scalar.Row.{Row as ARow};
    ghost use Rattle.java_steps.specs.Met.{AreMet};

    ghost Value = { List ARow };

    ghost view = { λ m. m.rows.items };

    ghost invariant = { λ m. AreMet m.met m.rows.items };
}

impl Members {
    /// These rows, each of which is met.
    pub fn from_rows(alloc: Global, rows: Rows) -> Result<Members, NoMemory>
        ensures { IfOk result (λ m. m ≡ rows) }
    {
        let rows = rows.into_vec();
        let met = met_rows(alloc, rows.as_slice())?;
        Ok(Members { rows, met })
    }

    /// The rows, lent in order.
    pub fn as_slice(&self) -> &[Row]
        ensures { result.now ≡ self.now }
    {
        self.rows.as_slice()
    }

    /// Whether a row with these cells is among them, by one look-up and no walk.
    pub fn contains(&self, alloc: Global, cells: &[Scalar]) -> Result<bool, NoMemory>
        ensures { IfOk result (λ found. found ≡ list_any (λ row. same_cells cells.now row.cells) self.now) }
    {
        was_met(alloc, &self.met, cells)
    }

    /// The rows alone. It takes no memory.
    pub fn into_rows(self) -> Rows
        ensures { result ≡ self }
    {
        Rows::from_vec(self.rows)
    }

    /// The rows with one more at the end.
    pub fn with_last(self, alloc: Global, row: Row) -> Result<Members, NoMemory>
        ensures { IfOk result (λ m. m ≡ self ++ row ∷ []) }
    {
        let mut rows = self.rows;
        let mut met = self.met;
        meet(alloc, &mut met, &row)?;
        rows.push(row)?;
        Ok(Members { rows, met })
    }

    /// The rows with one more at the end, where none of them has its cells.
    pub fn with_row(self, alloc: Global, row: Row) -> Result<Members, NoMemory>
        ensures { IfOk result (λ m. m ≡ added true self row) }
    {
        let mut rows = self.rows;
        let mut met = self.met;
        if meet(alloc, &mut met, &row)? {
            rows.push(row)?;
            return Ok(Members { rows, met });
        }
        Ok(Members { rows, met })
    }
}
