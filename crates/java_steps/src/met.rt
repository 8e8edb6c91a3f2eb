// Rows that were met, by their cells.
ghost use Rattle.std.specs.Prelude.{◌≡◌, IfOk};
ghost use Rattle.java_steps.specs.Met.{atom_in, cells_in, AreMet, IsMet, Meets};

use qbs_base::{NoMemory, Row, Scalar, Text};
use std::alloc::Global;
use std::collections::BTreeSet;

/// A scalar as a part of a key, in the derived order.
#[derive(PartialEq, Eq, PartialOrd, Ord, Drop)]
pub enum Atom {
    Long(i64),
    Truth(bool),
    Text(Text),
}

/// The cells of a row as a key.
pub type Key = Vec<Atom>;

fn atom_of(alloc: Global, x: &Scalar) -> Result<Atom, NoMemory>
    ensures { IfOk result (λ a. atom_in a ≡ x.now) }
{
    match x {
        Scalar::Long(n) => Ok(Atom::Long(*n)),
        Scalar::Bool(b) => Ok(Atom::Truth(*b)),
        Scalar::Text(t) => Ok(Atom::Text(Text::from_str(alloc, t.as_str())?)),
    }
}

fn key_of(alloc: Global, cells: &[Scalar]) -> Result<Key, NoMemory>
    ensures { IfOk result (λ k. cells_in k ≡ cells.now) }
{
    let mut atoms = Vec::with_capacity(alloc, cells.len())?;
    for x in cells {
        atoms.push(atom_of(alloc, x)?)?;
    }
    Ok(atoms)
}

/// Meets a row, and says whether none that was met before has its cells. It takes one look-up in the
/// set and no walk over the rows.
pub fn meet(alloc: Global, met: &mut BTreeSet<Key>, row: &Row) -> Result<bool, NoMemory>
    ensures { IfOk result (λ added. Meets met.old row.now added met.new) }
{
    let key = key_of(alloc, row.cells.as_slice())?;
    Ok(met.insert(key)?)
}

/// Whether a row with these cells was met. It takes one look-up in the set and no walk over the rows.
pub fn was_met(alloc: Global, met: &BTreeSet<Key>, cells: &[Scalar]) -> Result<bool, NoMemory>
    ensures { IfOk result (IsMet met.now cells.now) }
{
    let key = key_of(alloc, cells)?;
    Ok(met.contains(&key))
}

/// The set of what the cells of some rows are.
pub fn met_rows(alloc: Global, rows: &[Row]) -> Result<BTreeSet<Key>, NoMemory>
    ensures { IfOk result (λ met. AreMet met rows.now) }
{
    let mut met = BTreeSet::new(alloc);
    for row in rows {
        meet(alloc, &mut met, row)?;
    }
    Ok(met)
}
