// Scalars, their order, rows and values.
ghost use Rattle.std.specs.Prelude.{◌≡◌, ◌↔◌, IsTrue};

use crate::{Items, Text};
use std::cmp::Ordering;

/// A value of a cell: a whole number of 64 bits, a truth value or a text.
#[derive(Clone, PartialEq, Eq, Drop)]
pub enum Scalar {
    Long(i64),
    Bool(bool),
    Text(Text),
}

/// A type of scalars.
#[derive(Clone, Copy, PartialEq, Eq)]
pub enum Ty {
    Long,
    Bool,
    Text,
}

/// What a row is a row of: a table, by its number, or nothing, as a row of one cell that stands
/// for a scalar in a list.
#[derive(Clone, Copy, PartialEq, Eq)]
pub enum Kind {
    Plain,
    Table(u32),
}

pub type Cells = Items<Scalar>;

pub type Scalars = Items<Scalar>;

pub type ScalarLists = Items<Scalars>;

pub type Tys = Items<Ty>;

pub type Bools = Items<bool>;

pub type Numbers = Items<u64>;

pub type NumberLists = Items<Numbers>;

/// A row: its kind and its cells in the order of the columns.
#[derive(Clone, Drop)]
pub struct Row {
    pub kind: Kind,
    pub cells: Cells,
}

pub type Rows = Items<Row>;

pub type RowLists = Items<Rows>;

/// A value of the source language: a scalar, a row, or a list or set of rows. A list of scalars
/// has rows of kind `Plain` with one cell.
#[derive(Clone, Drop)]
pub enum Value {
    One(Scalar),
    Whole(Row),
    Many(Rows),
}

pub type Values = Items<Value>;

ghost use Rattle.qbs_base.specs.Scalar.{cmp_of, SameVariant};

/// The order of two scalars of one variant: numbers by size, false before true, texts by their
/// bytes.
pub fn scalar_cmp(a: &Scalar, b: &Scalar) -> Ordering
    requires { SameVariant a.now b.now }
    ensures { result ≡ cmp_of a.now b.now }
{
    match (a, b) {
        (Scalar::Long(x), Scalar::Long(y)) => x.cmp(y),
        (Scalar::Bool(x), Scalar::Bool(y)) => x.cmp(y),
        (Scalar::Text(x), Scalar::Text(y)) => x.cmp(y),
        _ => unreachable!(),
    }
}

/// Whether two scalars are one.
pub fn same_scalar(a: &Scalar, b: &Scalar) -> bool
    ensures { IsTrue result ↔ (a.now ≡ b.now) }
{
    a == b
}
