// What terms are found to be.
use crate::Loops;
use qbs_base::{Items, Row, Rows, Scalar};

/// A tuple: rows, each with the number of its loop.
pub type Tuple = Items<(u32, Row)>;

pub type TupleList = Items<Tuple>;

/// What a term is found to be.
#[derive(Drop)]
pub enum Found {
    /// The empty list, which is a list of any sort.
    Empty,
    /// Tuples of these loops.
    Tuples(Loops, TupleList),
    /// Elements. One that is a scalar stands as a row of kind `Plain` with one cell.
    Elements(Rows),
    One(Scalar),
}
