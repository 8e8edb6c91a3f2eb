// What comes of a query.
use qbs_base::{Rows, Scalar};

/// What a query answers: rows, a number or a truth value, or that a number passes 64 bits.
#[derive(Drop)]
pub enum Answer {
    Rows(Rows),
    One(Scalar),
    SumTooLarge,
}
