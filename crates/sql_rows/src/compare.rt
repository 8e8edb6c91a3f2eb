// The order of values.
ghost use Rattle.std.specs.Prelude.{◌≡◌};
ghost use Rattle.std.specs.Ordering.{is_lt, is_gt};
ghost use Rattle.qbs_base.specs.Scalar.{value_before};
ghost use Rattle.sql_rows.specs.Reading.{value_of};

use crate::place::Cell;
use std::cmp::Ordering;

/// The order of keys by one comparison, which says of both directions: a missing value first, then
/// numbers, truth values and texts.
#[tactic(auto, using(crate::proofs::Ordered::number_greater, crate::proofs::Ordered::truth_greater, crate::proofs::Ordered::text_greater))]
pub fn value_order(x: &Cell, y: &Cell) -> Ordering
    ensures less { is_lt result ≡ value_before (value_of x.now) (value_of y.now) }
    ensures greater { is_gt result ≡ value_before (value_of y.now) (value_of x.now) }
{
    match (x, y) {
        (Cell::Long(a), Cell::Long(b)) => a.cmp(b),
        (Cell::Truth(a), Cell::Truth(b)) => a.cmp(b),
        (Cell::Text(a), Cell::Text(b)) => a.cmp(b),
        (Cell::Missing, Cell::Missing) => Ordering::Equal,
        (Cell::Missing, _) => Ordering::Less,
        (_, Cell::Missing) => Ordering::Greater,
        (Cell::Long(_), _) => Ordering::Less,
        (_, Cell::Long(_)) => Ordering::Greater,
        (Cell::Truth(_), _) => Ordering::Less,
        (_, Cell::Truth(_)) => Ordering::Greater,
    }
}
