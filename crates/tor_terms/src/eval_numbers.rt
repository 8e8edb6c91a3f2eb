// Numbers of elements.
ghost use Rattle.std.specs.Prelude.{◌≡◌, ◌+ℤ◌};
ghost use Rattle.tor_terms.specs.Value as spec;
ghost use Rattle.tor_terms.specs.Evaluation as found;

use crate::Way;
use crate::eval_found::Found;
use qbs_base::{Kind, Row, Scalar};

/// The number that an element is, where it is one.
pub fn number_of(row: &Row) -> Option<i64>
    ensures { result ≡ found.number_of row.now }
{
    match (row.kind, row.cells.as_slice()) {
        (Kind::Plain, [Scalar::Long(n)]) => Some(*n),
        _ => None,
    }
}

/// A number, where it has 64 bits.
pub fn number(n: i128) -> Option<Found>
    ensures { result ≡ found.number_found n }
{
    if n < i64::MIN as i128 || n > i64::MAX as i128 {
        return None;
    }
    Some(Found::One(Scalar::Long(n as i64)))
}

/// The sum of two numbers, where it has 64 bits.
pub fn added(m: i64, n: i64) -> Option<Found>
    ensures { result ≡ found.number_found (m +ℤ n) }
{
    number(m as i128 + n as i128)
}

/// The greater or lesser of two numbers.
pub fn better(way: Way, m: i64, n: i64) -> i64
    ensures { result ≡ spec.better way m n }
{
    match way {
        Way::Max => { if m < n { n } else { m } }
        Way::Min => { if n < m { n } else { m } }
    }
}
