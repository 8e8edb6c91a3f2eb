// The order of a loop's rows.
ghost use Rattle.std.specs.Prelude.{◌≡◌, option_copied};
ghost use Rattle.std.specs.Ordering.{is_lt};
ghost use Rattle.kernel_lang.specs.Given as given;
ghost use Rattle.qbs_base.specs.Scalar as scalars;

use kernel_lang::Col;
use qbs_base::{Row, Scalar};
use std::cmp::Ordering;
use tor_terms::scalar_before;

// A missing value stands before all others.
fn value_before(x: Option<&Scalar>, y: Option<&Scalar>) -> bool
    ensures { result ≡ scalars.value_before (option_copied x.entry) (option_copied y.entry) }
{
    match (x, y) {
        (Some(x), Some(y)) => scalar_before(x, y),
        (None, Some(_)) => true,
        _ => false,
    }
}

fn key_before(key: Col, r: &Row, s: &Row) -> bool
    ensures { result ≡ given.key_before key r.now s.now }
{
    let x = r.cells.as_slice().get(key.column as usize);
    let y = s.cells.as_slice().get(key.column as usize);
    if key.down {
        value_before(y, x)
    } else {
        value_before(x, y)
    }
}

/// The order of two rows by keys, the first key first.
pub fn order(keys: &[Col], r: &Row, s: &Row) -> Ordering
    ensures { is_lt result ≡ given.before keys.now r.now s.now }
{
    for key in keys {
        if key_before(*key, r, s) {
            return Ordering::Less;
        }
        if key_before(*key, s, r) {
            return Ordering::Greater;
        }
    }
    Ordering::Equal
}
