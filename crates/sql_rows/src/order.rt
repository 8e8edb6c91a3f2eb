// The order of ORDER BY.
ghost use Rattle.std.specs.Prelude.{◌≡◌};
ghost use Rattle.std.specs.Ordering.{is_lt, is_gt};
ghost use Rattle.qbs_base.specs.Scalar.{value_before};
ghost use Rattle.qbs_base.specs.Sort.{turned};
ghost use Rattle.sql_ast.specs.Meaning.{key_before, before};
ghost use Rattle.sql_rows.specs.Keyed.{keyed_of, valued_before};
ghost use Rattle.sql_rows.specs.Reading.{value_of, combination};

use crate::columns::column;
use crate::compare::value_order;
use crate::place::{Cell, Keyed, Place};
use sql_ast::SqlKey;
use std::cmp::Ordering;

fn turned_order(down: bool, x: &Cell, y: &Cell) -> Ordering
    ensures less { is_lt result ≡ turned down value_before (value_of x.now) (value_of y.now) }
    ensures greater { is_gt result ≡ turned down value_before (value_of y.now) (value_of x.now) }
{
    if down {
        value_order(y, x)
    } else {
        value_order(x, y)
    }
}

fn key_order(key: &SqlKey, c: &[Place], d: &[Place]) -> Ordering
    ensures less { is_lt result ≡ key_before key.now (combination c.now) (combination d.now) }
    ensures greater { is_gt result ≡ key_before key.now (combination d.now) (combination c.now) }
{
    turned_order(key.down, &column(c, &key.col), &column(d, &key.col))
}

/// The order of two combinations by keys, the first key first.
pub fn order(keys: &[SqlKey], c: &[Place], d: &[Place]) -> Ordering
    ensures { is_lt result ≡ before keys.now (combination c.now) (combination d.now) }
{
    for key in keys {
        match key_order(key, c, d) {
            Ordering::Less => return Ordering::Less,
            Ordering::Equal => {}
            Ordering::Greater => return Ordering::Greater,
        }
    }
    Ordering::Equal
}

/// The order of two combinations by a key whose values were taken out, and where these tie by
/// further keys.
pub fn keyed_order(key: &SqlKey, rest: &[SqlKey], a: &Keyed, b: &Keyed) -> Ordering
    ensures { is_lt result ≡ valued_before key.now rest.now (keyed_of a.now) (keyed_of b.now) }
{
    match turned_order(key.down, &a.first, &b.first) {
        Ordering::Less => Ordering::Less,
        Ordering::Equal => order(rest, a.places, b.places),
        Ordering::Greater => Ordering::Greater,
    }
}
