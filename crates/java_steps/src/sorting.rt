// Sorted lists and first occurrences.
ghost use Rattle.std.specs.Prelude.{◌≡◌, IfOk, OnOk, option_copied};
ghost use Rattle.std.specs.Ordering.{is_lt};
ghost use Rattle.qbs_base.specs.Scalar.{scalar_before, value_before};
ghost use Rattle.qbs_base.specs.Sort.{stable_sort};
ghost use Rattle.java_steps.specs.Words.{key_before};
ghost use Rattle.java_mean.specs.Statement.{in_order};

use crate::rows::cell;
use qbs_base::{Name, NoMemory, Row, Rows, Scalar, scalar_cmp};
use schema::Schema;
use std::alloc::AllocError;
use std::cmp::Ordering;

fn is_scalar_before(x: &Scalar, y: &Scalar) -> bool
    ensures { result ≡ scalar_before x.now y.now }
{
    match (x, y) {
        (Scalar::Long(_), Scalar::Long(_)) => scalar_cmp(x, y).is_lt(),
        (Scalar::Long(_), _) => true,
        (Scalar::Bool(_), Scalar::Long(_)) => false,
        (Scalar::Bool(_), Scalar::Bool(_)) => scalar_cmp(x, y).is_lt(),
        (Scalar::Bool(_), Scalar::Text(_)) => true,
        (Scalar::Text(_), Scalar::Text(_)) => scalar_cmp(x, y).is_lt(),
        (Scalar::Text(_), _) => false,
    }
}

fn is_before(x: Option<&Scalar>, y: Option<&Scalar>) -> bool
    ensures { result ≡ value_before (option_copied x.entry) (option_copied y.entry) }
{
    match (x, y) {
        (None, None) => false,
        (None, Some(_)) => true,
        (Some(_), None) => false,
        (Some(x), Some(y)) => is_scalar_before(x, y),
    }
}

fn is_earlier(schema: &Schema, key: &Name, down: bool, a: &Row, b: &Row) -> bool
    ensures { result ≡ key_before schema.now key.now down a.now b.now }
{
    let x = cell(schema, a, key);
    let y = cell(schema, b, key);
    if down {
        is_before(y, x)
    } else {
        is_before(x, y)
    }
}

/// The order of two rows by keys, the first one first, each up or down.
#[tactic(auto, using(crate::proofs::Sorted::in_order_step))]
fn order(schema: &Schema, keys: &[Name], down: &[bool], a: &Row, b: &Row) -> Ordering
    ensures { is_lt result ≡ in_order schema.now keys.now down.now a.now b.now }
{
    for (i, key) in keys.iter().enumerate() {
        if i >= down.len() {
            return Ordering::Equal;
        }
        if is_earlier(schema, key, down[i], a, b) {
            return Ordering::Less;
        }
        if is_earlier(schema, key, down[i], b, a) {
            return Ordering::Greater;
        }
    }
    Ordering::Equal
}

fn sort(
    schema: &Schema,
    keys: &[Name],
    down: &[bool],
    rows: &mut Vec<Row>,
) -> Result<(), AllocError>
    ensures { OnOk result (rows.new.items ≡ stable_sort (in_order schema.now keys.now down.now) rows.old.items) }
{
    rows.sort_by(|a, b| order(schema, keys, down, a, b))
}

/// Rows in the order of keys. Rows of which neither is before the other keep their order.
pub fn sorted(schema: &Schema, keys: &[Name], down: &[bool], rows: Rows) -> Result<Rows, NoMemory>
    ensures { IfOk result (λ v. v ≡ stable_sort (in_order schema.now keys.now down.now) rows) }
{
    let mut rows = rows.into_vec();
    sort(schema, keys, down, &mut rows)?;
    Ok(Rows::from_vec(rows))
}
