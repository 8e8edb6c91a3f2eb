// Rows and columns at a tuple.
ghost use Rattle.std.specs.Prelude.{◌≡◌, ◌||◌, ℕ, IfOk, unwrap_or, option_copied, slice_get, None, is_some, map, length, nat_lt};
ghost use Rattle.qbs_base.specs.declared.scalar.Row.{Row as PlainRow};
ghost use Rattle.tor_terms.specs.Truth as truths;
ghost use Rattle.tor_terms.specs.Value as spec;
ghost use Rattle.tor_terms.specs.Worlds.{world_of};
ghost use Rattle.tor_terms.specs.Fits as fits;
ghost use Rattle.tor_terms.specs.Valid as valid;
ghost use Rattle.tor_terms.specs.Evaluation as found;

use qbs_base::{NoMemory, Row, Scalar};
use std::alloc::Global;
use tor_terms::{Elem, Env, plain_row};

/// The row of a loop: the tuple's own, and else the current one, where there is one.
pub fn row_at<'a>(env: &'a Env, tuple: &'a [(u32, Row)], j: u32) -> Option<&'a Row>
    ensures row { unwrap_or (option_copied result) (spec.plain_row None) ≡ truths.row_at (world_of env.now).current tuple.now j }
    ensures there { is_some result ≡ (truths.has_loop (map (λ (own : ℕ × PlainRow). own.0) tuple.now) j || nat_lt j (length env.now.cur)) }
{
    for own in tuple {
        if own.0 == j {
            return Some(&own.1);
        }
    }
    env.cur.as_slice().get(j as usize)
}

/// A column of the row of a loop, where it is there.
pub fn cell_at<'a>(env: &'a Env, tuple: &'a [(u32, Row)], j: u32, c: u32) -> Option<&'a Scalar>
    ensures { option_copied result ≡ slice_get (truths.row_at (world_of env.now).current tuple.now j).cells c }
{
    match row_at(env, tuple, j) {
        Some(row) => row.cells.as_slice().get(c as usize),
        None => None,
    }
}

/// Whether the column of an element is there.
pub fn has_column(env: &Env, tuple: &[(u32, Row)], e: Elem) -> bool
    ensures { result ≡ found.column_of env.now e tuple.now }
{
    match e {
        Elem::Whole(_) => true,
        Elem::Field(j, c) => cell_at(env, tuple, j, c).is_some(),
    }
}

/// The loop of an element.
pub fn elem_loop(e: Elem) -> u32
    ensures { result ≡ valid.elem_loop e }
{
    match e {
        Elem::Whole(j) => j,
        Elem::Field(j, _) => j,
    }
}

/// Whether an element can be taken at the current rows.
pub fn elem_fits(env: &Env, e: Elem) -> bool
    ensures { result ≡ fits.elem_fits env.now e }
{
    (elem_loop(e) as usize) < env.cur.len() && has_column(env, &[], e)
}

/// An element at a tuple.
pub fn elem_of(alloc: Global, env: &Env, tuple: &[(u32, Row)], e: Elem) -> Result<Row, NoMemory>
    ensures { IfOk result (λ r. r ≡ found.elem_of env.now e tuple.now) }
{
    match e {
        Elem::Whole(j) => match row_at(env, tuple, j) {
            Some(row) => Ok(row.clone()?),
            None => plain_row(alloc, None),
        },
        Elem::Field(j, c) => plain_row(alloc, cell_at(env, tuple, j, c)),
    }
}
