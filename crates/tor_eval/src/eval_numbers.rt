// Numbers of elements.
ghost use Rattle.std.specs.Prelude.{◌≡◌, not};
ghost use Rattle.tor_terms.specs.Plain.{tree_of};
ghost use Rattle.tor_terms.specs.Fits as fits;
ghost use Rattle.tor_terms.specs.Evaluation as found;

use qbs_base::{Row, Scalar};
use tor_terms::{Elem, Found, Term, Way, better, number, number_of};

// The sum of all, where all are numbers. It has more than 64 bits where they are many.
fn sum_of(rows: &[Row]) -> Option<i128>
    ensures { result ≡ found.sum_of rows.now }
{
    let mut sum: i128 = 0;
    for row in rows {
        match number_of(row) {
            Some(n) => sum += n as i128,
            None => return None,
        }
    }
    Some(sum)
}

/// The sum of elements, where all are numbers and none is a whole row.
pub fn sum_where(whole: bool, rows: &[Row]) -> Option<Found>
    ensures { result ≡ found.number_where (not whole) (found.sum_of rows.now) }
{
    if whole {
        return None;
    }
    match sum_of(rows) {
        Some(n) => number(n),
        None => None,
    }
}

// The greatest or least of a number and of all elements, where all are numbers.
fn best_of(way: Way, start: i64, rows: &[Row]) -> Option<i64>
    ensures { result ≡ found.best_of way start rows.now }
{
    let mut best = start;
    for row in rows {
        match number_of(row) {
            Some(n) => best = better(way, best, n),
            None => return None,
        }
    }
    Some(best)
}

/// The greatest or least of a number and of all elements, where all are numbers and none is a
/// whole row.
pub fn best_where(way: Way, whole: bool, start: i64, rows: &[Row]) -> Option<Found>
    ensures { result ≡ found.long_where (not whole) (found.best_of way start rows.now) }
{
    if whole {
        return None;
    }
    match best_of(way, start, rows) {
        Some(n) => Some(Found::One(Scalar::Long(n))),
        None => None,
    }
}

fn is_whole(e: Elem) -> bool
    ensures { result ≡ fits.is_whole e }
{
    match e {
        Elem::Whole(_) => true,
        Elem::Field(_, _) => false,
    }
}

/// Whether a whole row stands anywhere in a term.
pub fn has_whole(t: &Term) -> bool
    ensures { result ≡ fits.has_whole (tree_of t.now) }
{
    match t {
        Term::Unit(e) | Term::Item(e) => is_whole(*e),
        Term::Proj(e, r) => is_whole(*e) || has_whole(r),
        Term::Insert(r, e) => has_whole(r) || is_whole(*e),
        Term::Top(_, r)
        | Term::Sel(_, r)
        | Term::Uniq(r)
        | Term::Count(r)
        | Term::Sum(r)
        | Term::Any(r) => has_whole(r),
        Term::Cat(r, s)
        | Term::Join(r, s)
        | Term::Best(_, r, s)
        | Term::Pick(_, r, s)
        | Term::Add(r, s)
        | Term::Or(r, s) => has_whole(r) || has_whole(s),
        _ => false,
    }
}
