// What is asked of scalars: whether they are one, and which stands before which.
ghost use Rattle.std.specs.Prelude.{◌≡◌, option_copied};
ghost use Rattle.std.specs.List.{list_any, list_all};
ghost use Rattle.qbs_base.specs.Scalar as scalars;
ghost use Rattle.tor_terms.specs.Truth as spec;

use qbs_base::{Scalar, same_scalar, scalar_cmp};

/// Whether two scalars are one.
pub fn same_cell(x: &Scalar, y: &Scalar) -> bool
    ensures { result ≡ scalars.scalar_same x.now y.now }
{
    same_scalar(x, y)
}

fn less(x: &Scalar, y: &Scalar) -> bool
    ensures { result ≡ spec.less x.now y.now }
{
    match (x, y) {
        (Scalar::Long(_), Scalar::Long(_)) => scalar_cmp(x, y).is_lt(),
        (Scalar::Text(_), Scalar::Text(_)) => scalar_cmp(x, y).is_lt(),
        _ => false,
    }
}

/// Whether the first is less than the second: both are numbers, or both are texts.
pub fn both_less(x: Option<&Scalar>, y: Option<&Scalar>) -> bool
    ensures { result ≡ scalars.compared spec.less (option_copied x.entry) (option_copied y.entry) }
{
    match (x, y) {
        (Some(x), Some(y)) => less(x, y),
        _ => false,
    }
}

/// Whether both are there and are one.
pub fn both_same(x: Option<&Scalar>, y: Option<&Scalar>) -> bool
    ensures { result ≡ scalars.compared scalars.scalar_same (option_copied x.entry) (option_copied y.entry) }
{
    match (x, y) {
        (Some(x), Some(y)) => same_cell(x, y),
        _ => false,
    }
}

/// Whether a scalar is there and is `true`.
pub fn is_true(x: Option<&Scalar>) -> bool
    ensures { result ≡ spec.is_true (option_copied x.entry) }
{
    match x {
        Some(Scalar::Bool(b)) => *b,
        _ => false,
    }
}

fn has_scalar(xs: &[Scalar], x: &Scalar) -> bool
    ensures { result ≡ list_any (scalars.scalar_same x.now) xs.now }
{
    for y in xs {
        if same_cell(x, y) {
            return true;
        }
    }
    false
}

fn same_variant(x: &Scalar, y: &Scalar) -> bool
    ensures { result ≡ spec.same_variant x.now y.now }
{
    match (x, y) {
        (Scalar::Long(_), Scalar::Long(_)) => true,
        (Scalar::Bool(_), Scalar::Bool(_)) => true,
        (Scalar::Text(_), Scalar::Text(_)) => true,
        _ => false,
    }
}

fn are_of_variant(xs: &[Scalar], x: &Scalar) -> bool
    ensures { result ≡ list_all (spec.same_variant x.now) xs.now }
{
    for y in xs {
        if !same_variant(x, y) {
            return false;
        }
    }
    true
}

/// Whether a scalar is there and among these, which are all of its type.
pub fn is_member(x: Option<&Scalar>, xs: &[Scalar]) -> bool
    ensures { result ≡ spec.is_member (option_copied x.entry) xs.now }
{
    match x {
        Some(x) => has_scalar(xs, x) && are_of_variant(xs, x),
        None => false,
    }
}

/// Whether two truth values are the same, as formulas ask it.
pub fn same_bool(a: bool, b: bool) -> bool
    ensures { result ≡ spec.same_bool a b }
{
    if a { b } else { !b }
}

/// Whether a scalar stands before another: numbers before truth values, and those before texts.
pub fn scalar_before(x: &Scalar, y: &Scalar) -> bool
    ensures { result ≡ scalars.scalar_before x.now y.now }
{
    match (x, y) {
        (Scalar::Long(_), Scalar::Long(_)) => scalar_cmp(x, y).is_lt(),
        (Scalar::Bool(_), Scalar::Bool(_)) => scalar_cmp(x, y).is_lt(),
        (Scalar::Text(_), Scalar::Text(_)) => scalar_cmp(x, y).is_lt(),
        (Scalar::Long(_), Scalar::Bool(_)) => true,
        (Scalar::Long(_), Scalar::Text(_)) => true,
        (Scalar::Bool(_), Scalar::Text(_)) => true,
        _ => false,
    }
}
