// Rules on truth values.
ghost use Rattle.std.specs.Prelude.{◌≡◌, IfOk, option_map};
ghost use Rattle.tor_terms.specs.Plain.{tree_of};
ghost use Rattle.tor_axioms.specs.Rules as spec;

use crate::make::{make_any, make_or, make_truth};
use qbs_base::{NoMemory, Scalar};
use std::alloc::Global;
use tor_terms::{Term, copy_boxed_term};

/// `Any(Nil)` is false.
pub fn any_nil(t: &Term) -> Option<Term>
    ensures { option_map tree_of result ≡ spec.any_nil (tree_of t.now) }
{
    match t {
        Term::Any(r) => match &**r {
            Term::Nil => Some(make_truth(false)),
            _ => None,
        },
        _ => None,
    }
}

/// `Any(Cat(r, s))` is `Or(Any(r), Any(s))`.
pub fn any_cat(alloc: Global, t: &Term) -> Result<Option<Box<Term>>, NoMemory>
    ensures { IfOk result (λ o. option_map (λ u. tree_of u.value) o ≡ spec.any_cat (tree_of t.now)) }
{
    match t {
        Term::Any(child) => match &**child {
            Term::Cat(r, s) => {
                let left = make_any(alloc, copy_boxed_term(alloc, r)?)?;
                let right = make_any(alloc, copy_boxed_term(alloc, s)?)?;
                Ok(Some(make_or(alloc, left, right)?))
            }
            _ => Ok(None),
        },
        _ => Ok(None),
    }
}

/// `Any(One(a))` is true.
pub fn any_one(t: &Term) -> Option<Term>
    ensures { option_map tree_of result ≡ spec.any_one (tree_of t.now) }
{
    match t {
        Term::Any(r) => match &**r {
            Term::One(_) => Some(make_truth(true)),
            _ => None,
        },
        _ => None,
    }
}

/// `Or(false, b)` is `b`.
pub fn or_false_left(alloc: Global, t: &Term) -> Result<Option<Box<Term>>, NoMemory>
    ensures { IfOk result (λ o. option_map (λ u. tree_of u.value) o ≡ spec.or_false_left (tree_of t.now)) }
{
    match t {
        Term::Or(a, b) => match &**a {
            Term::Lit(Scalar::Bool(false)) => Ok(Some(copy_boxed_term(alloc, b)?)),
            _ => Ok(None),
        },
        _ => Ok(None),
    }
}

/// `Or(a, false)` is `a`.
pub fn or_false_right(alloc: Global, t: &Term) -> Result<Option<Box<Term>>, NoMemory>
    ensures { IfOk result (λ o. option_map (λ u. tree_of u.value) o ≡ spec.or_false_right (tree_of t.now)) }
{
    match t {
        Term::Or(a, b) => match &**b {
            Term::Lit(Scalar::Bool(false)) => Ok(Some(copy_boxed_term(alloc, a)?)),
            _ => Ok(None),
        },
        _ => Ok(None),
    }
}

/// `Or(a, true)` is true.
pub fn or_true_right(t: &Term) -> Option<Term>
    ensures { option_map tree_of result ≡ spec.or_true_right (tree_of t.now) }
{
    match t {
        Term::Or(_, b) => match &**b {
            Term::Lit(Scalar::Bool(true)) => Some(make_truth(true)),
            _ => None,
        },
        _ => None,
    }
}

/// `Or(true, b)` is true.
pub fn or_true_left(t: &Term) -> Option<Term>
    ensures { option_map tree_of result ≡ spec.or_true_left (tree_of t.now) }
{
    match t {
        Term::Or(a, _) => match &**a {
            Term::Lit(Scalar::Bool(true)) => Some(make_truth(true)),
            _ => None,
        },
        _ => None,
    }
}

/// `Or(Or(a, b), c)` is `Or(a, Or(b, c))`.
pub fn or_or(alloc: Global, t: &Term) -> Result<Option<Box<Term>>, NoMemory>
    ensures { IfOk result (λ o. option_map (λ u. tree_of u.value) o ≡ spec.or_or (tree_of t.now)) }
{
    match t {
        Term::Or(first, c) => match &**first {
            Term::Or(a, b) => {
                let rest = make_or(
                    alloc,
                    copy_boxed_term(alloc, b)?,
                    copy_boxed_term(alloc, c)?,
                )?;
                Ok(Some(make_or(alloc, copy_boxed_term(alloc, a)?, rest)?))
            }
            _ => Ok(None),
        },
        _ => Ok(None),
    }
}
