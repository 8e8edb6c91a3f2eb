// Rules on numbers.
ghost use Rattle.std.specs.Prelude.{◌≡◌, IfOk, option_map};
ghost use Rattle.tor_terms.specs.Plain.{tree_of};
ghost use Rattle.tor_axioms.specs.Rules as spec;

use crate::make::{make_add, make_best, make_count, make_number, make_pick, make_sum};
use qbs_base::{NoMemory, Scalar};
use std::alloc::Global;
use tor_terms::{Term, copy_boxed_term};

/// `Count(Nil)` is 0.
pub fn count_nil(t: &Term) -> Option<Term>
    ensures { option_map tree_of result ≡ spec.count_nil (tree_of t.now) }
{
    match t {
        Term::Count(r) => match &**r {
            Term::Nil => Some(make_number(0)),
            _ => None,
        },
        _ => None,
    }
}

/// `Count(Cat(r, s))` is `Add(Count(r), Count(s))`.
pub fn count_cat(alloc: Global, t: &Term) -> Result<Option<Box<Term>>, NoMemory>
    ensures { IfOk result (λ o. option_map (λ u. tree_of u.value) o ≡ spec.count_cat (tree_of t.now)) }
{
    match t {
        Term::Count(child) => match &**child {
            Term::Cat(r, s) => {
                let left = make_count(alloc, copy_boxed_term(alloc, r)?)?;
                let right = make_count(alloc, copy_boxed_term(alloc, s)?)?;
                Ok(Some(make_add(alloc, left, right)?))
            }
            _ => Ok(None),
        },
        _ => Ok(None),
    }
}

/// `Count(One(a))` is 1.
pub fn count_one(t: &Term) -> Option<Term>
    ensures { option_map tree_of result ≡ spec.count_one (tree_of t.now) }
{
    match t {
        Term::Count(r) => match &**r {
            Term::One(_) => Some(make_number(1)),
            _ => None,
        },
        _ => None,
    }
}

/// `Sum(Nil)` is 0.
pub fn sum_nil(t: &Term) -> Option<Term>
    ensures { option_map tree_of result ≡ spec.sum_nil (tree_of t.now) }
{
    match t {
        Term::Sum(r) => match &**r {
            Term::Nil => Some(make_number(0)),
            _ => None,
        },
        _ => None,
    }
}

/// `Sum(Cat(r, s))` is `Add(Sum(r), Sum(s))`.
pub fn sum_cat(alloc: Global, t: &Term) -> Result<Option<Box<Term>>, NoMemory>
    ensures { IfOk result (λ o. option_map (λ u. tree_of u.value) o ≡ spec.sum_cat (tree_of t.now)) }
{
    match t {
        Term::Sum(child) => match &**child {
            Term::Cat(r, s) => {
                let left = make_sum(alloc, copy_boxed_term(alloc, r)?)?;
                let right = make_sum(alloc, copy_boxed_term(alloc, s)?)?;
                Ok(Some(make_add(alloc, left, right)?))
            }
            _ => Ok(None),
        },
        _ => Ok(None),
    }
}

/// `Sum(Unit(e))` is `Item(e)`.
pub fn sum_one(t: &Term) -> Option<Term>
    ensures { option_map tree_of result ≡ spec.sum_one (tree_of t.now) }
{
    match t {
        Term::Sum(r) => match &**r {
            Term::Unit(e) => Some(Term::Item(*e)),
            _ => None,
        },
        _ => None,
    }
}

/// `Best(d, v, Nil)` is `v`.
pub fn best_nil(alloc: Global, t: &Term) -> Result<Option<Box<Term>>, NoMemory>
    ensures { IfOk result (λ o. option_map (λ u. tree_of u.value) o ≡ spec.best_nil (tree_of t.now)) }
{
    match t {
        Term::Best(_, v, r) => match &**r {
            Term::Nil => Ok(Some(copy_boxed_term(alloc, v)?)),
            _ => Ok(None),
        },
        _ => Ok(None),
    }
}

/// `Best(d, v, Cat(r, s))` is `Best(d, Best(d, v, r), s)`.
pub fn best_cat(alloc: Global, t: &Term) -> Result<Option<Box<Term>>, NoMemory>
    ensures { IfOk result (λ o. option_map (λ u. tree_of u.value) o ≡ spec.best_cat (tree_of t.now)) }
{
    match t {
        Term::Best(way, v, child) => match &**child {
            Term::Cat(r, s) => {
                let first = make_best(
                    alloc,
                    *way,
                    copy_boxed_term(alloc, v)?,
                    copy_boxed_term(alloc, r)?,
                )?;
                Ok(Some(make_best(alloc, *way, first, copy_boxed_term(alloc, s)?)?))
            }
            _ => Ok(None),
        },
        _ => Ok(None),
    }
}

/// `Best(d, v, Unit(e))` is `Pick(d, v, Item(e))`.
pub fn best_one(alloc: Global, t: &Term) -> Result<Option<Box<Term>>, NoMemory>
    ensures { IfOk result (λ o. option_map (λ u. tree_of u.value) o ≡ spec.best_one (tree_of t.now)) }
{
    match t {
        Term::Best(way, v, r) => match &**r {
            Term::Unit(e) => {
                let first = copy_boxed_term(alloc, v)?;
                let item = Box::new(alloc, Term::Item(*e))?;
                Ok(Some(make_pick(alloc, *way, first, item)?))
            }
            _ => Ok(None),
        },
        _ => Ok(None),
    }
}

fn is_zero(t: &Term) -> bool
    ensures { result ≡ spec.is_zero (tree_of t.now) }
{
    match t {
        Term::Lit(Scalar::Long(n)) => *n == 0,
        _ => false,
    }
}

/// `Add(0, b)` is `b`.
pub fn add_zero_left(alloc: Global, t: &Term) -> Result<Option<Box<Term>>, NoMemory>
    ensures { IfOk result (λ o. option_map (λ u. tree_of u.value) o ≡ spec.add_zero_left (tree_of t.now)) }
{
    match t {
        Term::Add(a, b) => {
            if is_zero(a) {
                Ok(Some(copy_boxed_term(alloc, b)?))
            } else {
                Ok(None)
            }
        }
        _ => Ok(None),
    }
}

/// `Add(a, 0)` is `a`.
pub fn add_zero_right(alloc: Global, t: &Term) -> Result<Option<Box<Term>>, NoMemory>
    ensures { IfOk result (λ o. option_map (λ u. tree_of u.value) o ≡ spec.add_zero_right (tree_of t.now)) }
{
    match t {
        Term::Add(a, b) => {
            if is_zero(b) {
                Ok(Some(copy_boxed_term(alloc, a)?))
            } else {
                Ok(None)
            }
        }
        _ => Ok(None),
    }
}

/// `Add(Add(a, b), c)` is `Add(a, Add(b, c))`.
pub fn add_add(alloc: Global, t: &Term) -> Result<Option<Box<Term>>, NoMemory>
    ensures { IfOk result (λ o. option_map (λ u. tree_of u.value) o ≡ spec.add_add (tree_of t.now)) }
{
    match t {
        Term::Add(first, c) => match &**first {
            Term::Add(a, b) => {
                let rest = make_add(
                    alloc,
                    copy_boxed_term(alloc, b)?,
                    copy_boxed_term(alloc, c)?,
                )?;
                Ok(Some(make_add(alloc, copy_boxed_term(alloc, a)?, rest)?))
            }
            _ => Ok(None),
        },
        _ => Ok(None),
    }
}
