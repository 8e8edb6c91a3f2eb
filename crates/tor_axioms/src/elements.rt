// Rules on lists of elements.
ghost use Rattle.std.specs.Prelude.{◌≡◌, IfOk, option_map};
ghost use Rattle.tor_terms.specs.Plain.{tree_of};
ghost use Rattle.tor_axioms.specs.Rules as spec;

use crate::make::{make_cat, make_insert, make_proj, make_uniq};
use qbs_base::NoMemory;
use std::alloc::Global;
use tor_terms::{Term, copy_boxed_term};

/// `Proj(e, Nil)` is `Nil`.
pub fn proj_nil(t: &Term) -> Option<Term>
    ensures { option_map tree_of result ≡ spec.proj_nil (tree_of t.now) }
{
    match t {
        Term::Proj(_, r) => match &**r {
            Term::Nil => Some(Term::Nil),
            _ => None,
        },
        _ => None,
    }
}

/// `Proj(e, Cat(r, s))` is `Cat(Proj(e, r), Proj(e, s))`.
pub fn proj_cat(alloc: Global, t: &Term) -> Result<Option<Box<Term>>, NoMemory>
    ensures { IfOk result (λ o. option_map (λ u. tree_of u.value) o ≡ spec.proj_cat (tree_of t.now)) }
{
    match t {
        Term::Proj(e, child) => match &**child {
            Term::Cat(r, s) => {
                let left = make_proj(alloc, *e, copy_boxed_term(alloc, r)?)?;
                let right = make_proj(alloc, *e, copy_boxed_term(alloc, s)?)?;
                Ok(Some(make_cat(alloc, left, right)?))
            }
            _ => Ok(None),
        },
        _ => Ok(None),
    }
}

/// `Proj(e, One(a))` is `Unit(e)`.
pub fn proj_one(t: &Term) -> Option<Term>
    ensures { option_map tree_of result ≡ spec.proj_one (tree_of t.now) }
{
    match t {
        Term::Proj(e, r) => match &**r {
            Term::One(_) => Some(Term::Unit(*e)),
            _ => None,
        },
        _ => None,
    }
}

/// `Uniq(Nil)` is `Nil`.
pub fn uniq_nil(t: &Term) -> Option<Term>
    ensures { option_map tree_of result ≡ spec.uniq_nil (tree_of t.now) }
{
    match t {
        Term::Uniq(r) => match &**r {
            Term::Nil => Some(Term::Nil),
            _ => None,
        },
        _ => None,
    }
}

/// `Uniq(Cat(r, Unit(e)))` is `Insert(Uniq(r), e)`.
pub fn uniq_cat(alloc: Global, t: &Term) -> Result<Option<Box<Term>>, NoMemory>
    ensures { IfOk result (λ o. option_map (λ u. tree_of u.value) o ≡ spec.uniq_cat (tree_of t.now)) }
{
    match t {
        Term::Uniq(child) => match &**child {
            Term::Cat(r, last) => match &**last {
                Term::Unit(e) => {
                    let first = make_uniq(alloc, copy_boxed_term(alloc, r)?)?;
                    Ok(Some(make_insert(alloc, first, *e)?))
                }
                _ => Ok(None),
            },
            _ => Ok(None),
        },
        _ => Ok(None),
    }
}
