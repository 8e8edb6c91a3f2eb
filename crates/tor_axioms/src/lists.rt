// Rules on lists of tuples: what is taken of a list, lists one after the other, and products.
ghost use Rattle.std.specs.Prelude.{◌≡◌, IfOk, option_map};
ghost use Rattle.tor_terms.specs.Plain.{tree_of};
ghost use Rattle.tor_axioms.specs.Rules as spec;

use crate::make::{make_cat, make_join, make_one, make_top};
use qbs_base::NoMemory;
use std::alloc::Global;
use tor_terms::{Index, Term, copy_boxed_term, next_of};

/// `Top(Zero, r)` is `Nil`.
pub fn top_zero(t: &Term) -> Option<Term>
    ensures { option_map tree_of result ≡ spec.top_zero (tree_of t.now) }
{
    match t {
        Term::Top(Index::Zero, _) => Some(Term::Nil),
        _ => None,
    }
}

/// `Top(Next(j), Walk(j))` is `Cat(Top(At(j), Walk(j)), One([j]))`.
pub fn top_next(alloc: Global, t: &Term) -> Result<Option<Box<Term>>, NoMemory>
    ensures { IfOk result (λ o. option_map (λ u. tree_of u.value) o ≡ spec.top_next (tree_of t.now)) }
{
    match t {
        Term::Top(index, r) => match next_of(*index) {
            Some(j) => match &**r {
                Term::Walk(k) => {
                    if j == *k {
                        let walk = Box::new(alloc, Term::Walk(j))?;
                        let before = make_top(alloc, Index::At(j), walk)?;
                        let current = make_one(alloc, &[j], &[])?;
                        Ok(Some(make_cat(alloc, before, current)?))
                    } else {
                        Ok(None)
                    }
                }
                _ => Ok(None),
            },
            None => Ok(None),
        },
        _ => Ok(None),
    }
}

/// `Top(Len(j), Walk(j))` is `Walk(j)`.
pub fn top_len(t: &Term) -> Option<Term>
    ensures { option_map tree_of result ≡ spec.top_len (tree_of t.now) }
{
    match t {
        Term::Top(Index::Len(j), r) => match &**r {
            Term::Walk(k) => { if *j == *k { Some(Term::Walk(*j)) } else { None } }
            _ => None,
        },
        _ => None,
    }
}

/// `Cat(Nil, r)` is `r`.
pub fn cat_nil_left(alloc: Global, t: &Term) -> Result<Option<Box<Term>>, NoMemory>
    ensures { IfOk result (λ o. option_map (λ u. tree_of u.value) o ≡ spec.cat_nil_left (tree_of t.now)) }
{
    match t {
        Term::Cat(first, r) => match &**first {
            Term::Nil => Ok(Some(copy_boxed_term(alloc, r)?)),
            _ => Ok(None),
        },
        _ => Ok(None),
    }
}

/// `Cat(r, Nil)` is `r`.
pub fn cat_nil_right(alloc: Global, t: &Term) -> Result<Option<Box<Term>>, NoMemory>
    ensures { IfOk result (λ o. option_map (λ u. tree_of u.value) o ≡ spec.cat_nil_right (tree_of t.now)) }
{
    match t {
        Term::Cat(r, second) => match &**second {
            Term::Nil => Ok(Some(copy_boxed_term(alloc, r)?)),
            _ => Ok(None),
        },
        _ => Ok(None),
    }
}

/// `Cat(Cat(r, s), t)` is `Cat(r, Cat(s, t))`.
pub fn cat_cat(alloc: Global, t: &Term) -> Result<Option<Box<Term>>, NoMemory>
    ensures { IfOk result (λ o. option_map (λ u. tree_of u.value) o ≡ spec.cat_cat (tree_of t.now)) }
{
    match t {
        Term::Cat(first, last) => match &**first {
            Term::Cat(r, s) => {
                let rest = make_cat(
                    alloc,
                    copy_boxed_term(alloc, s)?,
                    copy_boxed_term(alloc, last)?,
                )?;
                Ok(Some(make_cat(alloc, copy_boxed_term(alloc, r)?, rest)?))
            }
            _ => Ok(None),
        },
        _ => Ok(None),
    }
}

/// `Join(Nil, r)` is `Nil`.
pub fn join_nil_left(t: &Term) -> Option<Term>
    ensures { option_map tree_of result ≡ spec.join_nil_left (tree_of t.now) }
{
    match t {
        Term::Join(first, _) => match &**first {
            Term::Nil => Some(Term::Nil),
            _ => None,
        },
        _ => None,
    }
}

/// `Join(r, Nil)` is `Nil`.
pub fn join_nil_right(t: &Term) -> Option<Term>
    ensures { option_map tree_of result ≡ spec.join_nil_right (tree_of t.now) }
{
    match t {
        Term::Join(_, second) => match &**second {
            Term::Nil => Some(Term::Nil),
            _ => None,
        },
        _ => None,
    }
}

/// `Join(Cat(r, s), t)` is `Cat(Join(r, t), Join(s, t))`.
pub fn join_cat_left(alloc: Global, t: &Term) -> Result<Option<Box<Term>>, NoMemory>
    ensures { IfOk result (λ o. option_map (λ u. tree_of u.value) o ≡ spec.join_cat_left (tree_of t.now)) }
{
    match t {
        Term::Join(first, last) => match &**first {
            Term::Cat(r, s) => {
                let left = make_join(
                    alloc,
                    copy_boxed_term(alloc, r)?,
                    copy_boxed_term(alloc, last)?,
                )?;
                let right = make_join(
                    alloc,
                    copy_boxed_term(alloc, s)?,
                    copy_boxed_term(alloc, last)?,
                )?;
                Ok(Some(make_cat(alloc, left, right)?))
            }
            _ => Ok(None),
        },
        _ => Ok(None),
    }
}

/// `Join(One(a), Cat(r, s))` is `Cat(Join(One(a), r), Join(One(a), s))`.
pub fn join_cat_right(alloc: Global, t: &Term) -> Result<Option<Box<Term>>, NoMemory>
    ensures { IfOk result (λ o. option_map (λ u. tree_of u.value) o ≡ spec.join_cat_right (tree_of t.now)) }
{
    match t {
        Term::Join(first, second) => match (&**first, &**second) {
            (Term::One(a), Term::Cat(r, s)) => {
                let one = a.as_slice();
                let left = make_join(
                    alloc,
                    make_one(alloc, one, &[])?,
                    copy_boxed_term(alloc, r)?,
                )?;
                let right = make_join(
                    alloc,
                    make_one(alloc, one, &[])?,
                    copy_boxed_term(alloc, s)?,
                )?;
                Ok(Some(make_cat(alloc, left, right)?))
            }
            _ => Ok(None),
        },
        _ => Ok(None),
    }
}

/// `Join(One(a), One(b))` is `One` of the loops of a and then of b.
pub fn join_ones(alloc: Global, t: &Term) -> Result<Option<Box<Term>>, NoMemory>
    ensures { IfOk result (λ o. option_map (λ u. tree_of u.value) o ≡ spec.join_ones (tree_of t.now)) }
{
    match t {
        Term::Join(first, second) => match (&**first, &**second) {
            (Term::One(a), Term::One(b)) => {
                Ok(Some(make_one(alloc, a.as_slice(), b.as_slice())?))
            }
            _ => Ok(None),
        },
        _ => Ok(None),
    }
}

/// `Join(One(a), Join(One(b), r))` is `Join(One(c), r)`, c the loops of a and then of b.
pub fn join_one_join(alloc: Global, t: &Term) -> Result<Option<Box<Term>>, NoMemory>
    ensures { IfOk result (λ o. option_map (λ u. tree_of u.value) o ≡ spec.join_one_join (tree_of t.now)) }
{
    match t {
        Term::Join(first, second) => match (&**first, &**second) {
            (Term::One(a), Term::Join(inner, r)) => match &**inner {
                Term::One(b) => {
                    let both = make_one(alloc, a.as_slice(), b.as_slice())?;
                    Ok(Some(make_join(alloc, both, copy_boxed_term(alloc, r)?)?))
                }
                _ => Ok(None),
            },
            _ => Ok(None),
        },
        _ => Ok(None),
    }
}
