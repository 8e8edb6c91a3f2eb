// Rules on selections.
ghost use Rattle.std.specs.Prelude.{◌≡◌, IfOk, option_map};
ghost use Rattle.tor_terms.specs.Plain as plain;
ghost use Rattle.tor_terms.specs.Plain.{forms_of, tree_of};
ghost use Rattle.tor_axioms.specs.Rules as spec;

use crate::facts::Literal;
use crate::make::{make_cat, make_join, make_one, make_sel};
use crate::select::{all_yes, some_no, some_no_within, without_yes};
use qbs_base::NoMemory;
use std::alloc::Global;
use tor_terms::{Atom, Formulas, Term, copy_boxed_term};

/// `Sel([], r)` is `r`.
pub fn sel_none(alloc: Global, t: &Term) -> Result<Option<Box<Term>>, NoMemory>
    ensures { IfOk result (λ o. option_map (λ u. tree_of u.value) o ≡ spec.sel_none (tree_of t.now)) }
{
    match t {
        Term::Sel(fs, r) => {
            if fs.as_slice().is_empty() {
                Ok(Some(copy_boxed_term(alloc, r)?))
            } else {
                Ok(None)
            }
        }
        _ => Ok(None),
    }
}

/// `Sel(fs, Nil)` is `Nil`.
pub fn sel_nil(t: &Term) -> Option<Term>
    ensures { option_map tree_of result ≡ spec.sel_nil (tree_of t.now) }
{
    match t {
        Term::Sel(_, r) => match &**r {
            Term::Nil => Some(Term::Nil),
            _ => None,
        },
        _ => None,
    }
}

/// `Sel(fs, Cat(r, s))` is `Cat(Sel(fs, r), Sel(fs, s))`.
pub fn sel_cat(alloc: Global, t: &Term) -> Result<Option<Box<Term>>, NoMemory>
    ensures { IfOk result (λ o. option_map (λ u. tree_of u.value) o ≡ spec.sel_cat (tree_of t.now)) }
{
    match t {
        Term::Sel(fs, child) => match &**child {
            Term::Cat(r, s) => {
                let formulas = fs.as_slice();
                let left = make_sel(alloc, formulas, copy_boxed_term(alloc, r)?)?;
                let right = make_sel(alloc, formulas, copy_boxed_term(alloc, s)?)?;
                Ok(Some(make_cat(alloc, left, right)?))
            }
            _ => Ok(None),
        },
        _ => Ok(None),
    }
}

/// `Sel(fs, One(a))` is `Nil`, where some formula is decided to be false.
pub fn sel_no(t: &Term, atoms: &[Atom], facts: &[Literal]) -> Option<Term>
    ensures { option_map tree_of result ≡ spec.sel_no atoms.now facts.now (tree_of t.now) }
{
    match t {
        Term::Sel(fs, r) => match &**r {
            Term::One(_) => {
                if some_no(atoms, facts, fs.as_slice()) {
                    Some(Term::Nil)
                } else {
                    None
                }
            }
            _ => None,
        },
        _ => None,
    }
}

/// `Sel(fs, One(a))` is `One(a)`, where all formulas are decided to be true.
pub fn sel_yes(
    alloc: Global,
    t: &Term,
    atoms: &[Atom],
    facts: &[Literal],
) -> Result<Option<Box<Term>>, NoMemory>
    ensures { IfOk result (λ o. option_map (λ u. tree_of u.value) o ≡ spec.sel_yes atoms.now facts.now (tree_of t.now)) }
{
    match t {
        Term::Sel(fs, r) => match &**r {
            Term::One(a) => {
                if all_yes(atoms, facts, fs.as_slice()) {
                    Ok(Some(make_one(alloc, a.as_slice(), &[])?))
                } else {
                    Ok(None)
                }
            }
            _ => Ok(None),
        },
        _ => Ok(None),
    }
}

/// `Sel(fs, Join(One(a), r))` is `Nil`, where some formula whose loops are all in a is decided to
/// be false.
pub fn sel_join_no(t: &Term, atoms: &[Atom], facts: &[Literal]) -> Option<Term>
    ensures { option_map tree_of result ≡ spec.sel_join_no atoms.now facts.now (tree_of t.now) }
{
    match t {
        Term::Sel(fs, child) => match &**child {
            Term::Join(first, _) => match &**first {
                Term::One(a) => {
                    if some_no_within(atoms, facts, a.as_slice(), fs.as_slice()) {
                        Some(Term::Nil)
                    } else {
                        None
                    }
                }
                _ => None,
            },
            _ => None,
        },
        _ => None,
    }
}

// `Sel(fs, Join(One(a), r))`, with a copy of r.
fn sel_join(alloc: Global, fs: Formulas, a: &[u32], r: &Term) -> Result<Box<Term>, NoMemory>
    ensures { IfOk result (λ t. tree_of t.value ≡ plain.Sel (forms_of fs) (plain.Join (plain.One a.now) (tree_of r.now))) }
{
    let one = make_one(alloc, a, &[])?;
    let joined = make_join(alloc, one, copy_boxed_term(alloc, r)?)?;
    Ok(Box::new(alloc, Term::Sel(fs, joined))?)
}

/// `Sel(fs, Join(One(a), r))` loses its first formula whose loops are all in a and that is decided
/// to be true, where there is one.
pub fn sel_join_yes(
    alloc: Global,
    t: &Term,
    atoms: &[Atom],
    facts: &[Literal],
) -> Result<Option<Box<Term>>, NoMemory>
    ensures { IfOk result (λ o. option_map (λ u. tree_of u.value) o ≡ spec.sel_join_yes atoms.now facts.now (tree_of t.now)) }
{
    match t {
        Term::Sel(fs, child) => match &**child {
            Term::Join(first, r) => match &**first {
                Term::One(a) => {
                    match without_yes(alloc, atoms, facts, a.as_slice(), fs.as_slice())? {
                        Some(rest) => Ok(Some(sel_join(alloc, rest, a.as_slice(), r)?)),
                        None => Ok(None),
                    }
                }
                _ => Ok(None),
            },
            _ => Ok(None),
        },
        _ => Ok(None),
    }
}
