// The children of a term by their numbers.
ghost use Rattle.std.specs.Prelude.{◌≡◌, IfOk, Some, option_copied, option_map};
ghost use Rattle.tor_terms.specs.Plain.{tree_of};
ghost use Rattle.tor_axioms.specs.Children as spec;
ghost use Rattle.tor_axioms.specs.Paths.{only_child, left_or_right};

use qbs_base::NoMemory;
use std::alloc::Global;
use tor_terms::{Term, copy_boxed_term, copy_formulas};

fn only(k: u32, r: &Term) -> Option<&Term>
    ensures { option_map tree_of (option_copied result) ≡ only_child k (Some (tree_of r.now)) }
{
    if k == 0 { Some(r) } else { None }
}

fn either<'a>(k: u32, r: &'a Term, s: &'a Term) -> Option<&'a Term>
    ensures { option_map tree_of (option_copied result) ≡ left_or_right k (Some (tree_of r.now)) (Some (tree_of s.now)) }
{
    match k {
        0 => Some(r),
        1 => Some(s),
        _ => None,
    }
}

/// The child of a number, where it is there.
pub fn child_at(term: &Term, k: u32) -> Option<&Term>
    ensures { option_map tree_of (option_copied result) ≡ spec.child_at k (tree_of term.now) }
{
    match term {
        Term::Top(_, r) => only(k, r),
        Term::Cat(r, s) => either(k, r, s),
        Term::Join(r, s) => either(k, r, s),
        Term::Sel(_, r) => only(k, r),
        Term::Proj(_, r) => only(k, r),
        Term::Uniq(r) => only(k, r),
        Term::Insert(r, _) => only(k, r),
        Term::Count(r) => only(k, r),
        Term::Sum(r) => only(k, r),
        Term::Any(r) => only(k, r),
        Term::Best(_, v, r) => either(k, v, r),
        Term::Pick(_, v, n) => either(k, v, n),
        Term::Add(a, b) => either(k, a, b),
        Term::Or(a, b) => either(k, a, b),
        _ => None,
    }
}

// A child and a copy of the other one, in their order.
fn both(
    alloc: Global,
    k: u32,
    r: &Term,
    s: &Term,
    x: Box<Term>,
) -> Result<(Box<Term>, Box<Term>), NoMemory>
    ensures first { IfOk result (λ p. tree_of p.0.value ≡ spec.first_or_second k (tree_of x.value) (tree_of r.now)) }
    ensures second { IfOk result (λ p. tree_of p.1.value ≡ spec.first_or_second k (tree_of s.now) (tree_of x.value)) }
{
    if k == 0 {
        let second = copy_boxed_term(alloc, s)?;
        Ok((x, second))
    } else {
        let first = copy_boxed_term(alloc, r)?;
        Ok((first, x))
    }
}

fn with_child(alloc: Global, term: &Term, k: u32, x: Box<Term>) -> Result<Term, NoMemory>
    ensures { IfOk result (λ t. tree_of t ≡ spec.with_child_at k (tree_of term.now) (tree_of x.value)) }
{
    match term {
        Term::Top(index, _) => Ok(Term::Top(*index, x)),
        Term::Cat(r, s) => {
            let (r, s) = both(alloc, k, r, s, x)?;
            Ok(Term::Cat(r, s))
        }
        Term::Join(r, s) => {
            let (r, s) = both(alloc, k, r, s, x)?;
            Ok(Term::Join(r, s))
        }
        Term::Sel(fs, _) => {
            let formulas = copy_formulas(alloc, fs.as_slice())?;
            Ok(Term::Sel(formulas, x))
        }
        Term::Proj(e, _) => Ok(Term::Proj(*e, x)),
        Term::Uniq(_) => Ok(Term::Uniq(x)),
        Term::Insert(_, e) => Ok(Term::Insert(x, *e)),
        Term::Count(_) => Ok(Term::Count(x)),
        Term::Sum(_) => Ok(Term::Sum(x)),
        Term::Any(_) => Ok(Term::Any(x)),
        Term::Best(way, v, r) => {
            let (v, r) = both(alloc, k, v, r, x)?;
            Ok(Term::Best(*way, v, r))
        }
        Term::Pick(way, v, n) => {
            let (v, n) = both(alloc, k, v, n, x)?;
            Ok(Term::Pick(*way, v, n))
        }
        Term::Add(a, b) => {
            let (a, b) = both(alloc, k, a, b, x)?;
            Ok(Term::Add(a, b))
        }
        Term::Or(a, b) => {
            let (a, b) = both(alloc, k, a, b, x)?;
            Ok(Term::Or(a, b))
        }
        _ => Ok(Box::into_inner(x)),
    }
}

/// A copy of a term with another child in the place of the one of a number, which is to be there.
pub fn with_child_at(
    alloc: Global,
    term: &Term,
    k: u32,
    x: Box<Term>,
) -> Result<Box<Term>, NoMemory>
    ensures { IfOk result (λ t. tree_of t.value ≡ spec.with_child_at k (tree_of term.now) (tree_of x.value)) }
{
    let whole = with_child(alloc, term, k, x)?;
    Ok(Box::new(alloc, whole)?)
}
