// Terms that are entered with their parts.
ghost use Rattle.std.specs.Prelude.{◌≡◌, Some, None, false, true, IfOk, IfSome, OnErr, map, drop, slice_get};
ghost use Rattle.tor_terms.specs.Plain.{tree_of};
ghost use Rattle.term_bank.specs.Banks.{IsFrontOf, entered, has_term, with_term};

use qbs_base::NoMemory;
use std::alloc::Global;
use tor_terms::{Term, copy_term, same_term};

/// The place of a term among others, where it is there.
pub fn find(terms: &[Term], t: &Term) -> Option<usize>
    ensures found { IfSome result (λ n. slice_get (map tree_of terms.now) n ≡ Some (tree_of t.now)) }
    ensures there { IfSome result (λ n. has_term (map tree_of terms.now) (tree_of t.now) ≡ true) }
    ensures missing { result ≡ None → has_term (map tree_of terms.now) (tree_of t.now) ≡ false }
{
    for n in 0..terms.len() {
        if same_term(t, &terms[n]) {
            return Some(n);
        }
    }
    None
}

/// Enters a term that isn't there yet, and gives its place.
fn enter(alloc: Global, terms: &mut Vec<Term>, t: &Term) -> Result<usize, NoMemory>
    ensures with { IfOk result (λ n. map tree_of terms.new.items ≡ entered (map tree_of terms.old.items) (tree_of t.now)) }
    ensures place { IfOk result (λ n. slice_get (map tree_of terms.new.items) n ≡ Some (tree_of t.now)) }
    ensures err { OnErr result (terms.new.items ≡ terms.old.items) }
{
    if let Some(n) = find(terms.as_slice(), t) {
        return Ok(n);
    }
    let copy = copy_term(alloc, t)?;
    let n = terms.len();
    terms.push(copy)?;
    Ok(n)
}

/// Enters a term behind its parts, which are entered from the left to the right, and gives its place. Want of memory may leave parts entered.
pub fn enter_parts(alloc: Global, terms: &mut Vec<Term>, t: &Term) -> Result<usize, NoMemory>
    ensures with { IfOk result (λ n. map tree_of terms.new.items ≡ with_term (map tree_of terms.old.items) (tree_of t.now)) }
    ensures place { IfOk result (λ n. slice_get (map tree_of terms.new.items) n ≡ Some (tree_of t.now)) }
    ensures grows { IsFrontOf (map tree_of terms.old.items) (map tree_of terms.new.items) }
{
    match t {
        Term::Top(_, r)
        | Term::Sel(_, r)
        | Term::Proj(_, r)
        | Term::Uniq(r)
        | Term::Insert(r, _)
        | Term::Count(r)
        | Term::Sum(r)
        | Term::Any(r) => {
            enter_parts(alloc, terms, r)?;
            enter(alloc, terms, t)
        }
        Term::Cat(r, s)
        | Term::Join(r, s)
        | Term::Best(_, r, s)
        | Term::Pick(_, r, s)
        | Term::Add(r, s)
        | Term::Or(r, s) => {
            enter_parts(alloc, terms, r)?;
            enter_parts(alloc, terms, s)?;
            enter(alloc, terms, t)
        }
        Term::Nil
        | Term::Walk(_)
        | Term::One(_)
        | Term::Unit(_)
        | Term::Hold(_)
        | Term::Lit(_)
        | Term::Item(_) => enter(alloc, terms, t),
    }
}
