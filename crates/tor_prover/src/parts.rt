// Terms taken apart, and put together again.
ghost use Rattle.std.specs.Prelude.{◌≡◌, IfOk};
ghost use Rattle.tor_terms.specs.Plain.{tree_of};
ghost use Rattle.tor_prover.specs.Normal as spec;
ghost use Rattle.tor_prover.specs.Seen as seen;
ghost use Rattle.tor_prover.specs.Seen.{parts_of};

use qbs_base::NoMemory;
use std::alloc::Global;
use tor_terms::{Elem, Formulas, Index, Term, Way};

/// The head of a term with one child.
#[derive(Drop)]
pub enum OneHead {
    Top(Index),
    Sel(Formulas),
    Proj(Elem),
    Uniq,
    Insert(Elem),
    Count,
    Sum,
    Any,
}

/// The head of a term with two children.
#[derive(Drop)]
pub enum TwoHead {
    Cat,
    Join,
    Best(Way),
    Pick(Way),
    Add,
    Or,
}

/// A term's head and children.
#[derive(Drop)]
pub enum Parts {
    NoChild(Term),
    OneChild(OneHead, Box<Term>),
    TwoChildren(TwoHead, Box<Term>, Box<Term>),
}

/// Takes a term apart.
pub fn take_apart(t: Box<Term>) -> Parts
    ensures { parts_of result ≡ spec.parts (tree_of t.value) }
{
    match Box::into_inner(t) {
        Term::Top(index, r) => Parts::OneChild(OneHead::Top(index), r),
        Term::Sel(fs, r) => Parts::OneChild(OneHead::Sel(fs), r),
        Term::Proj(e, r) => Parts::OneChild(OneHead::Proj(e), r),
        Term::Uniq(r) => Parts::OneChild(OneHead::Uniq, r),
        Term::Insert(r, e) => Parts::OneChild(OneHead::Insert(e), r),
        Term::Count(r) => Parts::OneChild(OneHead::Count, r),
        Term::Sum(r) => Parts::OneChild(OneHead::Sum, r),
        Term::Any(r) => Parts::OneChild(OneHead::Any, r),
        Term::Cat(r, s) => Parts::TwoChildren(TwoHead::Cat, r, s),
        Term::Join(r, s) => Parts::TwoChildren(TwoHead::Join, r, s),
        Term::Best(way, v, r) => Parts::TwoChildren(TwoHead::Best(way), v, r),
        Term::Pick(way, v, n) => Parts::TwoChildren(TwoHead::Pick(way), v, n),
        Term::Add(a, b) => Parts::TwoChildren(TwoHead::Add, a, b),
        Term::Or(a, b) => Parts::TwoChildren(TwoHead::Or, a, b),
        Term::Nil => Parts::NoChild(Term::Nil),
        Term::Walk(j) => Parts::NoChild(Term::Walk(j)),
        Term::One(loops) => Parts::NoChild(Term::One(loops)),
        Term::Unit(e) => Parts::NoChild(Term::Unit(e)),
        Term::Hold(n) => Parts::NoChild(Term::Hold(n)),
        Term::Lit(x) => Parts::NoChild(Term::Lit(x)),
        Term::Item(e) => Parts::NoChild(Term::Item(e)),
    }
}

fn around_one(head: OneHead, child: Box<Term>) -> Term
    ensures { tree_of result ≡ seen.around_one head (tree_of child.value) }
{
    match head {
        OneHead::Top(index) => Term::Top(index, child),
        OneHead::Sel(fs) => Term::Sel(fs, child),
        OneHead::Proj(e) => Term::Proj(e, child),
        OneHead::Uniq => Term::Uniq(child),
        OneHead::Insert(e) => Term::Insert(child, e),
        OneHead::Count => Term::Count(child),
        OneHead::Sum => Term::Sum(child),
        OneHead::Any => Term::Any(child),
    }
}

fn around_two(head: TwoHead, first: Box<Term>, second: Box<Term>) -> Term
    ensures { tree_of result ≡ seen.around_two head (tree_of first.value) (tree_of second.value) }
{
    match head {
        TwoHead::Cat => Term::Cat(first, second),
        TwoHead::Join => Term::Join(first, second),
        TwoHead::Best(way) => Term::Best(way, first, second),
        TwoHead::Pick(way) => Term::Pick(way, first, second),
        TwoHead::Add => Term::Add(first, second),
        TwoHead::Or => Term::Or(first, second),
    }
}

/// The term with this head and child.
pub fn make_one(alloc: Global, head: OneHead, child: Box<Term>) -> Result<Box<Term>, NoMemory>
    ensures { IfOk result (λ t. tree_of t.value ≡ seen.around_one head (tree_of child.value)) }
{
    let term = around_one(head, child);
    Ok(Box::new(alloc, term)?)
}

/// The term with this head and children.
pub fn make_two(
    alloc: Global,
    head: TwoHead,
    first: Box<Term>,
    second: Box<Term>,
) -> Result<Box<Term>, NoMemory>
    ensures { IfOk result (λ t. tree_of t.value ≡ seen.around_two head (tree_of first.value) (tree_of second.value)) }
{
    let term = around_two(head, first, second);
    Ok(Box::new(alloc, term)?)
}
