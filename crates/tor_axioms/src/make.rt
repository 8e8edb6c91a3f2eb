// Terms made of terms, each in a box of its own.
ghost use Rattle.std.specs.Prelude.{◌≡◌, ◌++◌, pos, IfOk};
ghost use Rattle.qbs_base.specs.declared.scalar.Scalar.TheVariants as scalars;
ghost use Rattle.tor_terms.specs.Plain as plain;
ghost use Rattle.tor_terms.specs.Plain.{forms_of, tree_of};

use qbs_base::{Items, NoMemory, Scalar};
use std::alloc::Global;
use tor_terms::{Elem, Formula, Index, Term, Way, copy_formulas};

/// `Cat` of two terms.
pub fn make_cat(alloc: Global, first: Box<Term>, second: Box<Term>) -> Result<Box<Term>, NoMemory>
    ensures { IfOk result (λ t. tree_of t.value ≡ plain.Cat (tree_of first.value) (tree_of second.value)) }
{
    Ok(Box::new(alloc, Term::Cat(first, second))?)
}

/// `Join` of two terms.
pub fn make_join(alloc: Global, first: Box<Term>, second: Box<Term>) -> Result<Box<Term>, NoMemory>
    ensures { IfOk result (λ t. tree_of t.value ≡ plain.Join (tree_of first.value) (tree_of second.value)) }
{
    Ok(Box::new(alloc, Term::Join(first, second))?)
}

/// `Add` of two terms.
pub fn make_add(alloc: Global, first: Box<Term>, second: Box<Term>) -> Result<Box<Term>, NoMemory>
    ensures { IfOk result (λ t. tree_of t.value ≡ plain.Add (tree_of first.value) (tree_of second.value)) }
{
    Ok(Box::new(alloc, Term::Add(first, second))?)
}

/// `Or` of two terms.
pub fn make_or(alloc: Global, first: Box<Term>, second: Box<Term>) -> Result<Box<Term>, NoMemory>
    ensures { IfOk result (λ t. tree_of t.value ≡ plain.Or (tree_of first.value) (tree_of second.value)) }
{
    Ok(Box::new(alloc, Term::Or(first, second))?)
}

/// `Best` of two terms.
pub fn make_best(
    alloc: Global,
    way: Way,
    first: Box<Term>,
    second: Box<Term>,
) -> Result<Box<Term>, NoMemory>
    ensures { IfOk result (λ t. tree_of t.value ≡ plain.Best way (tree_of first.value) (tree_of second.value)) }
{
    Ok(Box::new(alloc, Term::Best(way, first, second))?)
}

/// `Pick` of two terms.
pub fn make_pick(
    alloc: Global,
    way: Way,
    first: Box<Term>,
    second: Box<Term>,
) -> Result<Box<Term>, NoMemory>
    ensures { IfOk result (λ t. tree_of t.value ≡ plain.Pick way (tree_of first.value) (tree_of second.value)) }
{
    Ok(Box::new(alloc, Term::Pick(way, first, second))?)
}

/// `Uniq` of a term.
pub fn make_uniq(alloc: Global, child: Box<Term>) -> Result<Box<Term>, NoMemory>
    ensures { IfOk result (λ t. tree_of t.value ≡ plain.Uniq (tree_of child.value)) }
{
    Ok(Box::new(alloc, Term::Uniq(child))?)
}

/// `Count` of a term.
pub fn make_count(alloc: Global, child: Box<Term>) -> Result<Box<Term>, NoMemory>
    ensures { IfOk result (λ t. tree_of t.value ≡ plain.Count (tree_of child.value)) }
{
    Ok(Box::new(alloc, Term::Count(child))?)
}

/// `Sum` of a term.
pub fn make_sum(alloc: Global, child: Box<Term>) -> Result<Box<Term>, NoMemory>
    ensures { IfOk result (λ t. tree_of t.value ≡ plain.Sum (tree_of child.value)) }
{
    Ok(Box::new(alloc, Term::Sum(child))?)
}

/// `Any` of a term.
pub fn make_any(alloc: Global, child: Box<Term>) -> Result<Box<Term>, NoMemory>
    ensures { IfOk result (λ t. tree_of t.value ≡ plain.Any (tree_of child.value)) }
{
    Ok(Box::new(alloc, Term::Any(child))?)
}

/// `Top` of a term.
pub fn make_top(alloc: Global, index: Index, child: Box<Term>) -> Result<Box<Term>, NoMemory>
    ensures { IfOk result (λ t. tree_of t.value ≡ plain.Top index (tree_of child.value)) }
{
    Ok(Box::new(alloc, Term::Top(index, child))?)
}

/// `Proj` of a term.
pub fn make_proj(alloc: Global, e: Elem, child: Box<Term>) -> Result<Box<Term>, NoMemory>
    ensures { IfOk result (λ t. tree_of t.value ≡ plain.Proj e (tree_of child.value)) }
{
    Ok(Box::new(alloc, Term::Proj(e, child))?)
}

/// `Insert` of a term.
pub fn make_insert(alloc: Global, child: Box<Term>, e: Elem) -> Result<Box<Term>, NoMemory>
    ensures { IfOk result (λ t. tree_of t.value ≡ plain.Insert (tree_of child.value) e) }
{
    Ok(Box::new(alloc, Term::Insert(child, e))?)
}

/// `Sel` of a term, with copies of formulas.
pub fn make_sel(alloc: Global, fs: &[Formula], child: Box<Term>) -> Result<Box<Term>, NoMemory>
    ensures { IfOk result (λ t. tree_of t.value ≡ plain.Sel (forms_of fs.now) (tree_of child.value)) }
{
    let formulas = copy_formulas(alloc, fs)?;
    Ok(Box::new(alloc, Term::Sel(formulas, child))?)
}

/// `One` of the loops of two lists.
pub fn make_one(alloc: Global, a: &[u32], b: &[u32]) -> Result<Box<Term>, NoMemory>
    ensures { IfOk result (λ t. tree_of t.value ≡ plain.One (a.now ++ b.now)) }
{
    let mut loops = a.to_vec(alloc)?;
    loops.extend_from_slice(b)?;
    Ok(Box::new(alloc, Term::One(Items::from_vec(loops)))?)
}

/// A literal number.
pub fn make_number(n: i64) -> Term
    ensures { tree_of result ≡ plain.Lit (scalars.Long n) }
{
    Term::Lit(Scalar::Long(n))
}

/// A literal truth value.
pub fn make_truth(b: bool) -> Term
    ensures { tree_of result ≡ plain.Lit (scalars.Bool b) }
{
    Term::Lit(Scalar::Bool(b))
}
