// Copies of terms, formulas and atoms. Each arm owns boxes alone where memory may run out.
ghost use Rattle.std.specs.Prelude.{◌≡◌, if◌then◌else◌, IfOk};
ghost use Rattle.tor_terms.specs.declared.term.Atom.TheVariants as atoms;
ghost use Rattle.tor_terms.specs.Plain.{form_of, forms_of, tree_of};
ghost use Rattle.tor_terms.specs.Parts.{over_tree, over_trees};

use crate::term::{Atom, Atoms, Formula, Formulas, Operand, Term};
use qbs_base::{Items, NoMemory};
use std::alloc::Global;

/// A copy of a formula. None only where memory runs out.
#[cycle(copy_formula)]
pub fn copy_formula(alloc: Global, f: &Formula) -> Result<Formula, NoMemory>
    ensures { IfOk result (λ copy. form_of copy ≡ form_of f.now) }
{
    match f {
        Formula::Is(atom, holds) => Ok(Formula::Is(*atom, *holds)),
        Formula::Both(g, h) => {
            let first = copy_boxed_formula(alloc, g)?;
            let second = copy_boxed_formula(alloc, h)?;
            Ok(Formula::Both(first, second))
        }
        Formula::Either(g, h) => {
            let first = copy_boxed_formula(alloc, g)?;
            let second = copy_boxed_formula(alloc, h)?;
            Ok(Formula::Either(first, second))
        }
    }
}

/// A copy of a formula, in a box of its own.
#[cycle(copy_formula)]
fn copy_boxed_formula(alloc: Global, f: &Formula) -> Result<Box<Formula>, NoMemory>
    ensures { IfOk result (λ copy. form_of copy.value ≡ form_of f.now) }
{
    let copy = copy_formula(alloc, f)?;
    Ok(Box::new(alloc, copy)?)
}

/// A copy of formulas, in their order.
pub fn copy_formulas(alloc: Global, fs: &[Formula]) -> Result<Formulas, NoMemory>
    ensures { IfOk result (λ copies. forms_of copies ≡ forms_of fs.now) }
{
    let mut copies = Items::new(alloc);
    for f in fs {
        let copy = copy_formula(alloc, f)?;
        copies.push(copy)?;
    }
    Ok(copies)
}

/// A copy of a term.
#[cycle(copy_term)]
pub fn copy_term(alloc: Global, t: &Term) -> Result<Term, NoMemory>
    ensures { IfOk result (λ copy. tree_of copy ≡ tree_of t.now) }
{
    match t {
        Term::Nil => Ok(Term::Nil),
        Term::Walk(j) => Ok(Term::Walk(*j)),
        Term::One(loops) => Ok(Term::One(loops.clone()?)),
        Term::Unit(e) => Ok(Term::Unit(*e)),
        Term::Sel(fs, r) => {
            let formulas = copy_formulas(alloc, fs.as_slice())?;
            let child = copy_boxed_term(alloc, r)?;
            Ok(Term::Sel(formulas, child))
        }
        Term::Hold(n) => Ok(Term::Hold(*n)),
        Term::Lit(x) => Ok(Term::Lit(x.clone()?)),
        Term::Item(e) => Ok(Term::Item(*e)),
        Term::Top(_, r)
        | Term::Proj(_, r)
        | Term::Uniq(r)
        | Term::Insert(r, _)
        | Term::Count(r)
        | Term::Sum(r)
        | Term::Any(r) => Ok(over_child(t, copy_boxed_term(alloc, r)?)),
        Term::Cat(r, s)
        | Term::Join(r, s)
        | Term::Best(_, r, s)
        | Term::Pick(_, r, s)
        | Term::Add(r, s)
        | Term::Or(r, s) => {
            let first = copy_boxed_term(alloc, r)?;
            let second = copy_boxed_term(alloc, s)?;
            Ok(over_children(t, first, second))
        }
    }
}

// A term as another with one child alone, over this child.
fn over_child(t: &Term, child: Box<Term>) -> Term
    ensures { tree_of result ≡ over_tree (tree_of t.now) (tree_of child.value) }
{
    match t {
        Term::Top(index, _) => Term::Top(*index, child),
        Term::Proj(e, _) => Term::Proj(*e, child),
        Term::Uniq(_) => Term::Uniq(child),
        Term::Insert(_, e) => Term::Insert(child, *e),
        Term::Count(_) => Term::Count(child),
        Term::Sum(_) => Term::Sum(child),
        _ => Term::Any(child),
    }
}

// A term as another with two children, over these.
fn over_children(t: &Term, first: Box<Term>, second: Box<Term>) -> Term
    ensures { tree_of result ≡ over_trees (tree_of t.now) (tree_of first.value) (tree_of second.value) }
{
    match t {
        Term::Cat(_, _) => Term::Cat(first, second),
        Term::Join(_, _) => Term::Join(first, second),
        Term::Best(way, _, _) => Term::Best(*way, first, second),
        Term::Pick(way, _, _) => Term::Pick(*way, first, second),
        Term::Add(_, _) => Term::Add(first, second),
        _ => Term::Or(first, second),
    }
}

/// A copy of a term, in a box of its own.
#[cycle(copy_term)]
pub fn copy_boxed_term(alloc: Global, t: &Term) -> Result<Box<Term>, NoMemory>
    ensures { IfOk result (λ copy. tree_of copy.value ≡ tree_of t.now) }
{
    let copy = copy_term(alloc, t)?;
    Ok(Box::new(alloc, copy)?)
}

/// A copy of an operand.
pub fn copy_operand(operand: &Operand) -> Result<Operand, NoMemory>
    ensures { IfOk result (λ copy. copy ≡ operand.now) }
{
    match operand {
        Operand::Field(j, c) => Ok(Operand::Field(*j, *c)),
        Operand::Entry(k) => Ok(Operand::Entry(*k)),
        Operand::Lit(x) => Ok(Operand::Lit(x.clone()?)),
    }
}

// The test of a copy of two operands: whether they are the same, or the first is less.
fn copy_pair(same: bool, a: &Operand, b: &Operand) -> Result<Atom, NoMemory>
    ensures { IfOk result (λ copy. copy ≡ (if same then atoms.Same a.now b.now else atoms.Less a.now b.now)) }
{
    let first = copy_operand(a)?;
    let second = copy_operand(b)?;
    Ok(if same {
        Atom::Same(first, second)
    } else {
        Atom::Less(first, second)
    })
}

/// A copy of an atom.
pub fn copy_atom(atom: &Atom) -> Result<Atom, NoMemory>
    ensures { IfOk result (λ copy. copy ≡ atom.now) }
{
    match atom {
        Atom::Less(a, b) => copy_pair(false, a, b),
        Atom::Same(a, b) => copy_pair(true, a, b),
        Atom::Truth(a) => Ok(Atom::Truth(copy_operand(a)?)),
        Atom::Member(a, q) => Ok(Atom::Member(copy_operand(a)?, *q)),
        Atom::Flag(k, loops) => Ok(Atom::Flag(*k, loops.clone()?)),
    }
}

/// A copy of atoms, in their order.
pub fn copy_atoms(alloc: Global, atoms: &[Atom]) -> Result<Atoms, NoMemory>
    ensures { IfOk result (λ copies. copies ≡ atoms.now) }
{
    let mut copies = Items::new(alloc);
    for atom in atoms {
        let copy = copy_atom(atom)?;
        copies.push(copy)?;
    }
    Ok(copies)
}
