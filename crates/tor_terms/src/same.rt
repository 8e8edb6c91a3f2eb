// Whether terms are identical.
ghost use Rattle.std.specs.Prelude.{◌≡◌};
ghost use Rattle.tor_terms.specs.Plain.{form_of, forms_of, tree_of};
ghost use Rattle.tor_terms.specs.Same as spec;
ghost use Rattle.tor_terms.specs.Truth.{same_operand as same_operand_of};

use crate::compared::same_cell;
use crate::term::{Elem, Formula, Index, Operand, Term, Way};

/// Whether two truth values are the same.
pub fn same_flag(s: bool, t: bool) -> bool
    ensures { result ≡ spec.same_flag s t }
{
    s == t
}

fn same_way(v: Way, w: Way) -> bool
    ensures { result ≡ spec.same_way v w }
{
    match (v, w) {
        (Way::Max, Way::Max) => true,
        (Way::Min, Way::Min) => true,
        _ => false,
    }
}

fn same_index(i: Index, j: Index) -> bool
    ensures { result ≡ spec.same_index i j }
{
    match (i, j) {
        (Index::Zero, Index::Zero) => true,
        (Index::At(i), Index::At(j))
        | (Index::Next(i), Index::Next(j))
        | (Index::Len(i), Index::Len(j)) => i == j,
        _ => false,
    }
}

fn same_elem(d: Elem, e: Elem) -> bool
    ensures { result ≡ spec.same_elem d e }
{
    match (d, e) {
        (Elem::Whole(i), Elem::Whole(j)) => i == j,
        (Elem::Field(i, c), Elem::Field(j, d)) => i == j && c == d,
        _ => false,
    }
}

/// Whether two lists of numbers are the same.
pub fn same_numbers(a: &[u32], b: &[u32]) -> bool
    ensures { result ≡ spec.same_numbers a.now b.now }
{
    match (a.split_first(), b.split_first()) {
        (None, None) => true,
        (Some((x, rest)), Some((y, others))) => *x == *y && same_numbers(rest, others),
        _ => false,
    }
}

/// Whether two operands are identical.
pub fn same_operand(a: &Operand, b: &Operand) -> bool
    ensures { result ≡ same_operand_of a.now b.now }
{
    match (a, b) {
        (Operand::Field(i, c), Operand::Field(j, d)) => *i == *j && *c == *d,
        (Operand::Entry(i), Operand::Entry(j)) => *i == *j,
        (Operand::Lit(x), Operand::Lit(y)) => same_cell(x, y),
        _ => false,
    }
}

/// Whether two formulas are identical.
pub fn same_formula(f: &Formula, g: &Formula) -> bool
    ensures { result ≡ spec.same_form (form_of f.now) (form_of g.now) }
{
    match (f, g) {
        (Formula::Is(i, s), Formula::Is(j, t)) => *i == *j && same_flag(*s, *t),
        (Formula::Both(f, g), Formula::Both(h, i))
        | (Formula::Either(f, g), Formula::Either(h, i)) => {
            same_formula(f, h) && same_formula(g, i)
        }
        _ => false,
    }
}

fn same_formulas(fs: &[Formula], gs: &[Formula]) -> bool
    ensures { result ≡ spec.same_forms (forms_of fs.now) (forms_of gs.now) }
{
    match (fs.split_first(), gs.split_first()) {
        (None, None) => true,
        (Some((f, rest)), Some((g, others))) => same_formula(f, g) && same_formulas(rest, others),
        _ => false,
    }
}

/// Whether two terms are identical.
pub fn same_term(t: &Term, u: &Term) -> bool
    ensures { result ≡ spec.same_tree (tree_of t.now) (tree_of u.now) }
{
    match (t, u) {
        (Term::Nil, Term::Nil) => true,
        (Term::Walk(i), Term::Walk(j)) | (Term::Hold(i), Term::Hold(j)) => *i == *j,
        (Term::Top(i, r), Term::Top(j, s)) => same_index(*i, *j) && same_term(r, s),
        (Term::One(a), Term::One(b)) => same_numbers(a.as_slice(), b.as_slice()),
        (Term::Unit(d), Term::Unit(e)) | (Term::Item(d), Term::Item(e)) => same_elem(*d, *e),
        (Term::Sel(fs, r), Term::Sel(gs, s)) => {
            same_formulas(fs.as_slice(), gs.as_slice()) && same_term(r, s)
        }
        (Term::Proj(d, r), Term::Proj(e, s)) => same_elem(*d, *e) && same_term(r, s),
        (Term::Insert(r, d), Term::Insert(s, e)) => same_term(r, s) && same_elem(*d, *e),
        (Term::Lit(x), Term::Lit(y)) => same_cell(x, y),
        (Term::Uniq(r), Term::Uniq(s))
        | (Term::Count(r), Term::Count(s))
        | (Term::Sum(r), Term::Sum(s))
        | (Term::Any(r), Term::Any(s)) => same_term(r, s),
        (Term::Best(i, r, s), Term::Best(j, v, w)) | (Term::Pick(i, r, s), Term::Pick(j, v, w)) => {
            same_way(*i, *j) && (same_term(r, v) && same_term(s, w))
        }
        (Term::Cat(r, s), Term::Cat(v, w))
        | (Term::Join(r, s), Term::Join(v, w))
        | (Term::Add(r, s), Term::Add(v, w))
        | (Term::Or(r, s), Term::Or(v, w)) => same_term(r, v) && same_term(s, w),
        _ => false,
    }
}
