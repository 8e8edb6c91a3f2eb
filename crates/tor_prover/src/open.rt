// The open atom that a term meets.
ghost use Rattle.std.specs.Prelude.{◌≡◌};
ghost use Rattle.tor_terms.specs.Plain.{form_of, forms_of, tree_of};
ghost use Rattle.tor_prover.specs.Normal as spec;

use tor_axioms::{Facts, Known, Literal, all_yes, decide, decide_formula, some_no};
use tor_terms::{Atom, Atoms, Formula, Term};

fn first_some(a: Option<u32>, b: Option<u32>) -> Option<u32>
    ensures { result ≡ spec.first_some a b }
{
    match a {
        Some(k) => Some(k),
        None => b,
    }
}

/// The first open atom of a formula.
fn open_atom(atoms: &[Atom], facts: &[Literal], f: &Formula) -> Option<u32>
    ensures { result ≡ spec.open_atom atoms.now facts.now (form_of f.now) }
{
    match f {
        Formula::Is(k, _) => match decide(atoms, facts, *k) {
            Known::Open => Some(*k),
            _ => None,
        },
        Formula::Both(g, h) => first_some(open_atom(atoms, facts, g), open_atom(atoms, facts, h)),
        Formula::Either(g, h) => first_some(open_atom(atoms, facts, g), open_atom(atoms, facts, h)),
    }
}

/// The first open atom of the first open formula.
fn first_open(atoms: &[Atom], facts: &[Literal], fs: &[Formula]) -> Option<u32>
    ensures { result ≡ spec.first_open atoms.now facts.now (forms_of fs.now) }
{
    for f in fs {
        if let Known::Open = decide_formula(atoms, facts, f) {
            return open_atom(atoms, facts, f);
        }
    }
    None
}

fn met_in(atoms: &[Atom], facts: &[Literal], t: &Term) -> Option<u32>
    ensures { result ≡ spec.met atoms.now facts.now (tree_of t.now) }
{
    match t {
        Term::Sel(fs, r) => match &**r {
            Term::One(_) => {
                if some_no(atoms, facts, fs.as_slice()) || all_yes(atoms, facts, fs.as_slice()) {
                    None
                } else {
                    first_open(atoms, facts, fs.as_slice())
                }
            }
            _ => None,
        },
        _ => None,
    }
}

/// The open atom that a term meets at its head: it is the selection of one tuple, no formula is
/// decided to be false, and not all are decided to be true.
pub fn met(atoms: &Atoms, facts: &Facts, t: &Term) -> Option<u32>
    ensures { result ≡ spec.met atoms.now facts.now (tree_of t.now) }
{
    met_in(atoms.as_slice(), facts.as_slice(), t)
}
