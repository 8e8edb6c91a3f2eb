// What recorded literals decide.
ghost use Rattle.std.specs.Prelude.{◌≡◌, ◌&&◌, not, Some, slice_get};
ghost use Rattle.tor_terms.specs.Plain.{form_of, forms_of};
ghost use Rattle.tor_axioms.specs.Decide as spec;

use crate::facts::Literal;
use deriv_parts::Known;
use tor_terms::{Atom, Formula, Operand, same_operand};

/// What the shape of an atom says of it.
fn by_shape(a: &Atom) -> Known
    ensures { result ≡ spec.by_shape (Some a.now) }
{
    match a {
        Atom::Less(l, r) => {
            if same_operand(l, r) {
                Known::No
            } else {
                Known::Open
            }
        }
        Atom::Same(l, r) => {
            if same_operand(l, r) {
                Known::Yes
            } else {
                Known::Open
            }
        }
        Atom::Truth(_) => Known::Open,
        Atom::Member(_, _) => Known::Open,
        Atom::Flag(_, _) => Known::Open,
    }
}

fn recorded(facts: &[Literal], atom: u32) -> Known
    ensures { result ≡ spec.recorded facts.now atom }
{
    for fact in facts {
        if fact.atom == atom {
            return if fact.holds { Known::Yes } else { Known::No };
        }
    }
    Known::Open
}

// Whether a literal says that one operand is less than another.
fn says_less(atoms: &[Atom], fact: Literal, a: &Operand, b: &Operand) -> bool
    ensures { result ≡ (fact.holds && spec.is_less (slice_get atoms.now fact.atom) a.now b.now) }
{
    if !fact.holds {
        return false;
    }
    match atoms.get(fact.atom as usize) {
        Some(Atom::Less(c, d)) => same_operand(c, a) && same_operand(d, b),
        _ => false,
    }
}

fn has_less(atoms: &[Atom], facts: &[Literal], a: &Operand, b: &Operand) -> bool
    ensures { result ≡ spec.has_less atoms.now facts.now a.now b.now }
{
    for fact in facts {
        if says_less(atoms, *fact, a, b) {
            return true;
        }
    }
    false
}

fn by_order(atoms: &[Atom], facts: &[Literal], a: &Atom) -> Known
    ensures { result ≡ spec.by_order atoms.now facts.now (Some a.now) }
{
    match a {
        Atom::Less(l, r) => {
            if has_less(atoms, facts, r, l) {
                Known::No
            } else {
                Known::Open
            }
        }
        _ => Known::Open,
    }
}

fn or_else(a: Known, b: Known) -> Known
    ensures { result ≡ spec.or_else a b }
{
    match a {
        Known::Open => b,
        _ => a,
    }
}

/// What the literals say of an atom.
pub fn decide(atoms: &[Atom], facts: &[Literal], atom: u32) -> Known
    ensures { result ≡ spec.decide atoms.now facts.now atom }
{
    match atoms.get(atom as usize) {
        None => Known::No,
        Some(a) => or_else(
            by_shape(a),
            or_else(recorded(facts, atom), by_order(atoms, facts, a)),
        ),
    }
}

fn if_so(holds: bool, k: Known) -> Known
    ensures { result ≡ spec.if_so holds k }
{
    if holds {
        return k;
    }
    match k {
        Known::Yes => Known::No,
        Known::No => Known::Yes,
        Known::Open => Known::Open,
    }
}

fn known_both(a: Known, b: Known) -> Known
    ensures { result ≡ spec.known_both a b }
{
    match (a, b) {
        (Known::No, _) => Known::No,
        (Known::Yes, k) => k,
        (Known::Open, Known::No) => Known::No,
        (Known::Open, _) => Known::Open,
    }
}

fn known_either(a: Known, b: Known) -> Known
    ensures { result ≡ spec.known_either a b }
{
    match (a, b) {
        (Known::Yes, _) => Known::Yes,
        (Known::No, k) => k,
        (Known::Open, Known::Yes) => Known::Yes,
        (Known::Open, _) => Known::Open,
    }
}

/// What the literals say of a formula.
pub fn decide_formula(atoms: &[Atom], facts: &[Literal], f: &Formula) -> Known
    ensures { result ≡ spec.decide_form atoms.now facts.now (form_of f.now) }
{
    match f {
        Formula::Is(k, holds) => if_so(*holds, decide(atoms, facts, *k)),
        Formula::Both(g, h) => known_both(
            decide_formula(atoms, facts, g),
            decide_formula(atoms, facts, h),
        ),
        Formula::Either(g, h) => known_either(
            decide_formula(atoms, facts, g),
            decide_formula(atoms, facts, h),
        ),
    }
}
