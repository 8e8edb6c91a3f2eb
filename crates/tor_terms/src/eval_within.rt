// Whether the atoms of formulas are there, and their loops among given ones.
ghost use Rattle.std.specs.Prelude.{◌≡◌, take};
ghost use Rattle.tor_terms.specs.Plain.{form_of};
ghost use Rattle.tor_terms.specs.Truth as spec;

use crate::{Atom, Formula, Operand};

/// Whether a loop is among these.
pub fn has_loop(loops: &[u32], j: u32) -> bool
    ensures { result ≡ spec.has_loop loops.now j }
{
    for k in loops {
        if *k == j {
            return true;
        }
    }
    false
}

/// Whether all of the second are among the first.
pub fn has_loops(loops: &[u32], own: &[u32]) -> bool
    ensures { result ≡ spec.has_loops loops.now own.now }
{
    for j in own {
        if !has_loop(loops, *j) {
            return false;
        }
    }
    true
}

fn operand_within(loops: &[u32], a: &Operand) -> bool
    ensures { result ≡ spec.operand_within loops.now a.now }
{
    match a {
        Operand::Field(j, _) => has_loop(loops, *j),
        Operand::Entry(_) => true,
        Operand::Lit(_) => true,
    }
}

fn atom_within(loops: &[u32], a: &Atom) -> bool
    ensures { result ≡ spec.atom_within loops.now a.now }
{
    match a {
        Atom::Less(x, y) => operand_within(loops, x) && operand_within(loops, y),
        Atom::Same(x, y) => operand_within(loops, x) && operand_within(loops, y),
        Atom::Truth(x) => operand_within(loops, x),
        Atom::Member(x, _) => operand_within(loops, x),
        Atom::Flag(_, own) => has_loops(loops, own.as_slice()),
    }
}

/// Whether the atoms of a formula are there, and all their loops among these.
pub fn formula_within(atoms: &[Atom], loops: &[u32], f: &Formula) -> bool
    ensures { result ≡ spec.form_within atoms.now loops.now (form_of f.now) }
{
    match f {
        Formula::Is(k, _) => match atoms.get(*k as usize) {
            Some(a) => atom_within(loops, a),
            None => false,
        },
        Formula::Both(g, h) => formula_within(atoms, loops, g) && formula_within(atoms, loops, h),
        Formula::Either(g, h) => formula_within(atoms, loops, g) && formula_within(atoms, loops, h),
    }
}

/// The first loops of a chain.
pub fn first_loops(loops: &[u32], count: usize) -> &[u32]
    ensures { result.now ≡ take count loops.now }
{
    if count < loops.len() {
        &loops[..count]
    } else {
        loops
    }
}

/// Whether the atoms of a formula are there, and all their loops among the first of a chain.
pub fn within_first(atoms: &[Atom], loops: &[u32], count: usize, f: &Formula) -> bool
    ensures { result ≡ spec.form_within atoms.now (take count loops.now) (form_of f.now) }
{
    formula_within(atoms, first_loops(loops, count), f)
}
