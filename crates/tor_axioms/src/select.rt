// What facts say of the formulas of a selection.
ghost use Rattle.std.specs.Prelude.{◌≡◌, ◌&&◌, not, ◌∷◌, [], IfOk, option_map};
ghost use Rattle.tor_terms.specs.Plain.{form_of, forms_of};
ghost use Rattle.tor_axioms.specs.Rules as spec;

use crate::facts::Literal;
use crate::judged::decide_formula;
use deriv_parts::{Known, is_yes};
use qbs_base::{Items, NoMemory};
use std::alloc::Global;
use tor_terms::{Atom, Formula, Formulas, copy_formula, formula_within};

/// Whether some formula is decided to be false.
pub fn some_no(atoms: &[Atom], facts: &[Literal], fs: &[Formula]) -> bool
    ensures { result ≡ spec.some_no atoms.now facts.now (forms_of fs.now) }
{
    for f in fs {
        if let Known::No = decide_formula(atoms, facts, f) {
            return true;
        }
    }
    false
}

/// Whether all formulas are decided to be true.
pub fn all_yes(atoms: &[Atom], facts: &[Literal], fs: &[Formula]) -> bool
    ensures { result ≡ spec.all_yes atoms.now facts.now (forms_of fs.now) }
{
    for f in fs {
        if !is_yes(decide_formula(atoms, facts, f)) {
            return false;
        }
    }
    true
}

fn no_within(atoms: &[Atom], facts: &[Literal], loops: &[u32], f: &Formula) -> bool
    ensures { result ≡ spec.no_within atoms.now facts.now loops.now (form_of f.now) }
{
    if !formula_within(atoms, loops, f) {
        return false;
    }
    match decide_formula(atoms, facts, f) {
        Known::No => true,
        _ => false,
    }
}

fn yes_within(atoms: &[Atom], facts: &[Literal], loops: &[u32], f: &Formula) -> bool
    ensures { result ≡ spec.yes_within atoms.now facts.now loops.now (form_of f.now) }
{
    if !formula_within(atoms, loops, f) {
        return false;
    }
    match decide_formula(atoms, facts, f) {
        Known::Yes => true,
        _ => false,
    }
}

/// Whether some formula whose loops are all among these is decided to be false.
pub fn some_no_within(atoms: &[Atom], facts: &[Literal], loops: &[u32], fs: &[Formula]) -> bool
    ensures { result ≡ spec.some_no_within atoms.now facts.now loops.now (forms_of fs.now) }
{
    for f in fs {
        if no_within(atoms, facts, loops, f) {
            return true;
        }
    }
    false
}

// Whether a formula is the first to be left out.
fn is_left_out(found: bool, atoms: &[Atom], facts: &[Literal], loops: &[u32], f: &Formula) -> bool
    ensures { result ≡ (not found && spec.yes_within atoms.now facts.now loops.now (form_of f.now)) }
{
    !found && yes_within(atoms, facts, loops, f)
}

/// Copies of the formulas without the first one whose loops are all among these and that is
/// decided to be true, and none where there is no such formula.
pub fn without_yes(
    alloc: Global,
    atoms: &[Atom],
    facts: &[Literal],
    loops: &[u32],
    fs: &[Formula],
) -> Result<Option<Formulas>, NoMemory>
    ensures { IfOk result (λ o. option_map forms_of o ≡ spec.without_yes atoms.now facts.now loops.now (forms_of fs.now)) }
{
    let mut found = false;
    let mut rest = Items::new(alloc);
    for f in fs {
        if is_left_out(found, atoms, facts, loops, f) {
            found = true;
        } else {
            let copy = copy_formula(alloc, f)?;
            rest.push(copy)?;
        }
    }
    if found { Ok(Some(rest)) } else { Ok(None) }
}
