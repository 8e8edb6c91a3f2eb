// Numbers that name what is there.
ghost use Rattle.std.specs.Prelude.{◌≡◌, map};
ghost use Rattle.std.specs.List.{list_all};
ghost use Rattle.kernel_lang.specs.Parts.{parts_of};
ghost use Rattle.kernel_lang.specs.Plain.{accumulator, guard_of};
ghost use Rattle.kernel_lang.specs.Validity as spec;
ghost use Rattle.tor_terms.specs.Plain.{form_of, forms_of};

use crate::parts::{Acc, Parts, Update};
use tor_terms::{Atom, Elem, Formula, Operand};

/// The element that an update takes.
pub fn element_of(update: Update) -> Option<Elem>
    ensures { result ≡ spec.element_of update }
{
    match update {
        Update::Push(e) => Some(e),
        Update::PushNew(e) => Some(e),
        Update::Tick => None,
        Update::Plus(e) => Some(e),
        Update::Best(_, e) => Some(e),
        Update::Mark => None,
    }
}

fn operand_is_there(p: &Parts, operand: &Operand) -> bool
    ensures { result ≡ spec.operand_is_there (parts_of p.now) operand.now }
{
    match operand {
        Operand::Field(j, _) => (*j as usize) < p.lists.len(),
        Operand::Entry(k) => (*k as usize) < p.entries.len(),
        Operand::Lit(_) => true,
    }
}

fn loops_are_there(p: &Parts, loops: &[u32]) -> bool
    ensures { result ≡ spec.loops_are_there (parts_of p.now) loops.now }
{
    let count = p.lists.len();
    loops.iter().all(|j| (*j as usize) < count)
}

fn atom_is_there(p: &Parts, atom: &Atom) -> bool
    ensures { result ≡ spec.atom_is_there (parts_of p.now) atom.now }
{
    match atom {
        Atom::Less(a, b) => operand_is_there(p, a) && operand_is_there(p, b),
        Atom::Same(a, b) => operand_is_there(p, a) && operand_is_there(p, b),
        Atom::Truth(a) => operand_is_there(p, a),
        Atom::Member(a, q) => operand_is_there(p, a) && *q < p.known,
        Atom::Flag(k, loops) => {
            (*k as usize) < p.accs.len() && loops_are_there(p, loops.as_slice())
        }
    }
}

fn formula_is_there(count: usize, f: &Formula) -> bool
    ensures { result ≡ spec.formula_is_there count (form_of f.now) }
{
    match f {
        Formula::Is(k, _) => (*k as usize) < count,
        Formula::Both(f, g) => formula_is_there(count, f) && formula_is_there(count, g),
        Formula::Either(f, g) => formula_is_there(count, f) && formula_is_there(count, g),
    }
}

fn guard_is_there(count: usize, guard: &Option<Formula>) -> bool
    ensures { result ≡ spec.guard_all (spec.formula_is_there count) (guard_of guard.now) }
{
    match guard {
        None => true,
        Some(f) => formula_is_there(count, f),
    }
}

fn element_is_there(p: &Parts, element: Option<Elem>) -> bool
    ensures { result ≡ spec.element_is_there (parts_of p.now) element }
{
    match element {
        None => true,
        Some(Elem::Whole(j)) => (j as usize) < p.lists.len(),
        Some(Elem::Field(j, _)) => (j as usize) < p.lists.len(),
    }
}

fn guards_are_there(count: usize, guards: &[Option<Formula>]) -> bool
    ensures { result ≡ list_all (spec.guard_all (spec.formula_is_there count)) (map guard_of guards.now) }
{
    match guards.split_first() {
        None => true,
        Some((g, rest)) => guard_is_there(count, g) && guards_are_there(count, rest),
    }
}

fn pool_is_there(count: usize, pool: &[Formula]) -> bool
    ensures { result ≡ list_all (spec.formula_is_there count) (forms_of pool.now) }
{
    match pool.split_first() {
        None => true,
        Some((f, rest)) => formula_is_there(count, f) && pool_is_there(count, rest),
    }
}

/// Whether the numbers of an accumulator name what is there.
#[tactic(auto, unfolding(crate::specs::Validity::accumulator_is_there))]
pub fn accumulator_is_there(p: &Parts, a: &Acc) -> bool
    ensures { result ≡ spec.accumulator_is_there (parts_of p.now) (accumulator a.now) }
{
    let count = p.atoms.len();
    loops_are_there(p, a.chain.as_slice())
        && element_is_there(p, element_of(a.update))
        && guards_are_there(count, a.guards.as_slice())
        && pool_is_there(count, a.pool.as_slice())
}

/// Whether the numbers of the atoms name what is there.
#[tactic(auto, unfolding(crate::specs::Validity::atoms_are_there))]
pub fn atoms_are_there(p: &Parts) -> bool
    ensures { result ≡ spec.atoms_are_there (parts_of p.now) }
{
    p.atoms.as_slice().iter().all(|atom| atom_is_there(p, atom))
}
