// Terms, formulas and lists in boxes.
use qbs_base::{Items, NoMemory, boxed};
use std::alloc::Global;
use tor_terms::{Formula, Loops};

pub fn numbers(alloc: Global, list: &[u32]) -> Result<Loops, NoMemory> {
    Ok(Items::from_vec(list.to_vec(alloc)?))
}

pub fn is(alloc: Global, atom: u32, holds: bool) -> Result<Box<Formula>, NoMemory> {
    boxed(alloc, Formula::Is(atom, holds))
}

pub fn both(alloc: Global, f: Box<Formula>, g: Box<Formula>) -> Result<Box<Formula>, NoMemory> {
    boxed(alloc, Formula::Both(f, g))
}

pub fn either(alloc: Global, f: Box<Formula>, g: Box<Formula>) -> Result<Box<Formula>, NoMemory> {
    boxed(alloc, Formula::Either(f, g))
}
