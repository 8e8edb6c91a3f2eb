// What the literals of a fragment give.
ghost use Rattle.std.specs.Prelude.{◌≡◌, OnOk, map};
ghost use Rattle.kernel_lang.specs.Plain.{accumulator};
ghost use Rattle.small_dbs.specs.Literals as spec;

use crate::values::put_literal;
use kernel_lang::Acc;
use qbs_base::{NoMemory, Scalars, Ty};
use std::alloc::Global;
use tor_terms::{Atom, Operand};

fn put_operand(alloc: Global, ty: Ty, a: &Operand, values: &mut Scalars) -> Result<(), NoMemory>
    ensures { OnOk result (values.new ≡ spec.put_given ty (spec.operand_literals a.now) values.old) }
{
    match a {
        Operand::Lit(x) => put_literal(alloc, ty, x, values),
        _ => Ok(()),
    }
}

fn put_atom(alloc: Global, ty: Ty, a: &Atom, values: &mut Scalars) -> Result<(), NoMemory>
    ensures { OnOk result (values.new ≡ spec.put_given ty (spec.atom_literals a.now) values.old) }
{
    match a {
        Atom::Less(x, y) | Atom::Same(x, y) => {
            put_operand(alloc, ty, x, &mut *values)?;
            put_operand(alloc, ty, y, values)
        }
        Atom::Truth(x) | Atom::Member(x, _) => put_operand(alloc, ty, x, values),
        Atom::Flag(_, _) => Ok(()),
    }
}

/// Puts the values of a type that the literals of atoms give.
pub fn put_atoms(
    alloc: Global,
    ty: Ty,
    atoms: &[Atom],
    values: &mut Scalars,
) -> Result<(), NoMemory>
    ensures { OnOk result (values.new ≡ spec.put_given ty (spec.literals_of_atoms atoms.now) values.old) }
{
    match atoms.split_first() {
        None => Ok(()),
        Some((a, rest)) => {
            put_atom(alloc, ty, a, &mut *values)?;
            put_atoms(alloc, ty, rest, values)
        }
    }
}

fn put_start(alloc: Global, ty: Ty, acc: &Acc, values: &mut Scalars) -> Result<(), NoMemory>
    ensures { OnOk result (values.new ≡ spec.put_given ty (spec.start_literals (accumulator acc.now).start) values.old) }
{
    match &acc.start {
        Some(x) => put_literal(alloc, ty, x, values),
        None => Ok(()),
    }
}

/// Puts the values of a type that those give with which accumulators start.
pub fn put_starts(alloc: Global, ty: Ty, accs: &[Acc], values: &mut Scalars) -> Result<(), NoMemory>
    ensures { OnOk result (values.new ≡ spec.put_given ty (spec.literals_of_starts (map accumulator accs.now)) values.old) }
{
    match accs.split_first() {
        None => Ok(()),
        Some((acc, rest)) => {
            put_start(alloc, ty, acc, &mut *values)?;
            put_starts(alloc, ty, rest, values)
        }
    }
}
