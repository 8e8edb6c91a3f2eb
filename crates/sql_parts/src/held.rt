// The numbers of a fragment have 64 bits, as their type says.
ghost use Rattle.std.specs.Prelude.{map};
ghost use Rattle.std.specs.List.{AllByRecursion};
ghost use Rattle.kernel_lang.specs.Plain.{accumulator};
ghost use Rattle.kernel_lang.specs.Whole.{fragment_of};
ghost use Rattle.sql_ast.specs.Valid.{FitsScalar};
ghost use Rattle.sql_parts.specs.Given.{OperandIsHeld, AtomIsHeld, StartIsHeld, IsHeld};

use kernel_lang::{Acc, KFragment};
use qbs_base::Scalar;
use tor_terms::{Atom, Operand};

fn read_scalar(x: &Scalar)
    ensures { FitsScalar x.now }
{
    match x {
        Scalar::Long(n) => {
            let _number = *n;
        }
        Scalar::Bool(_) => {}
        Scalar::Text(_) => {}
    }
}

fn read_operand(a: &Operand)
    ensures { OperandIsHeld a.now }
{
    match a {
        Operand::Field(_, _) => {}
        Operand::Entry(_) => {}
        Operand::Lit(x) => read_scalar(x),
    }
}

fn read_atom(atom: &Atom)
    ensures { AtomIsHeld atom.now }
{
    match atom {
        Atom::Less(a, b) => {
            read_operand(a);
            read_operand(b);
        }
        Atom::Same(a, b) => {
            read_operand(a);
            read_operand(b);
        }
        Atom::Truth(_) => {}
        Atom::Member(_, _) => {}
        Atom::Flag(_, _) => {}
    }
}

fn read_atoms(atoms: &[Atom])
    ensures { AllByRecursion AtomIsHeld atoms.now }
{
    for atom in atoms {
        read_atom(atom);
    }
}

fn read_start(start: &Option<Scalar>)
    ensures { StartIsHeld start.now }
{
    match start {
        None => {}
        Some(x) => read_scalar(x),
    }
}

fn read_starts(accs: &[Acc])
    ensures { AllByRecursion (λ a. StartIsHeld a.start) (map accumulator accs.now) }
{
    for acc in accs {
        read_start(&acc.start);
    }
}

/// Reads the literals and starts of a fragment: its numbers have 64 bits. It changes nothing.
pub fn read_numbers(frag: &KFragment)
    ensures { IsHeld (fragment_of frag.now) }
{
    read_atoms(frag.atoms.as_slice());
    read_starts(frag.accs.as_slice());
}
