// Whether atoms are one.
ghost use Rattle.std.specs.Prelude.{◌≡◌};
ghost use Rattle.kernel_copies.specs.Same as spec;

use tor_terms::{Atom, same_numbers, same_operand};

fn same_atom(a: &Atom, b: &Atom) -> bool
    ensures { result ≡ spec.same_atom a.now b.now }
{
    match (a, b) {
        (Atom::Less(x, y), Atom::Less(z, w)) => same_operand(x, z) && same_operand(y, w),
        (Atom::Same(x, y), Atom::Same(z, w)) => same_operand(x, z) && same_operand(y, w),
        (Atom::Truth(x), Atom::Truth(y)) => same_operand(x, y),
        (Atom::Member(x, m), Atom::Member(y, n)) => *m == *n && same_operand(x, y),
        (Atom::Flag(m, own), Atom::Flag(n, other)) => {
            *m == *n && same_numbers(own.as_slice(), other.as_slice())
        }
        _ => false,
    }
}

/// Whether the atoms are one.
pub fn same_atoms(a: &[Atom], b: &[Atom]) -> bool
    ensures { result ≡ spec.same_all spec.same_atom a.now b.now }
{
    match (a.split_first(), b.split_first()) {
        (None, None) => true,
        (Some((x, rest)), Some((y, others))) => same_atom(x, y) && same_atoms(rest, others),
        _ => false,
    }
}
