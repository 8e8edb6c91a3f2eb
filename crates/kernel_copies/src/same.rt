// Whether two fragments are one.
ghost use Rattle.std.specs.Prelude.{◌≡◌, ◌↔◌, IsTrue};
ghost use Rattle.kernel_lang.specs.Whole.{fragment_of};
ghost use Rattle.kernel_copies.specs.Same as spec;

use crate::accumulators::same_accumulators;
use crate::atoms::same_atoms;
use crate::lists::{same_lists, same_types};
use kernel_lang::KFragment;

fn same_parts(a: &KFragment, b: &KFragment) -> bool
    ensures { result ≡ spec.same_fragment (fragment_of a.now) (fragment_of b.now) }
{
    a.known == b.known
        && same_types(a.entries.as_slice(), b.entries.as_slice())
        && same_lists(a.lists.as_slice(), b.lists.as_slice())
        && same_atoms(a.atoms.as_slice(), b.atoms.as_slice())
        && same_accumulators(a.accs.as_slice(), b.accs.as_slice())
}

/// Whether two fragments are one: they have the same parts. It takes no memory, and as long as the parts are.
pub fn same_fragment(a: &KFragment, b: &KFragment) -> bool
    ensures { IsTrue result ↔ (fragment_of a.now ≡ fragment_of b.now) }
{
    same_parts(a, b)
}
