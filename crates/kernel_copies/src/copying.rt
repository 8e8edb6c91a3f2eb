// Copies of fragments.
ghost use Rattle.std.specs.Prelude.{◌≡◌, IfOk};
ghost use Rattle.kernel_lang.specs.Whole.{fragment_of};

use crate::accumulators::copy_accumulators;
use crate::lists::{copy_lists, copy_types};
use kernel_lang::KFragment;
use qbs_base::NoMemory;
use std::alloc::Global;
use tor_terms::copy_atoms;

/// A copy of a fragment, in a box. It fails only by want of memory.
pub fn copy_fragment(alloc: Global, frag: &KFragment) -> Result<Box<KFragment>, NoMemory>
    ensures { IfOk result (λ copy. fragment_of copy.value ≡ fragment_of frag.now) }
{
    let lists = copy_lists(alloc, frag.lists.as_slice())?;
    let atoms = copy_atoms(alloc, frag.atoms.as_slice())?;
    let accs = copy_accumulators(alloc, frag.accs.as_slice())?;
    let entries = copy_types(alloc, frag.entries.as_slice())?;
    let copy = KFragment {
        lists,
        atoms,
        accs,
        entries,
        known: frag.known,
    };
    Ok(Box::new(alloc, copy)?)
}
