// Valid fragments.
ghost use Rattle.std.specs.Prelude.{◌≡◌, None, Some, IfOk, IfErr};
ghost use Rattle.kernel_lang.specs.Plain.{fragment};
ghost use Rattle.kernel_lang.specs.Parts.{parts_of};
ghost use Rattle.kernel_lang.specs.Validity.{broken};

use crate::parts::{Accs, ListDefs, Parts};
use crate::sentence::Sentence;
use crate::valid::broken as find_broken;
use qbs_base::Tys;
use tor_terms::Atoms;

/// A valid fragment: its loops with their lists, its atoms and accumulators, the types of its entry
/// values, and the number of its known lists.
#[derive(Drop)]
pub struct KFragment {
    pub lists: ListDefs,
    pub atoms: Atoms,
    pub accs: Accs,
    pub entries: Tys,
    pub known: u32,
    ghost valid: { broken (fragment lists atoms accs entries known) ≡ None },
}

impl KFragment {
    /// The fragment with these parts, where they are valid, and else the first sentence that they
    /// break. It takes no memory.
    pub fn from_parts(parts: Parts) -> Result<KFragment, Sentence>
        ensures valid { IfOk result (λ f. fragment f.lists f.atoms f.accs f.entries f.known ≡ parts_of parts) }
        ensures sound { IfOk result (λ f. broken (parts_of parts) ≡ None) }
        ensures broken { IfErr result (λ sentence. broken (parts_of parts) ≡ Some sentence) }
    {
        match find_broken(&parts) {
            Some(sentence) => Err(sentence),
            None => Ok(KFragment {
                lists: parts.lists,
                atoms: parts.atoms,
                accs: parts.accs,
                entries: parts.entries,
                known: parts.known,
            }),
        }
    }
}
