// A source with texts in place of some of its bytes.
ghost use Rattle.std.specs.Prelude.{◌≡◌, IfOk};
ghost use Rattle.text_patches.specs.Patching.{with_texts as with_texts_in};

use crate::parts::{bytes_from, stretch};
use qbs_base::{Bytes, Items, NoMemory, Text};
use std::alloc::Global;

/// A text that stands in place of the bytes of a source from the number `from` up to `to`, both counted from 0.
#[derive(Drop)]
pub struct TextPatch {
    pub from: u64,
    pub to: u64,
    pub text: Text,
}

/// Patches in the order of the source.
pub type TextPatches = Items<TextPatch>;

/// The source with texts in place. Only want of memory is an error.
pub fn with_texts(alloc: Global, source: &[u8], patches: &[TextPatch]) -> Result<Bytes, NoMemory>
    ensures { IfOk result (λ bytes. bytes ≡ with_texts_in source.now 0 patches.now) }
{
    let mut out = Vec::new(alloc);
    let mut at = 0u64;
    for patch in patches {
        out.extend_from_slice(stretch(source, at, patch.from))?;
        out.extend_from_slice(patch.text.as_slice())?;
        at = patch.to;
    }
    out.extend_from_slice(bytes_from(source, at))?;
    Ok(Bytes::from_vec(out))
}
