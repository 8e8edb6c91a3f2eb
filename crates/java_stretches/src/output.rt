// A source with patches in place.
ghost use Rattle.std.specs.Prelude.{◌≡◌, IfOk};
ghost use Rattle.java_stretches.specs.Patches as specs;

use crate::patch::Patch;
use crate::patching::{bytes_from, stretch};
use qbs_base::{Bytes, NoMemory};
use std::alloc::Global;

/// The source with patches in place. Only want of memory is an error.
pub fn with_patches(alloc: Global, source: &[u8], patches: &[Patch]) -> Result<Bytes, NoMemory>
    ensures { IfOk result (λ bytes. bytes ≡ specs.with_patches source.now 0 (specs.plain_patches patches.now)) }
{
    let mut out = Vec::new(alloc);
    let mut at = 0u64;
    for patch in patches {
        out.extend_from_slice(stretch(source, at, patch.from))?;
        out.extend_from_slice(patch.text.as_slice())?;
        at = patch.to;
    }
    out.extend_from_slice(bytes_from(source, at))?;
    Ok(Bytes::from_vec(out))
}
