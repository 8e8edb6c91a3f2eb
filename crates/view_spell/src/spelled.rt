// What becomes of the patches of slices, and the file with them in place.
ghost use Rattle.std.specs.Prelude.{◌≡◌, ◌<◌, ◌++◌, ℕ, List, length, set, true, IfOk};
ghost use Rattle.text_patches.specs.declared.patch.TextPatch.{TextPatch};
ghost use Rattle.text_patches.specs.Patching.{with_texts};
ghost use Rattle.view_spell.specs.declared.spelled.SliceSpelled.TheVariants as spelled_as;
ghost use Rattle.view_spell.specs.Placed.{are_apart, patches_in as patches_in_of, patches_of};

use qbs_base::{Bytes, Items, NoMemory};
use std::alloc::Global;
use text_patches::{TextPatch, TextPatches, bytes_from, stretch};

/// What becomes of the patches of a slice.
#[derive(Drop)]
pub enum SliceSpelled {
    /// It has none.
    Left,
    /// They are these of the file, in order and apart, within the bytes of the slice.
    Patched(TextPatches),
    /// One of them can't be said in the words of the file.
    Unlike,
    /// One of them lists rows that could be told from other objects.
    Shared,
}

pub type SlicesSpelled = Items<SliceSpelled>;

/// The patches that a slice has in the file.
pub fn patches_in(spelled: &SliceSpelled) -> &[TextPatch]
    ensures { result.now ≡ patches_in_of spelled.now }
{
    match spelled {
        SliceSpelled::Patched(patches) => patches.as_slice(),
        SliceSpelled::Left | SliceSpelled::Unlike | SliceSpelled::Shared => &[],
    }
}

/// Leaves a slice as it is: what was spelled of it can't be written. What is left of the others is in order and apart where all of it was.
pub fn leave_out(spelled: &mut Vec<SliceSpelled>, number: usize)
    requires { number < length spelled.old.items }
    ensures left { spelled.new.items ≡ set spelled.old.items number spelled_as.Unlike }
    ensures apart { (from to : ℕ) → are_apart from to (patches_of spelled.old.items) ≡ true → are_apart from to (patches_of spelled.new.items) ≡ true }
{
    spelled[number] = SliceSpelled::Unlike;
}

/// Pushes the file from a byte on up to the last of some patches, with these in place, and gives the byte behind that.
fn push_patched(
    out: &mut Vec<u8>,
    source: &[u8],
    at: u64,
    patches: &[TextPatch],
) -> Result<u64, NoMemory>
    ensures { IfOk result (λ behind. (further : List TextPatch) → out.new.items ++ with_texts source.now behind further ≡ out.old.items ++ with_texts source.now at (patches.now ++ further)) }
{
    let mut at = at;
    for patch in patches {
        out.extend_from_slice(stretch(source, at, patch.from))?;
        out.extend_from_slice(patch.text.as_slice())?;
        at = patch.to;
    }
    Ok(at)
}

/// The file with the patches of all its slices in place. It fails only by want of memory.
pub fn with_spelled(
    alloc: Global,
    source: &[u8],
    spelled: &[SliceSpelled],
) -> Result<Bytes, NoMemory>
    ensures { IfOk result (λ bytes. bytes ≡ with_texts source.now 0 (patches_of spelled.now)) }
{
    let mut out = Vec::new(alloc);
    let mut at = 0u64;
    for one in spelled {
        at = push_patched(&mut out, source, at, patches_in(one))?;
    }
    out.extend_from_slice(bytes_from(source, at))?;
    Ok(Bytes::from_vec(out))
}
