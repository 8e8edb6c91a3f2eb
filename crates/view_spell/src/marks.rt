// Where bytes of the file stand in what is written.
ghost use Rattle.std.specs.Prelude.{◌≡◌, IfSome};
ghost use Rattle.view_spell.specs.Marks as specs;

use text_patches::TextPatch;

/// A byte of the file, and where it stands in what is written.
#[derive(Clone, Copy, PartialEq, Eq)]
pub struct Mark {
    pub byte: u64,
    pub written: u64,
}

/// Where a byte behind the mark stands in what is written, where no patch lies between them: none where that is past 64 bits.
pub fn moved(mark: Mark, byte: u64) -> Option<u64>
    ensures { IfSome result (λ at. at ≡ specs.moved mark byte) }
{
    mark.written.checked_add(byte.saturating_sub(mark.byte))
}

fn past_one(mark: Mark, patch: &TextPatch) -> Option<Mark>
    ensures { IfSome result (λ m. m ≡ specs.past_one mark patch.now) }
{
    let at = moved(mark, patch.from)?;
    let written = at.checked_add(patch.text.as_slice().len() as u64)?;
    Some(Mark {
        byte: patch.to,
        written,
    })
}

/// The mark behind the last of some patches that stand behind a mark: none where it is past 64 bits.
pub fn past(mark: Mark, patches: &[TextPatch]) -> Option<Mark>
    ensures { IfSome result (λ m. m ≡ specs.past mark patches.now) }
{
    let mut mark = mark;
    for patch in patches {
        mark = past_one(mark, patch)?;
    }
    Some(mark)
}
