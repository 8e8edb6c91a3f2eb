// Texts in quotes, from left to right.
ghost use Rattle.std.specs.Prelude.{◌≡◌, string_bytes};
ghost use Rattle.readers.specs.Reading.{Gives};
ghost use Rattle.scalar_readers.specs.Chars as spec;

use crate::chars::character;
use qbs_base::Text;
use readers::ReadError;
use std::alloc::Global;
use text_readers::{byte, is_over_at};

/// Characters up to a quote.
fn characters(alloc: Global, bytes: &[u8]) -> Result<(String, &[u8]), ReadError>
    ensures { Gives (λ x. (string_bytes x.0, x.1.now)) result (spec.chars_at bytes.now) }
{
    let mut text = String::new(alloc);
    let mut rest = bytes;
    // Each has a byte at least.
    for _ in 0..bytes.len() {
        if is_over_at(b'"', rest) {
            break;
        }
        let (c, after) = character(rest)?;
        text.push(c)?;
        rest = after;
    }
    Ok((text, rest))
}

/// A text in quotes, and what stands behind it.
#[tactic(auto, unfolding(crate::specs::Chars::text_at))]
pub fn text(alloc: Global, bytes: &[u8]) -> Result<(Text, &[u8]), ReadError>
    ensures { Gives (λ x. (x.0, x.1.now)) result (spec.text_at bytes.now) }
{
    let rest = byte(b'"', bytes)?;
    let (text, rest) = characters(alloc, rest)?;
    let rest = byte(b'"', rest)?;
    Ok((Text::from_string(text), rest))
}
