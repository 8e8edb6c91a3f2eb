// Scalars as they are written.
ghost use Rattle.std.specs.Prelude.{◌≡◌, ◌++◌, OnOk, string_bytes};
ghost use Rattle.std.specs.List.{flat_map};
ghost use Rattle.std.specs.Char.{encode_utf8};
ghost use Rattle.qbs_base.specs.Literal.{escaped, text_literal, scalar_text};

use crate::{Scalar, Text};
use itoa::Buffer;
use std::alloc::AllocError;

/// Appends a text in quotes, with a backslash before a quote, a backslash, a line feed, a carriage
/// return and a tab.
pub fn push_text_literal(out: &mut String, text: &Text) -> Result<(), AllocError>
    ensures { OnOk result (string_bytes out.new ≡ string_bytes out.old ++ text_literal text.now) }
{
    out.push_str("\"")?;
    push_escaped(out, text)?;
    out.push_str("\"")
}

#[tactic(auto, using(crate::proofs::Escapes::next_char))]
fn push_escaped(out: &mut String, text: &Text) -> Result<(), AllocError>
    ensures { OnOk result (string_bytes out.new ≡ string_bytes out.old ++ flat_map escaped text.now) }
{
    for c in text.as_str().chars() {
        push_char(out, c)?;
    }
    Ok(())
}

#[tactic(auto, using(crate::proofs::Escapes::plain_char))]
fn push_char(out: &mut String, c: char) -> Result<(), AllocError>
    ensures { OnOk result (string_bytes out.new ≡ string_bytes out.old ++ flat_map escaped (encode_utf8 c)) }
{
    match c {
        '"' => out.push_str("\\\""),
        '\\' => out.push_str("\\\\"),
        '\n' => out.push_str("\\n"),
        '\r' => out.push_str("\\r"),
        '\t' => out.push_str("\\t"),
        _ => out.push(c),
    }
}

/// Appends a scalar: digits, `true` or `false`, or a text in quotes.
pub fn push_scalar(out: &mut String, scalar: &Scalar) -> Result<(), AllocError>
    ensures { OnOk result (string_bytes out.new ≡ string_bytes out.old ++ scalar_text scalar.now) }
{
    match scalar {
        Scalar::Long(n) => {
            let mut buffer = Buffer::new();
            out.push_str(buffer.format(*n))
        }
        Scalar::Bool(true) => out.push_str("true"),
        Scalar::Bool(false) => out.push_str("false"),
        Scalar::Text(text) => push_text_literal(out, text),
    }
}
