// Text literals.
ghost use Rattle.std.specs.Prelude.{◌≡◌, length, IfOk, ◌+◌, ◌<◌, ◌^◌};
ghost use Rattle.java_lex.specs.Pieces.{plain_part, escaped as escaped_part, part_of, literal_behind};
ghost use Rattle.java_lex.specs.Fits.{PartFits};
ghost use Rattle.java_lex.specs.Seen.{seen};

use crate::kinds::{ends_line, escape_of, plain_len};
use crate::piece::Piece;
use crate::token::{LexRule, TokenNode};
use qbs_base::{NoMemory, Text};
use std::alloc::Global;

/// What stands behind the opening quote of a text literal: its closing quote, the end of the line
/// or of the text, an escape for one byte, bytes that stand for themselves, or, after so many
/// bytes, one that may not stand there.
enum Part<'a> {
    Close,
    LineEnd,
    Escape(u8),
    Plain(&'a str),
    Wrong(usize),
}

#[tactic(auto, using(crate::proofs::Utf8::valid_texts))]
fn plain(bytes: &[u8]) -> Part<'_>
    ensures { seen result ≡ plain_part bytes.now }
{
    match str::from_utf8(bytes) {
        Ok(text) => Part::Plain(text),
        Err(e) => Part::Wrong(e.valid_up_to()),
    }
}

fn escaped(bytes: &[u8]) -> Part<'_>
    ensures { seen result ≡ escaped_part bytes.now }
{
    match bytes {
        [] => Part::LineEnd,
        [byte, ..] => match escape_of(*byte) {
            None => Part::Wrong(0),
            Some(byte) => Part::Escape(byte),
        },
    }
}

#[tactic(auto, unfolding(crate::specs::Pieces::part_of))]
fn read_part(bytes: &[u8]) -> Part<'_>
    ensures { seen result ≡ part_of bytes.now }
{
    match bytes {
        [] => Part::LineEnd,
        [b'"', ..] => Part::Close,
        [byte, ..] if ends_line(*byte) => Part::LineEnd,
        [b'\\', rest @ ..] => escaped(rest),
        _ => plain(&bytes[..plain_len(bytes)]),
    }
}

#[tactic(auto, using(crate::proofs::Bodies::fits_by))]
fn first_part(bytes: &[u8]) -> Part<'_>
    ensures value { seen result ≡ part_of bytes.now }
    ensures fits { PartFits (length bytes.now) (seen result) }
{
    read_part(bytes)
}

/// A text literal behind its opening quote.
pub fn literal(alloc: Global, bytes: &[u8]) -> Result<Piece, NoMemory>
    ensures { IfOk result (λ piece. piece ≡ literal_behind bytes.now) }
{
    let mut text = String::new(alloc);
    let mut len = 1;
    let mut rest = bytes;
    loop {
        match first_part(rest) {
            Part::Close => {
                let node = TokenNode::Text(Text::from_string(text));
                return Ok(Piece::Token(node, len + 1));
            }
            Part::LineEnd => return Ok(Piece::Fault(LexRule::OpenText, 0)),
            Part::Wrong(before) => return Ok(Piece::Fault(LexRule::BadByte, len + before)),
            Part::Escape(byte) => {
                text.push(char::from(byte))?;
                len += 2;
                rest = rest.split_at(2).1;
            }
            Part::Plain(run) => {
                text.push_str(run)?;
                len += run.len();
                rest = rest.split_at(run.len()).1;
            }
        }
    }
}
