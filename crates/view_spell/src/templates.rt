// Templates of the map, filled.
use crate::arguments::{Spelled, Spelling, push_argument, push_text, push_words};
use itoa::Buffer;
use java_ast::Expr;
use qbs_base::{NoMemory, Text};
use std::alloc::Global;
use view_map::{Part, QueryKind, Template};

/// What a template is filled with: the query's text, the class of its elements, and the arguments.
#[derive(Clone, Copy)]
pub struct Filling<'a> {
    pub text: &'a Text,
    pub class: &'a [u8],
    pub arguments: &'a [Expr],
}

/// The template of a kind: the map has one for each.
pub fn template_for<'a>(templates: &'a [Template], kind: QueryKind) -> Option<&'a Template> {
    for template in templates {
        if template.kind == kind {
            return Some(template);
        }
    }
    None
}

// ---- Spaces

fn is_one_of(bytes: &[u8], words: &[&[u8]]) -> bool {
    for word in words {
        if bytes == *word {
            return true;
        }
    }
    false
}

/// Whether what is a word or a literal in both could run together.
fn is_wordy(byte: u8) -> bool {
    byte.is_ascii_alphanumeric() || byte == b'_' || byte == b'$' || byte == b'"' || byte == b'\''
}

/// Whether no space stands behind these bytes.
fn holds_behind(bytes: &[u8]) -> bool {
    is_one_of(bytes, &[b"", b".", b"(", b"[", b"!", b"::", b"<", b"@"])
}

/// Whether no space stands before these bytes.
fn holds_before(bytes: &[u8]) -> bool {
    is_one_of(
        bytes,
        &[
            b".", b")", b"]", b",", b";", b"::", b"<", b">", b"[", b"++", b"--",
        ],
    )
}

/// Whether a parenthesis behind these bytes is that of a call.
fn calls(last: &[u8]) -> bool {
    match last.last() {
        Some(byte) => is_wordy(*byte) || *byte == b'>',
        None => true,
    }
}

/// Whether a space stands between two items of a template.
fn is_spaced(last: &[u8], bytes: &[u8]) -> bool {
    !holds_behind(last) && !holds_before(bytes) && !(bytes == b"(".as_slice() && calls(last))
}

// ---- Parts

fn push_spaced(out: &mut Vec<u8>, last: &[u8], bytes: &[u8]) -> Result<(), NoMemory> {
    if is_spaced(last, bytes) {
        out.extend_from_slice(b" ")?;
    }
    Ok(())
}

fn push_number(out: &mut Vec<u8>, number: u64) -> Spelled {
    let mut buffer = Buffer::new();
    push_words(out, buffer.format(number).as_bytes())
}

/// The bytes by which spaces round a part are decided.
fn face<'a>(part: &'a Part) -> &'a [u8] {
    match part {
        Part::Item(item) => item.bytes.as_slice(),
        Part::Sql | Part::Type | Part::Number | Part::Argument => b"x",
    }
}

/// Pushes a part: `number` is that of the argument, from 0, which is there in `each` alone.
fn push_part(
    alloc: Global,
    out: &mut Vec<u8>,
    s: &Spelling,
    filling: &Filling,
    number: u64,
    part: &Part,
) -> Spelled {
    match part {
        Part::Item(item) => push_words(out, item.bytes.as_slice()),
        Part::Sql => push_text(alloc, out, filling.text),
        Part::Type => push_words(out, filling.class),
        Part::Number => push_number(out, number.saturating_add(1)),
        Part::Argument => match filling.arguments.get(number as usize) {
            Some(argument) => push_argument(alloc, out, s, argument),
            None => Ok(false),
        },
    }
}

/// Pushes parts behind bytes. What stands behind them is what `face` says of the last one.
fn push_parts(
    alloc: Global,
    out: &mut Vec<u8>,
    s: &Spelling,
    filling: &Filling,
    number: u64,
    last: &[u8],
    parts: &[Part],
) -> Spelled {
    let mut last = last;
    for part in parts {
        push_spaced(out, last, face(part))?;
        if !push_part(alloc, out, s, filling, number, part)? {
            return Ok(false);
        }
        last = face(part);
    }
    Ok(true)
}

fn last_face<'a>(parts: &'a [Part], otherwise: &'a [u8]) -> &'a [u8] {
    match parts.last() {
        Some(part) => face(part),
        None => otherwise,
    }
}

/// Pushes the part for each argument in order.
fn push_each(
    alloc: Global,
    out: &mut Vec<u8>,
    s: &Spelling,
    filling: &Filling,
    last: &[u8],
    each: &[Part],
) -> Spelled {
    let mut number = 0u64;
    let mut last = last;
    for _argument in filling.arguments {
        if !push_parts(alloc, out, s, filling, number, last, each)? {
            return Ok(false);
        }
        last = last_face(each, last);
        number = number.saturating_add(1);
    }
    Ok(true)
}

/// Pushes a template, filled.
pub fn push_filled(
    alloc: Global,
    out: &mut Vec<u8>,
    s: &Spelling,
    template: &Template,
    filling: &Filling,
) -> Spelled {
    let front = template.front.as_slice();
    let each = template.each.as_slice();
    let mut last = last_face(front, b"");
    if !push_parts(alloc, out, s, filling, 0, b"", front)?
        || !push_each(alloc, out, s, filling, last, each)?
    {
        return Ok(false);
    }
    if !filling.arguments.is_empty() {
        last = last_face(each, last);
    }
    push_parts(alloc, out, s, filling, 0, last, template.back.as_slice())
}
