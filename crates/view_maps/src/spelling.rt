// Patterns and templates of a map as Java.
use crate::texts::put_bytes;
use itoa::Buffer;
use qbs_base::{NoMemory, is_name_part};
use view_map::{Part, PatternItem, Template};

/// Whether a byte belongs to a name or a number.
fn is_in_word(byte: u8) -> bool {
    is_name_part(byte) || byte == b'$' || byte >= 128
}

/// Whether a space stands between two items, of which the one ends and the other begins with a byte.
fn are_apart(last: u8, first: u8) -> bool {
    last == b','
        || (is_in_word(first) && (is_in_word(last) || last == b'"' || last == b')'))
        || (last == first && (last == b'+' || last == b'-'))
}

fn last_byte(bytes: &[u8]) -> u8 {
    match bytes {
        [] => b' ',
        [.., last] => *last,
    }
}

fn first_byte(bytes: &[u8]) -> u8 {
    match bytes {
        [] => b' ',
        [first, ..] => *first,
    }
}

/// Appends an item behind those of an expression that begins at a number of bytes.
fn put_item(out: &mut Vec<u8>, start: usize, bytes: &[u8]) -> Result<(), NoMemory> {
    if out.len() > start && are_apart(last_byte(out.as_slice()), first_byte(bytes)) {
        put_bytes(out, b" ")?;
    }
    put_bytes(out, bytes)
}

/// Appends a pattern.
pub fn put_pattern(out: &mut Vec<u8>, items: &[PatternItem]) -> Result<(), NoMemory> {
    let start = out.len();
    for item in items {
        put_item(out, start, item.bytes.as_slice())?;
    }
    Ok(())
}

/// Appends parts of a template for a type of elements and the argument of a number: the query is an empty text, and each argument a zero.
fn put_parts(
    out: &mut Vec<u8>,
    start: usize,
    parts: &[Part],
    element: &[u8],
    number: usize,
) -> Result<(), NoMemory> {
    for part in parts {
        match part {
            Part::Item(item) => put_item(out, start, item.bytes.as_slice())?,
            Part::Sql => put_item(out, start, b"\"\"")?,
            Part::Type => put_item(out, start, element)?,
            Part::Number => {
                let mut buffer = Buffer::new();
                put_item(out, start, buffer.format(number).as_bytes())?;
            }
            Part::Argument => put_item(out, start, b"0L")?,
        }
    }
    Ok(())
}

/// Appends a template for a type of elements, with so many arguments.
pub fn put_filled(
    out: &mut Vec<u8>,
    template: &Template,
    element: &[u8],
    arguments: usize,
) -> Result<(), NoMemory> {
    let start = out.len();
    put_parts(out, start, template.front.as_slice(), element, 0)?;
    for number in 0..arguments {
        put_parts(
            out,
            start,
            template.each.as_slice(),
            element,
            number.saturating_add(1),
        )?;
    }
    put_parts(out, start, template.back.as_slice(), element, 0)
}
