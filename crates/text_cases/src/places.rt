// Places in texts, and fields of cases.
use qbs_base::{NoMemory, Span, Text, Words};
use std::alloc::{AllocError, Global};

/// Appends the line and the column of a place.
pub fn put_place(out: &mut String, at: &Span) -> Result<(), AllocError> {
    let line = at.line;
    let column = at.column;
    write!(out, "{line}:{column}")
}

/// Appends a place with its first byte and the one behind its last.
pub fn put_span(out: &mut String, at: &Span) -> Result<(), AllocError> {
    put_place(out, at)?;
    let start = at.start;
    let end = at.end;
    write!(out, " {start}-{end}")
}

/// The field with this number, which is empty where there is none.
pub fn field(fields: &[Vec<u8>], number: usize) -> &[u8] {
    match fields.get(number) {
        Some(bytes) => bytes.as_slice(),
        None => &[],
    }
}

/// The text with these bytes, empty where they are no UTF-8.
pub fn text_of(alloc: Global, bytes: &[u8]) -> Result<Text, NoMemory> {
    match Text::from_vec(bytes.to_vec(alloc)?) {
        Some(text) => Ok(text),
        None => Ok(Text::from_string(String::new(alloc))),
    }
}

/// The fields as words.
pub fn words_of(alloc: Global, fields: &[Vec<u8>]) -> Result<Words, NoMemory> {
    let mut words = Words::new(alloc);
    for word in fields {
        words.push(text_of(alloc, word.as_slice())?)?;
    }
    Ok(words)
}
