// Fields of cases: `\n`, `\r`, `\t` and `\\` stand for these bytes, and `\xHH` for any byte.
use std::alloc::{AllocError, Global};

/// What is open in a field: nothing, a `\`, a `\x`, or that with its first digit.
#[derive(Clone, Copy)]
enum Escape {
    Nothing,
    Begun,
    Byte,
    Half(u8),
}

fn digit_of(byte: u8) -> u8 {
    match byte {
        b'0'..=b'9' => byte - b'0',
        b'A'..=b'F' => byte - b'A' + 10,
        _ => 0,
    }
}

fn behind_backslash(bytes: &mut Vec<u8>, byte: u8) -> Result<Escape, AllocError> {
    let meant = match byte {
        b'x' => return Ok(Escape::Byte),
        b'n' => b'\n',
        b'r' => b'\r',
        b't' => b'\t',
        _ => byte,
    };
    bytes.push(meant)?;
    Ok(Escape::Nothing)
}

fn next(bytes: &mut Vec<u8>, escape: Escape, byte: u8) -> Result<Escape, AllocError> {
    let meant = match escape {
        Escape::Nothing if byte == b'\\' => return Ok(Escape::Begun),
        Escape::Nothing => byte,
        Escape::Begun => return behind_backslash(bytes, byte),
        Escape::Byte => return Ok(Escape::Half(digit_of(byte))),
        Escape::Half(high) => high.wrapping_mul(16).wrapping_add(digit_of(byte)),
    };
    bytes.push(meant)?;
    Ok(Escape::Nothing)
}

/// The bytes that a field stands for.
pub fn bytes_of(alloc: Global, field: &str) -> Result<Vec<u8>, AllocError> {
    let mut bytes = Vec::new(alloc);
    let mut escape = Escape::Nothing;
    for byte in field.as_bytes() {
        escape = next(&mut bytes, escape, *byte)?;
    }
    Ok(bytes)
}

/// Appends a text in one line, its line ends, tabs and backslashes as escapes.
pub fn put_line(out: &mut String, text: &str) -> Result<(), AllocError> {
    for c in text.chars() {
        let put = match c {
            '\n' => out.push_str("\\n"),
            '\r' => out.push_str("\\r"),
            '\t' => out.push_str("\\t"),
            '\\' => out.push_str("\\\\"),
            _ => out.push(c),
        };
        put?;
    }
    Ok(())
}
