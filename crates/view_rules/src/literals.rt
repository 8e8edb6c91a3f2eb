// Literals that the base language has too.
ghost use Rattle.std.specs.Prelude.{◌≡◌};
ghost use Rattle.view_rules.specs.Literals as specs;

use qbs_base::is_digit;
use view_map::{Literal, ScalarKind};

// ---- Texts

fn is_escape(byte: u8) -> bool
    ensures { result ≡ specs.is_escape byte }
{
    byte == b'"' || byte == b'\\' || byte == b'\'' || byte == b'n' || byte == b'r' || byte == b't'
}

fn is_plain_byte(byte: u8) -> bool
    ensures { result ≡ specs.is_plain_byte byte }
{
    !(byte == b'"' || byte == b'\\' || byte == b'\n' || byte == b'\r')
}

fn is_text_rest(bytes: &[u8]) -> bool
    ensures { result ≡ specs.is_text_rest bytes.now }
{
    let mut rest = bytes;
    loop {
        match rest {
            [] => return false,
            [byte] => return *byte == b'"',
            [b'\\', escape, more @ ..] => {
                if !is_escape(*escape) {
                    return false;
                }
                rest = more;
            }
            [byte, more @ ..] => {
                if !is_plain_byte(*byte) {
                    return false;
                }
                rest = more;
            }
        }
    }
}

/// Whether bytes are a text literal with the escapes that the base language has.
pub fn is_text(bytes: &[u8]) -> bool
    ensures { result ≡ specs.is_text bytes.now }
{
    match bytes {
        [] => false,
        [byte, rest @ ..] => *byte == b'"' && is_text_rest(rest),
    }
}

// ---- Numbers

fn has_no_zero_before(bytes: &[u8]) -> bool
    ensures { result ≡ specs.has_no_zero_before bytes.now }
{
    match bytes {
        [] => false,
        [_] => true,
        [byte, _, ..] => *byte != b'0',
    }
}

fn are_digits(bytes: &[u8]) -> bool
    ensures { result ≡ specs.are_digits bytes.now }
{
    bytes.iter().all(|b| is_digit(*b))
}

fn is_decimal(bytes: &[u8]) -> bool
    ensures { result ≡ specs.is_decimal bytes.now }
{
    has_no_zero_before(bytes) && are_digits(bytes)
}

fn is_up_to(digits: &[u8], most: &[u8]) -> bool
    ensures { result ≡ specs.is_up_to digits.now most.now }
{
    match digits {
        [] => true,
        [a, digits @ ..] => match most {
            [] => false,
            [b, most @ ..] => *a < *b || (*a == *b && is_up_to(digits, most)),
        },
    }
}

fn is_at_most(digits: &[u8], most: &[u8]) -> bool
    ensures { result ≡ specs.is_at_most digits.now most.now }
{
    digits.len() < most.len() || (digits.len() == most.len() && is_up_to(digits, most))
}

fn largest_int(negative: bool) -> &'static [u8]
    ensures { result.now ≡ specs.largest_int negative }
{
    if negative {
        b"2147483648"
    } else {
        b"2147483647"
    }
}

fn int_kind(negative: bool, digits: &[u8]) -> Option<ScalarKind>
    ensures { result ≡ specs.int_kind negative digits.now }
{
    if is_decimal(digits) && is_at_most(digits, largest_int(negative)) {
        Some(ScalarKind::Int)
    } else {
        None
    }
}

fn long_kind(digits: &[u8]) -> Option<ScalarKind>
    ensures { result ≡ specs.long_kind digits.now }
{
    if is_decimal(digits) && is_at_most(digits, b"9223372036854775807") {
        Some(ScalarKind::Long)
    } else {
        None
    }
}

fn is_marked(bytes: &[u8]) -> bool
    ensures { result ≡ specs.is_marked bytes.now }
{
    match bytes.get(bytes.len().saturating_sub(1)) {
        Some(byte) => *byte == b'L',
        None => false,
    }
}

/// The type of a number by its digits, with a minus sign before it or not: a `long` with an `L`, else an `int`.
pub fn number_kind(negative: bool, bytes: &[u8]) -> Option<ScalarKind>
    ensures { result ≡ specs.number_kind negative bytes.now }
{
    if is_marked(bytes) {
        long_kind(&bytes[..bytes.len().saturating_sub(1)])
    } else {
        int_kind(negative, bytes)
    }
}

// ---- Any literal

/// The type of a literal: a decimal number within its type, a text, `true` or `false`.
pub fn literal_kind(bytes: &[u8]) -> Option<ScalarKind>
    ensures { result ≡ specs.literal_kind bytes.now }
{
    if bytes == b"true".as_slice() || bytes == b"false".as_slice() {
        Some(ScalarKind::Boolean)
    } else if is_text(bytes) {
        Some(ScalarKind::Text)
    } else {
        number_kind(false, bytes)
    }
}

/// The type of a literal with a minus sign before it, which numbers alone have, or without.
pub fn signed_kind(negative: bool, bytes: &[u8]) -> Option<ScalarKind>
    ensures { result ≡ specs.signed_kind negative bytes.now }
{
    if negative {
        number_kind(true, bytes)
    } else {
        literal_kind(bytes)
    }
}

/// Whether the value of a constant is a literal of both languages.
pub fn is_value(value: &Literal) -> bool
    ensures { result ≡ specs.is_value value.now }
{
    signed_kind(value.negative, value.bytes.as_slice()).is_some()
}
