// Kinds of bytes, and how far they go.
ghost use Rattle.std.specs.Prelude.{◌≡◌, ◌≤◌, length, take, true};
ghost use Rattle.std.specs.List.{prefix_len};
ghost use Rattle.std.specs.Str.{IsAscii, all_ascii_digits};
ghost use Rattle.java_lex.specs.Bytes.{is_in_line as is_in_line_byte, ends_line as ends_line_byte, is_plain as is_plain_byte, is_sign as is_sign_byte, is_long_sign as is_long_sign_byte, escape_of as escape_of_byte, begins_with as begins_with_byte};
ghost use Rattle.qbs_base.specs.Bytes.{is_digit as is_digit_byte, is_name_part as is_name_part_byte};
ghost use Rattle.java_lex.specs.Pieces.{digits_len as digits_len_of, sign_len as sign_len_of};

use qbs_base::{is_digit, is_name_part};

fn is_in_line(byte: u8) -> bool
    ensures { result ≡ is_in_line_byte byte }
{
    byte != b'\n'
}

pub fn ends_line(byte: u8) -> bool
    ensures { result ≡ ends_line_byte byte }
{
    byte == b'\n' || byte == b'\r'
}

fn is_plain(byte: u8) -> bool
    ensures { result ≡ is_plain_byte byte }
{
    !(byte == b'"' || ends_line(byte) || byte == b'\\')
}

/// What a backslash and this byte stand for.
pub fn escape_of(byte: u8) -> Option<u8>
    ensures { result ≡ escape_of_byte byte }
{
    match byte {
        b'"' => Some(b'"'),
        b'\\' => Some(b'\\'),
        b'\'' => Some(b'\''),
        b'n' => Some(b'\n'),
        b'r' => Some(b'\r'),
        b't' => Some(b'\t'),
        _ => None,
    }
}

pub fn begins_with(byte: u8, bytes: &[u8]) -> bool
    ensures { result ≡ begins_with_byte byte bytes.now }
{
    match bytes {
        [] => false,
        [first, ..] => *first == byte,
    }
}

#[tactic(auto, using(crate::proofs::Ascii::name_is_ascii))]
pub fn name_len(bytes: &[u8]) -> usize
    ensures value { result ≡ prefix_len is_name_part_byte bytes.now }
    ensures within { result ≤ length bytes.now }
    ensures ascii { IsAscii (take result bytes.now) }
{
    bytes.iter().take_while(|b| is_name_part(**b)).count()
}

fn digit_run_len(bytes: &[u8]) -> usize
    ensures { result ≡ prefix_len is_digit_byte bytes.now }
{
    bytes.iter().take_while(|b| is_digit(**b)).count()
}

/// How many bytes of digits an integer begins with: a zero stands alone.
#[tactic(auto, using(crate::proofs::Numerals::digits_front, crate::proofs::Numerals::digits_ascii, crate::proofs::Numerals::digits_len_le))]
pub fn digits_len(bytes: &[u8]) -> usize
    ensures value { result ≡ digits_len_of bytes.now }
    ensures within { result ≤ length bytes.now }
    ensures ascii { IsAscii (take result bytes.now) }
    ensures digits { all_ascii_digits (take result bytes.now) ≡ true }
{
    if begins_with(b'0', bytes) {
        1
    } else {
        digit_run_len(bytes)
    }
}

pub fn line_len(bytes: &[u8]) -> usize
    ensures value { result ≡ prefix_len is_in_line_byte bytes.now }
    ensures within { result ≤ length bytes.now }
{
    bytes.iter().take_while(|b| is_in_line(**b)).count()
}

pub fn plain_len(bytes: &[u8]) -> usize
    ensures value { result ≡ prefix_len is_plain_byte bytes.now }
    ensures within { result ≤ length bytes.now }
{
    bytes.iter().take_while(|b| is_plain(**b)).count()
}

fn is_sign(byte: u8) -> bool
    ensures { result ≡ is_sign_byte byte }
{
    byte == b'{'
        || byte == b'}'
        || byte == b'('
        || byte == b')'
        || byte == b';'
        || byte == b','
        || byte == b'.'
        || byte == b'<'
        || byte == b'>'
        || byte == b'='
        || byte == b'+'
        || byte == b'-'
        || byte == b'*'
        || byte == b'!'
        || byte == b':'
}

fn is_long_sign(first: u8, second: u8) -> bool
    ensures { result ≡ is_long_sign_byte first second }
{
    (first == b'-' && second == b'>')
        || (first == b'+' && (second == b'+' || second == b'='))
        || ((first == b'=' || first == b'!' || first == b'<' || first == b'>') && second == b'=')
        || (first == b'&' && second == b'&')
        || (first == b'|' && second == b'|')
}

/// How many bytes the longest sign at the front has, 0 where there is none.
#[tactic(auto, using(crate::proofs::Ascii::sign_is_ascii, crate::proofs::Lengths::sign_len_le))]
pub fn sign_len(bytes: &[u8]) -> usize
    ensures value { result ≡ sign_len_of bytes.now }
    ensures within { result ≤ length bytes.now }
    ensures ascii { IsAscii (take result bytes.now) }
{
    match bytes {
        [first, second, ..] if is_long_sign(*first, *second) => 2,
        [first, ..] if is_sign(*first) => 1,
        _ => 0,
    }
}
