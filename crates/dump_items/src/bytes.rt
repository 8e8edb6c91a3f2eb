// Kinds of bytes, and keywords.
ghost use Rattle.std.specs.Prelude.{◌≡◌, ◌<◌, ◌≤◌, length, IsTrue};
ghost use Rattle.std.specs.List.{prefix_len};
ghost use Rattle.dump_items.specs.Bytes as kinds;
ghost use Rattle.qbs_base.specs.Bytes as base;

use qbs_base::{is_digit, is_name_part, is_name_start};

/// What begins a word.
pub fn begins_word(byte: u8) -> bool
    ensures { result ≡ kinds.begins_word byte }
{
    is_name_start(byte) || is_digit(byte) || byte >= 128
}

/// What a word goes on with.
pub fn is_in_word(byte: u8) -> bool
    ensures { result ≡ kinds.is_in_word byte }
{
    begins_word(byte) || byte == b'$' || byte == b'#'
}

pub fn is_in_line(byte: u8) -> bool
    ensures { result ≡ kinds.is_in_line byte }
{
    byte != b'\n'
}

/// White space within a line.
pub fn is_blank(byte: u8) -> bool
    ensures { result ≡ kinds.is_blank byte }
{
    byte == b' ' || byte == b'\t' || byte == b'\r'
}

/// Whether a word is this keyword in any letter case.
pub fn spells(keyword: &str, word: &[u8]) -> bool
    ensures { result ≡ kinds.spells keyword.now word.now }
{
    keyword.as_bytes().eq_ignore_ascii_case(word)
}

/// Whether the first byte is this one.
pub fn begins_with(byte: u8, bytes: &[u8]) -> bool
    ensures value { result ≡ kinds.begins_with byte bytes.now }
    ensures within { IsTrue result → 0 < length bytes.now }
{
    match bytes {
        [] => false,
        [first, ..] => *first == byte,
    }
}

/// How many bytes the word has that stands at the front.
pub fn word_len(bytes: &[u8]) -> usize
    ensures value { result ≡ prefix_len kinds.is_in_word bytes.now }
    ensures within { result ≤ length bytes.now }
{
    bytes.iter().take_while(|b| is_in_word(**b)).count()
}

/// How many bytes there are up to the end of the line.
pub fn line_len(bytes: &[u8]) -> usize
    ensures value { result ≡ prefix_len kinds.is_in_line bytes.now }
    ensures within { result ≤ length bytes.now }
{
    bytes.iter().take_while(|b| is_in_line(**b)).count()
}

/// How many bytes of a dollar tag stand at the front.
pub fn tag_len(bytes: &[u8]) -> usize
    ensures value { result ≡ prefix_len base.is_name_part bytes.now }
    ensures within { result ≤ length bytes.now }
{
    bytes.iter().take_while(|b| is_name_part(**b)).count()
}

/// How many blanks stand at the front.
fn blanks_len(bytes: &[u8]) -> usize
    ensures value { result ≡ prefix_len kinds.is_blank bytes.now }
    ensures within { result ≤ length bytes.now }
{
    bytes.iter().take_while(|b| is_blank(**b)).count()
}

/// Whether nothing but blanks stands up to the end of the line.
pub fn is_line_over(bytes: &[u8]) -> bool
    ensures { result ≡ kinds.is_line_over bytes.now }
{
    let rest = &bytes[blanks_len(bytes)..];
    rest.is_empty() || begins_with(b'\n', rest)
}
