// What stands at the front of bytes, an item or a gap, and how many bytes it has.
ghost use Rattle.std.specs.Prelude.{◌≡◌, ◌+◌, ◌<◌, ◌≤◌, ◌^◌, true, length, codes, IfSome, IsTrue};
ghost use Rattle.std.specs.List.{prefix_len};
ghost use Rattle.view_items.specs.Pieces as specs;
ghost use Rattle.view_items.specs.Bytes as kinds;
ghost use Rattle.view_items.specs.Opened as marks;
ghost use Rattle.view_items.specs.Known.{IsKnown};

use crate::ItemKind;
use crate::bytes::{
    begins_exponent, begins_name, is_in_name, is_in_number, is_plus_or_minus, is_space,
};
use crate::known::{Known, line_len, opened_len};
use crate::opened::Opened;
use qbs_base::is_digit;

/// How many bytes a name at the front has.
fn name_len(bytes: &[u8]) -> usize
    ensures value { result ≡ prefix_len kinds.is_in_name bytes.now }
    ensures within { result ≤ length bytes.now }
{
    bytes.iter().take_while(|b| is_in_name(**b)).count()
}

/// Whether a number goes on with a byte behind the one before.
fn goes_on(hexadecimal: bool, before: u8, byte: u8) -> bool
    ensures { result ≡ specs.goes_on hexadecimal before byte }
{
    is_in_number(byte) || (is_plus_or_minus(byte) && begins_exponent(hexadecimal, before))
}

/// How many bytes a number goes on for behind the byte before.
fn number_len(hexadecimal: bool, first: u8, bytes: &[u8]) -> usize
    ensures value { result ≡ specs.number_len hexadecimal first bytes.now }
    ensures within { result ≤ length bytes.now }
{
    let mut before = first;
    let mut rest = bytes;
    let mut len = 0;
    while let [byte, after @ ..] = rest {
        if !goes_on(hexadecimal, before, *byte) {
            return len;
        }
        before = *byte;
        rest = after;
        len += 1;
    }
    len
}

fn is_hexadecimal(bytes: &[u8]) -> bool
    ensures { result ≡ specs.is_hexadecimal bytes.now }
{
    bytes.starts_with(b"0x") || bytes.starts_with(b"0X")
}

/// Whether two bytes are a sign.
fn is_pair(first: u8, second: u8) -> bool
    ensures { result ≡ specs.is_pair first second }
{
    (second == b'=' && b"=!<>+-*/%&|^".contains(&first))
        || (second == first && b"&|+-:".contains(&first))
        || (first == b'-' && second == b'>')
}

fn begins_with_pair(bytes: &[u8]) -> bool
    ensures value { result ≡ specs.begins_with_pair bytes.now }
    ensures within { IsTrue result → 2 ≤ length bytes.now }
{
    match bytes {
        [first, second, ..] => is_pair(*first, *second),
        _ => false,
    }
}

/// How many bytes the longest sign at the front has.
fn sign_len(bytes: &[u8]) -> usize
    requires { 0 < length bytes.now }
    ensures value { result ≡ specs.sign_len bytes.now }
    ensures within { (0 < result) × (result ≤ length bytes.now) }
{
    if bytes.starts_with(b">>>=") {
        4
    } else if bytes.starts_with(b"<<=") || bytes.starts_with(b">>=") || bytes.starts_with(b"...") {
        3
    } else if begins_with_pair(bytes) {
        2
    } else {
        1
    }
}

fn sign(bytes: &[u8]) -> (Option<ItemKind>, usize)
    requires { 0 < length bytes.now }
    ensures value { result ≡ specs.sign_piece bytes.now }
    ensures len { (0 < result.1) × (result.1 ≤ length bytes.now) }
{
    (Some(ItemKind::Sign), sign_len(bytes))
}

/// With so many bytes, or as a sign.
fn closed_or_sign(
    kind: Option<ItemKind>,
    len: Option<usize>,
    bytes: &[u8],
) -> (Option<ItemKind>, usize)
    requires some { 0 < length bytes.now }
    requires within { IfSome len (λ n. (0 < n) × (n ≤ length bytes.now)) }
    ensures value { result ≡ specs.closed_piece kind len (specs.sign_piece bytes.now) }
    ensures len { (0 < result.1) × (result.1 ≤ length bytes.now) }
{
    match len {
        Some(len) => (kind, len),
        None => sign(bytes),
    }
}

/// What a quote at the front begins, other than a block. The bytes stand at a place of the file.
fn text(known: &mut Known, at: usize, bytes: &[u8]) -> (Option<ItemKind>, usize)
    requires mark { marks.begins_with bytes.now (codes "\"") ≡ true }
    requires some { 0 < length bytes.now }
    requires room { at + length bytes.now < 2 ^ 63 }
    requires known { IsKnown known.old at bytes.now }
    ensures value { result ≡ specs.text_piece bytes.now }
    ensures len { (0 < result.1) × (result.1 ≤ length bytes.now) }
    ensures known { IsKnown known.new at bytes.now }
{
    let len = opened_len(known, Opened::Text, at, bytes);
    closed_or_sign(Some(ItemKind::Text), len, bytes)
}

/// What three quotes at the front begin.
fn block(known: &mut Known, at: usize, bytes: &[u8]) -> (Option<ItemKind>, usize)
    requires mark { marks.begins_with bytes.now (codes "\"\"\"") ≡ true }
    requires some { 0 < length bytes.now }
    requires room { at + length bytes.now < 2 ^ 63 }
    requires known { IsKnown known.old at bytes.now }
    ensures value { result ≡ specs.block_piece bytes.now }
    ensures len { (0 < result.1) × (result.1 ≤ length bytes.now) }
    ensures known { IsKnown known.new at bytes.now }
{
    match opened_len(known, Opened::Block, at, bytes) {
        Some(len) => (Some(ItemKind::Block), len),
        None => text(known, at, bytes),
    }
}

/// What begins with neither white space nor a letter nor a digit.
fn mark(known: &mut Known, at: usize, bytes: &[u8]) -> (Option<ItemKind>, usize)
    requires some { 0 < length bytes.now }
    requires room { at + length bytes.now < 2 ^ 63 }
    requires known { IsKnown known.old at bytes.now }
    ensures value { result ≡ specs.mark_piece bytes.now }
    ensures len { (0 < result.1) × (result.1 ≤ length bytes.now) }
    ensures known { IsKnown known.new at bytes.now }
{
    if bytes.starts_with(b"//") {
        (None, line_len(bytes))
    } else if bytes.starts_with(b"/*") {
        let len = opened_len(known, Opened::Comment, at, bytes);
        closed_or_sign(None, len, bytes)
    } else if bytes.starts_with(b"\"\"\"") {
        block(known, at, bytes)
    } else if bytes.starts_with(b"\"") {
        text(known, at, bytes)
    } else if bytes.starts_with(b"'") {
        let len = opened_len(known, Opened::Char, at, bytes);
        closed_or_sign(Some(ItemKind::Char), len, bytes)
    } else {
        sign(bytes)
    }
}

/// What stands at the front of the bytes at a place of the file, an item or a gap, and how many bytes it has.
#[tactic(auto, unfolding(crate::specs::Pieces::piece_of))]
pub fn piece(known: &mut Known, at: usize, bytes: &[u8]) -> (Option<ItemKind>, usize)
    requires room { at + length bytes.now < 2 ^ 63 }
    requires known { IsKnown known.old at bytes.now }
    ensures value { result ≡ specs.piece_of bytes.now }
    ensures len { (0 < length bytes.now → 0 < result.1) × (result.1 ≤ length bytes.now) }
    ensures known { IsKnown known.new at bytes.now }
{
    match bytes {
        [] => (None, 0),
        [first, ..] if is_space(*first) => (None, 1),
        [first, ..] if begins_name(*first) => (Some(ItemKind::Name), name_len(bytes)),
        [first, rest @ ..] if is_digit(*first) => (
            Some(ItemKind::Number),
            1 + number_len(is_hexadecimal(bytes), *first, rest),
        ),
        _ => mark(known, at, bytes),
    }
}
