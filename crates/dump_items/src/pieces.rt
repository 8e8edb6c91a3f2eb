// What stands at the front of bytes, an item or a gap, and how many bytes it has.
ghost use Rattle.std.specs.Prelude.{◌≡◌, ◌+◌, ◌<◌, ◌≤◌, ◌^◌, length, ◌∷◌};
ghost use Rattle.std.specs.List.{prefix_len};
ghost use Rattle.dump_items.specs.Pieces as specs;
ghost use Rattle.dump_items.specs.Bytes as kinds;
ghost use Rattle.qbs_base.specs.Bytes as base;

use crate::ItemKind;
use crate::bytes::{begins_with, begins_word, is_line_over, line_len, spells, tag_len, word_len};
use crate::scan::{Until, scan_len, tag_end};
use qbs_base::is_white;

fn is_mark(byte: u8) -> bool
    ensures { result ≡ specs.is_mark byte }
{
    byte == b';' || byte == b'/' || byte == b'$' || byte == b'|'
}

fn begins_delimiter(bytes: &[u8]) -> bool
    ensures { result ≡ specs.begins_delimiter bytes.now }
{
    match bytes {
        [space, mark, ..] => *space == b' ' && is_mark(*mark),
        _ => false,
    }
}

/// The word that stands at the front, which has so many bytes.
fn word(len: usize, bytes: &[u8]) -> (Option<ItemKind>, usize)
    requires some { 0 < len }
    requires within { len ≤ length bytes.now }
    ensures value { result ≡ specs.word_piece len bytes.now }
    ensures len { (0 < result.1) × (result.1 ≤ length bytes.now) }
{
    let (word, rest) = bytes.split_at(len);
    if spells("STDIN", word) && begins_with(b';', rest) {
        (Some(ItemKind::End), len + scan_len(Until::Data, rest))
    } else if spells("DELIMITER", word) && begins_delimiter(rest) {
        (Some(ItemKind::End), len + line_len(rest))
    } else {
        (Some(ItemKind::Word), len)
    }
}

/// What a quote begins, before these bytes.
fn quoted(kind: ItemKind, close: u8, escapes: bool, rest: &[u8]) -> (Option<ItemKind>, usize)
    requires { length rest.now < 2 ^ 63 }
    ensures value { result ≡ specs.quoted_piece kind close escapes rest.now }
    ensures len { (0 < result.1) × (result.1 ≤ length rest.now + 1) }
{
    (
        Some(kind),
        1 + scan_len(Until::Quote { close, escapes }, rest),
    )
}

/// What the dollar at the front begins, where a tag of so many bytes stands behind it.
fn dollar(tag: usize, bytes: &[u8]) -> (Option<ItemKind>, usize)
    requires { tag + 1 ≤ length bytes.now }
    ensures value { result ≡ specs.dollar_piece tag bytes.now }
    ensures len { (0 < result.1) × (result.1 ≤ length bytes.now) }
{
    if begins_with(b'$', &bytes[tag + 1..]) {
        let (opening, rest) = bytes.split_at(tag + 2);
        (Some(ItemKind::Text), tag + 2 + tag_end(opening, rest))
    } else {
        (Some(ItemKind::Other), 1)
    }
}

/// What a slash begins, before these bytes.
fn slash(rest: &[u8]) -> (Option<ItemKind>, usize)
    requires { length rest.now < 2 ^ 63 }
    ensures value { result ≡ specs.slash_piece rest.now }
    ensures len { (0 < result.1) × (result.1 ≤ length rest.now + 1) }
{
    if begins_with(b'*', rest) {
        (None, 1 + scan_len(Until::Star, rest))
    } else if is_line_over(rest) {
        (Some(ItemKind::End), 1)
    } else {
        (Some(ItemKind::Other), 1)
    }
}

/// What a dash begins, before these bytes.
fn dash(rest: &[u8]) -> (Option<ItemKind>, usize)
    requires { length rest.now < 2 ^ 63 }
    ensures value { result ≡ specs.dash_piece rest.now }
    ensures len { (0 < result.1) × (result.1 ≤ length rest.now + 1) }
{
    if begins_with(b'-', rest) {
        (None, 1 + line_len(rest))
    } else {
        (Some(ItemKind::Other), 1)
    }
}

fn sign(byte: u8) -> (Option<ItemKind>, usize)
    ensures value { result ≡ specs.sign_piece byte }
    ensures len { result.1 ≡ 1 }
{
    match byte {
        b'(' => (Some(ItemKind::Open), 1),
        b')' => (Some(ItemKind::Close), 1),
        b',' => (Some(ItemKind::Comma), 1),
        b'.' => (Some(ItemKind::Dot), 1),
        b';' => (Some(ItemKind::End), 1),
        _ => (Some(ItemKind::Other), 1),
    }
}

/// What a byte that is neither white space nor of a word begins, before these bytes. `bytes` are it and these.
fn mark(escapes: bool, first: u8, rest: &[u8], bytes: &[u8]) -> (Option<ItemKind>, usize)
    requires whole { bytes.now ≡ first ∷ rest.now }
    requires room { length bytes.now < 2 ^ 63 }
    ensures value { result ≡ specs.mark_piece escapes first rest.now }
    ensures len { (0 < result.1) × (result.1 ≤ length bytes.now) }
{
    match first {
        b'\'' => quoted(ItemKind::Text, b'\'', escapes, rest),
        b'"' => quoted(ItemKind::Quoted, b'"', escapes, rest),
        b'`' => quoted(ItemKind::Quoted, b'`', false, rest),
        b'[' => quoted(ItemKind::Quoted, b']', false, rest),
        b'$' => dollar(tag_len(rest), bytes),
        b'/' => slash(rest),
        b'-' => dash(rest),
        b'\\' => (None, 1 + line_len(rest)),
        _ => sign(first),
    }
}

/// What stands at the front, an item or a gap, and how many bytes it has.
#[tactic(auto, unfolding(crate::specs::Pieces::piece_of))]
pub fn piece(escapes: bool, bytes: &[u8]) -> (Option<ItemKind>, usize)
    ensures value { result ≡ specs.piece_of escapes bytes.now }
    ensures len { (0 < length bytes.now → 0 < result.1) × (result.1 ≤ length bytes.now) }
{
    match bytes {
        [] => (None, 0),
        [first, ..] if is_white(*first) => (None, 1),
        [first, ..] if begins_word(*first) => word(word_len(bytes), bytes),
        [first, rest @ ..] => mark(escapes, *first, rest, bytes),
    }
}
