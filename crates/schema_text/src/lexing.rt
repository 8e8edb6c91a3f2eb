// The tokens of a text.
ghost use Rattle.std.specs.Prelude.{◌≡◌, ◌+◌, ◌<◌, ◌≤◌, length, take, IfOk, OnOk, IsTrue, ◌++◌, string_bytes};
ghost use Rattle.std.specs.List.{prefix_len, AllPass};
ghost use Rattle.schema.specs.Bytes.{is_in_line as is_in_line_byte, begins_with as byte_begins};
ghost use Rattle.qbs_base.specs.Bytes.{is_digit as is_digit_byte, is_name_part as is_name_part_byte};
ghost use Rattle.schema.specs.Tokens.{sign_of, piece_of, placed, tokens_of, end_of};

use qbs_base::{NoMemory, Place, Span, Text, is_digit, is_name_part, is_name_start, is_white};
use schema::token::{Kind, Sign, Token};
use std::alloc::Global;

fn is_in_line(byte: u8) -> bool
    ensures { result ≡ is_in_line_byte byte }
{
    byte != b'\n'
}

#[tactic(auto, using(crate::proofs::Pieces::passes))]
fn word_len(bytes: &[u8]) -> usize
    ensures value { result ≡ prefix_len is_name_part_byte bytes.now }
    ensures passes { AllPass is_name_part_byte (take result bytes.now) }
    ensures within { result ≤ length bytes.now }
{
    bytes.iter().take_while(|b| is_name_part(**b)).count()
}

fn digits_len(bytes: &[u8]) -> usize
    ensures value { result ≡ prefix_len is_digit_byte bytes.now }
    ensures within { result ≤ length bytes.now }
{
    bytes.iter().take_while(|b| is_digit(**b)).count()
}

fn line_len(bytes: &[u8]) -> usize
    ensures value { result ≡ prefix_len is_in_line_byte bytes.now }
    ensures within { result ≤ length bytes.now }
{
    bytes.iter().take_while(|b| is_in_line(**b)).count()
}

fn begins_with(byte: u8, bytes: &[u8]) -> bool
    ensures value { result ≡ byte_begins byte bytes.now }
    ensures within { IsTrue result → 0 < length bytes.now }
{
    match bytes {
        [] => false,
        [first, ..] => *first == byte,
    }
}

/// What a byte that is neither white space nor of a word nor a digit begins, before these bytes.
fn sign(first: u8, rest: &[u8]) -> (Option<Kind>, usize)
    ensures value { result ≡ sign_of first rest.now }
    ensures len { (0 < result.1) × (result.1 ≤ length rest.now + 1) }
{
    match first {
        b'(' => (Some(Kind::Sign(Sign::Open)), 1),
        b')' => (Some(Kind::Sign(Sign::Close)), 1),
        b',' => (Some(Kind::Sign(Sign::Comma)), 1),
        b';' => (Some(Kind::Sign(Sign::Semicolon)), 1),
        b'-' if begins_with(b'-', rest) => (None, 1 + line_len(rest)),
        _ => (Some(Kind::Stray), 1),
    }
}

/// The bytes of a word, as text.
fn text_of(alloc: Global, bytes: &[u8]) -> Result<Text, NoMemory>
    requires { AllPass is_name_part_byte bytes.now }
    ensures { IfOk result (λ t. t ≡ bytes.now) }
{
    let mut text = String::new(alloc);
    for byte in bytes {
        text.push(char::from(*byte))?;
    }
    Ok(Text::from_string(text))
}

/// What stands at the front: a token or a gap, and how many bytes it has.
#[tactic(auto, unfolding(schema::specs::Tokens::piece_of))]
fn piece(alloc: Global, bytes: &[u8]) -> Result<(Option<Kind>, usize), NoMemory>
    ensures value { IfOk result (λ x. x ≡ piece_of bytes.now) }
    ensures len { IfOk result (λ x. (0 < length bytes.now → 0 < x.1) × (x.1 ≤ length bytes.now)) }
{
    let (first, rest) = match bytes {
        [] => return Ok((None, 0)),
        [first, rest @ ..] => (*first, rest),
    };
    if is_white(first) {
        return Ok((None, 1));
    }
    if is_name_start(first) {
        let len = word_len(bytes);
        let text = text_of(alloc, &bytes[..len])?;
        return Ok((Some(Kind::Word(text)), len));
    }
    if is_digit(first) {
        return Ok((Some(Kind::Digits), digits_len(bytes)));
    }
    Ok(sign(first, rest))
}

/// Adds the token, if there is one.
fn keep(tokens: &mut Vec<Token>, at: Span, kind: Option<Kind>) -> Result<(), NoMemory>
    ensures { OnOk result (tokens.new.items ≡ tokens.old.items ++ placed at kind) }
{
    if let Some(kind) = kind {
        tokens.push(Token { kind, at })?;
    }
    Ok(())
}

/// The tokens of a text in order, and the empty stretch at its end.
#[derive(Drop)]
pub struct Tokens {
    pub list: Vec<Token>,
    pub end: Span,
}

/// The tokens of a text. Every text has some.
pub fn lex(alloc: Global, text: &[u8]) -> Result<Tokens, NoMemory>
    ensures list { IfOk result (λ t. t.list.items ≡ tokens_of text.now) }
    ensures end { IfOk result (λ t. t.end ≡ end_of text.now) }
{
    let mut list = Vec::new(alloc);
    let mut rest = text;
    let mut place = Place::FIRST;
    while !rest.is_empty() {
        let (kind, len) = piece(alloc, rest)?;
        let (text_here, text_after) = rest.split_at(len);
        let end = place.after(text_here);
        keep(&mut list, place.span_to(end), kind)?;
        place = end;
        rest = text_after;
    }
    Ok(Tokens {
        list,
        end: place.span_to(place),
    })
}
