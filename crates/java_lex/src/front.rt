// The piece at the front of bytes.
ghost use Rattle.std.specs.Prelude.{◌≡◌, ◌+◌, ◌<◌, ◌^◌, length, IfOk};
ghost use Rattle.java_lex.specs.Pieces.{name_at, sign_at, slashed, piece_of};
ghost use Rattle.java_lex.specs.Fits.{FitsIn};

use crate::comments::{block_comment, line_comment};
use crate::integers::{ascii, integer};
use crate::kinds::{name_len, sign_len};
use crate::literals::literal;
use crate::piece::Piece;
use crate::token::{LexRule, TokenNode};
use qbs_base::{NoMemory, Text, is_digit, is_name_start, is_white};
use std::alloc::Global;

/// A name or a reserved word.
fn word(alloc: Global, bytes: &[u8]) -> Result<Piece, NoMemory>
    ensures { IfOk result (λ piece. piece ≡ name_at bytes.now) }
{
    let (name, _) = bytes.split_at(name_len(bytes));
    let text = Text::from_str(alloc, ascii(name))?;
    Ok(Piece::Token(TokenNode::Word(text), name.len()))
}

/// The longest sign.
fn sign(alloc: Global, bytes: &[u8]) -> Result<Piece, NoMemory>
    ensures { IfOk result (λ piece. piece ≡ sign_at bytes.now) }
{
    let (sign, _) = bytes.split_at(sign_len(bytes));
    if sign.is_empty() {
        return Ok(Piece::Fault(LexRule::BadByte, 0));
    }
    let text = Text::from_str(alloc, ascii(sign))?;
    Ok(Piece::Token(TokenNode::Sign(text), sign.len()))
}

/// A comment or a sign.
fn comment_or_sign(alloc: Global, bytes: &[u8]) -> Result<Piece, NoMemory>
    ensures { IfOk result (λ piece. piece ≡ slashed bytes.now) }
{
    match bytes {
        [b'/', b'/', rest @ ..] => Ok(line_comment(rest)),
        [b'/', b'*', rest @ ..] => Ok(block_comment(rest)),
        _ => sign(alloc, bytes),
    }
}

#[tactic(auto, unfolding(crate::specs::Pieces::piece_of))]
fn read_piece(alloc: Global, bytes: &[u8]) -> Result<Piece, NoMemory>
    ensures { IfOk result (λ piece. piece ≡ piece_of bytes.now) }
{
    let [first, rest @ ..] = bytes else {
        return Ok(Piece::Gap(0));
    };
    if is_white(*first) {
        Ok(Piece::Gap(1))
    } else if is_name_start(*first) {
        word(alloc, bytes)
    } else if is_digit(*first) {
        Ok(integer(bytes))
    } else if *first == b'"' {
        literal(alloc, rest)
    } else {
        comment_or_sign(alloc, bytes)
    }
}

/// What stands at the front.
#[tactic(auto, using(crate::proofs::Lengths::fits_read))]
pub fn first_piece(alloc: Global, bytes: &[u8]) -> Result<Piece, NoMemory>
    requires { 0 < length bytes.now }
    ensures value { IfOk result (λ piece. piece ≡ piece_of bytes.now) }
    ensures fits { IfOk result (λ piece. FitsIn (length bytes.now) piece) }
{
    read_piece(alloc, bytes)
}
