// Comments.
ghost use Rattle.std.specs.Prelude.{◌≡◌, ◌+◌, ◌<◌, ◌^◌, length};
ghost use Rattle.java_lex.specs.Pieces.{checked as checked_piece, comment_len as comment_len_of, line_comment as line_comment_of, block_comment as block_comment_of};

use crate::kinds::{begins_with, line_len};
use crate::piece::Piece;
use crate::token::LexRule;

/// The piece, unless the bytes behind its first two aren't UTF-8.
#[tactic(auto, using(crate::proofs::Utf8::valid_texts))]
fn checked(text: &[u8], piece: Piece) -> Piece
    ensures { result ≡ checked_piece text.now piece }
{
    match str::from_utf8(text) {
        Ok(_) => piece,
        Err(e) => Piece::Fault(LexRule::BadByte, 2 + e.valid_up_to()),
    }
}

/// A comment behind its `//`.
pub fn line_comment(bytes: &[u8]) -> Piece
    ensures { result ≡ line_comment_of bytes.now }
{
    let len = line_len(bytes);
    checked(&bytes[..len], Piece::Gap(2 + len))
}

/// How many bytes stand before the first `*/`.
fn comment_len(bytes: &[u8]) -> Option<usize>
    ensures { result ≡ comment_len_of bytes.now }
{
    for (i, byte) in bytes.iter().enumerate() {
        if *byte == b'*' && begins_with(b'/', &bytes[i + 1..]) {
            return Some(i);
        }
    }
    None
}

/// A comment behind its `/*`.
#[tactic(auto, using(crate::proofs::Lengths::comment_len_within))]
pub fn block_comment(bytes: &[u8]) -> Piece
    ensures { result ≡ block_comment_of bytes.now }
{
    match comment_len(bytes) {
        None => checked(bytes, Piece::Fault(LexRule::OpenComment, 0)),
        Some(len) => checked(&bytes[..len], Piece::Gap(2 + len + 2)),
    }
}
