// The tokens of a text.
ghost use Rattle.std.specs.Prelude.{◌≡◌, ◌+◌, ◌<◌, ◌^◌, OnOk, IfErr, length};
ghost use Rattle.java_lex.specs.Kept.{kept, Adds};
ghost use Rattle.java_lex.specs.Lexing.{lexed};
ghost use Rattle.qbs_base.specs.Memory.{Answers, FailsBy};
ghost use Rattle.qbs_base.specs.Places.{HasRoom};

use crate::front::first_piece;
use crate::piece::Piece;
use crate::token::{LexFault, Token, TokenList, Tokens};
use qbs_base::{Fail, Place};
use std::alloc::Global;

/// Adds the token of a piece, if it is one. A fault stands at the end of the piece.
fn keep(list: &mut TokenList, start: Place, end: Place, piece: Piece) -> Result<(), Fail<LexFault>>
    requires { HasRoom end 0 }
    ensures ok { OnOk result (Adds (kept piece start end) list.old list.new) }
    ensures err { IfErr result (λ e. FailsBy e (kept piece start end)) }
{
    match piece {
        Piece::Gap(_) => Ok(()),
        Piece::Token(node, _) => {
            let span = start.span_to(end);
            list.push(Token { span, node })?;
            Ok(())
        }
        Piece::Fault(rule, _) => {
            let at = end.span_of_byte();
            Err(Fail::Fault(LexFault { rule, at }))
        }
    }
}

/// The tokens of a text, or its first fault: reading from the left, the first place at which
/// neither white space, a comment nor a token stands. The span of a fault is that of one byte: the
/// one that is wrong, the opening quote of a text literal that isn't closed on its line, the first
/// byte of a comment that isn't closed, or the first digit of an integer that is too large. The
/// time that it takes grows with the number of bytes alone.
pub fn lex(alloc: Global, bytes: &[u8]) -> Result<Tokens, Fail<LexFault>>
    ensures { Answers result (lexed bytes.now) }
{
    let mut list = TokenList::new(alloc);
    let mut rest = bytes;
    let mut place = Place::FIRST;
    while !rest.is_empty() {
        let piece = first_piece(alloc, rest)?;
        let (here, behind) = rest.split_at(piece.len());
        let end = place.after(here);
        keep(&mut list, place, end, piece)?;
        place = end;
        rest = behind;
    }
    let end = place.span_to(place);
    Ok(Tokens { list, end })
}
