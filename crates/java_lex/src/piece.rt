// What stands at the front of bytes.
ghost use Rattle.std.specs.Prelude.{◌≡◌};
ghost use Rattle.java_lex.specs.Fits.{piece_len};

use crate::token::{LexRule, TokenNode};

/// What stands at the front of some bytes: white space or a comment of so many bytes, a token of
/// so many bytes, or neither, because the byte after so many breaks a rule.
#[derive(Drop)]
pub enum Piece {
    Gap(usize),
    Token(TokenNode, usize),
    Fault(LexRule, usize),
}

impl Piece {
    /// How many bytes it has, a fault those before the byte that breaks the rule.
    pub fn len(&self) -> usize
        ensures { result ≡ piece_len self.now }
    {
        match self {
            Piece::Gap(len) => *len,
            Piece::Token(_, len) => *len,
            Piece::Fault(_, len) => *len,
        }
    }
}
