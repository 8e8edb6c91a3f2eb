//! Laws of tokens, for the crates above. They do nothing.
ghost use Rattle.std.specs.Prelude.{◌≡◌, List, ℕ, ◌++◌, ◌∷◌, length, Ok, Err};
ghost use Rattle.java_lex.specs.declared.token.LexFault.{LexFault};
ghost use Rattle.java_lex.specs.declared.token.Token.{Token};
ghost use Rattle.java_lex.specs.declared.token.Tokens.{Tokens};
ghost use Rattle.java_lex.specs.Cutting.{nodes_of, HasNodes, HasTokens, CutsAt, Replaces};
ghost use Rattle.java_lex.specs.Lexing.{lexed};
ghost use Rattle.java_lex.specs.Spans.{StandsIn, StandInOrder, EndsText, IsByteOf, SamePlace, IsToken};
ghost use Rattle.qbs_base.specs.declared.span.Span.{Span};

/// Tokens are stretches of the text, in order and apart, and a fault is at one of its bytes. Each
/// has the line and the column that the bytes before it give.
pub fn spans_of_tokens()
    ensures tokens { (text : List ℕ) (tokens : Tokens) → lexed text ≡ Ok tokens → StandInOrder text 0 tokens.list × EndsText text tokens.end }
    ensures fault { (text : List ℕ) (fault : LexFault) → lexed text ≡ Err fault → IsByteOf text fault.at }
{}

/// A line and a column tell where a stretch of a text starts, and which token of the text stands
/// there: no two bytes have the same ones, and no two tokens.
pub fn places_tell_tokens_apart()
    ensures starts { (text : List ℕ) (a b : Span) → StandsIn text a → StandsIn text b → SamePlace a b → a.start ≡ b.start }
    ensures tokens { (text : List ℕ) (ts : Tokens) (m n : ℕ) (a b : Token) → lexed text ≡ Ok ts → IsToken ts m a → IsToken ts n b → SamePlace a.span b.span → m ≡ n }
{}

/// The tokens behind a place where a token ends depend on the bytes from there alone.
pub fn tokens_behind_a_token()
    ensures { (front rest : List ℕ) (before after : List Token) (last : Token)
        → HasTokens (front ++ rest) (before ++ last ∷ after)
        → last.span.end ≡ length front
        → CutsAt front rest after }
{}

/// Where statements or blocks are put in place of bytes that go from token to token, behind the end
/// of a statement or block or the start of a block, the text has the tokens before, those of the
/// new bytes and those behind, spans aside.
pub fn tokens_of_replaced_bytes()
    ensures { (front old rest new : List ℕ) (before within after given : List Token)
        → Replaces front old rest new before within after given
        → HasNodes (front ++ (new ++ rest)) (nodes_of before ++ (nodes_of given ++ nodes_of after)) }
{}
