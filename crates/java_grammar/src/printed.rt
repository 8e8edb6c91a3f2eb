//! What canonical texts are read as. These do nothing.
ghost use Rattle.std.specs.Prelude.{◌≡◌, ℕ, List, Ok};
ghost use Rattle.java_text.specs.Canonical.{canonical};
ghost use Rattle.java_ast.specs.Tree.{PlainProgram};
ghost use Rattle.java_lex.specs.Cutting.{HasNodes, nodes_of};
ghost use Rattle.java_lex.specs.declared.token.Token.{Token};
ghost use Rattle.java_lex.specs.declared.token.Tokens.{Tokens};
ghost use Rattle.java_lex.specs.Lexing.{lexed};
ghost use Rattle.java_grammar.specs.Grammar.{IsProgram};
ghost use Rattle.java_grammar.specs.InGrammar.{IsInGrammar};
ghost use Rattle.java_grammar.specs.Printed.{tokens_of};
ghost use Rattle.java_grammar.specs.ReadBack.{SameProgram, IsReadBack};
ghost use Rattle.java_grammar.specs.Written.{IsWritten};

/// The canonical text of a program that can be written has that program's tokens, spans aside.
pub fn canonical_text_has_tokens()
    ensures { (p : PlainProgram) → IsWritten p → HasNodes (canonical p) (tokens_of p) }
{}

/// The tokens of a program of the grammar have that program, but for places, wherever they stand.
pub fn canonical_tokens_have_the_program()
    ensures { (ts : List Token) (p : PlainProgram) → IsInGrammar p → nodes_of ts ≡ tokens_of p → SameProgram ts p }
{}

/// The canonical text of a program of the grammar is read back: it has that program, but for places.
pub fn canonical_text_is_read_back()
    ensures { (p : PlainProgram) → IsInGrammar p → IsWritten p → IsReadBack (canonical p) p }
{}

/// What a text has as its program by the grammar is a program that can be written, and its canonical
/// text is read back.
pub fn programs_of_texts_are_read_back()
    ensures fit { (text : List ℕ) (tokens : Tokens) (p : PlainProgram) → lexed text ≡ Ok tokens → IsProgram tokens.list p → IsInGrammar p × IsWritten p }
    ensures read_back { (text : List ℕ) (tokens : Tokens) (p : PlainProgram) → lexed text ≡ Ok tokens → IsProgram tokens.list p → IsReadBack (canonical p) p }
{}
