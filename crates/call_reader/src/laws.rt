//! A law of programs that are read with calls, for the crates above. It does nothing.
ghost use Rattle.std.specs.Prelude.{◌≡◌, ℕ, List, Ok};
ghost use Rattle.java_ast.specs.Tree.{PlainProgram};
ghost use Rattle.java_lex.specs.declared.token.Tokens.{Tokens};
ghost use Rattle.java_lex.specs.Lexing.{lexed};
ghost use Rattle.java_grammar.specs.InGrammar.{IsInGrammar};
ghost use Rattle.java_grammar.specs.Written.{IsWritten};
ghost use Rattle.call_reader.specs.WithCalls.{IsReadableWithCalls};

/// A program with calls that the tokens of a text have is of the grammar, its calls as number queries, and can be written.
pub fn programs_with_calls_are_of_the_grammar()
    ensures { (text : List ℕ) (tokens : Tokens) (p : PlainProgram)
        → lexed text ≡ Ok tokens
        → IsReadableWithCalls tokens.list p
        → IsInGrammar p × IsWritten p }
{}
