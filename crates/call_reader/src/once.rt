//! Laws of tokens with calls, for the crates above. They do nothing.
ghost use Rattle.std.specs.Prelude.{◌≡◌, List, false, Ok, Err};
ghost use Rattle.java_lex.specs.declared.token.Token.{Token};
ghost use Rattle.java_lex.specs.declared.token.Tokens.{Tokens};
ghost use Rattle.java_ast.specs.Tree.{PlainProgram};
ghost use Rattle.java_parser.specs.declared.fault.ParseFault.{ParseFault};
ghost use Rattle.call_reader.specs.SpelledOut.{has_call, spelled_out};
ghost use Rattle.call_reader.specs.WithCalls.{IsReadableWithCalls, IsFaultWithCalls, parsed_with_calls};

/// What is read is the program that the tokens have, and what they have is read; a fault is the one that is kept.
pub fn what_is_read()
    ensures found { (tokens : Tokens) (p : PlainProgram) → parsed_with_calls tokens ≡ Ok p → IsReadableWithCalls tokens.list p }
    ensures only { (tokens : Tokens) (p : PlainProgram) → IsReadableWithCalls tokens.list p → parsed_with_calls tokens ≡ Ok p }
    ensures fault { (tokens : Tokens) (f : ParseFault) → parsed_with_calls tokens ≡ Err f → IsFaultWithCalls tokens f }
{}

/// Tokens without calls are spelled out as they are, so that they have the programs that `parse` reads.
pub fn tokens_without_calls_stay()
    ensures { (ts : List Token) → has_call ts ≡ false → spelled_out ts ≡ ts }
{}
