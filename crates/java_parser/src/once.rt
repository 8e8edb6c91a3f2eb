//! What is parsed is the program that tokens have. This does nothing.
ghost use Rattle.std.specs.Prelude.{◌≡◌, Ok, Err};
ghost use Rattle.qbs_base.specs.declared.memory.Fail.TheVariants.{Fault};
ghost use Rattle.java_lex.specs.declared.token.Tokens.{Tokens};
ghost use Rattle.java_ast.specs.Tree.{PlainProgram};
ghost use Rattle.java_grammar.specs.Grammar.{HasProgram, IsReadable};
ghost use Rattle.java_parser.specs.declared.fault.ParseFault.{ParseFault};
ghost use Rattle.java_parser.specs.Kept.{IsKept};
ghost use Rattle.java_parser.specs.Parsed.{parsed};

/// What is parsed is the program that the tokens have, and what they have is parsed; a fault is the one
/// that is kept.
pub fn what_is_parsed()
    ensures found { (tokens : Tokens) (p : PlainProgram) → parsed tokens ≡ Ok p → IsReadable tokens.list p }
    ensures only { (tokens : Tokens) (p : PlainProgram) → IsReadable tokens.list p → parsed tokens ≡ Ok p }
    ensures fault { (tokens : Tokens) (f : ParseFault) → parsed tokens ≡ Err f → IsKept HasProgram tokens (Fault f) }
{}
