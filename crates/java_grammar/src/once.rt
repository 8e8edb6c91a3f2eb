//! Tokens have one program at most. This does nothing.
ghost use Rattle.std.specs.Prelude.{◌≡◌, List};
ghost use Rattle.java_lex.specs.declared.token.Token.{Token};
ghost use Rattle.java_ast.specs.Tree.{PlainProgram};
ghost use Rattle.java_grammar.specs.Grammar.{IsReadable};

/// Tokens of which none is too deep have one program at most, places and all.
pub fn tokens_have_one_program()
    ensures { (ts : List Token) (p q : PlainProgram) → IsReadable ts p → IsReadable ts q → p ≡ q }
{}
