//! Where the statements of a program that was read stand. This does nothing.
ghost use Rattle.std.specs.Prelude.{◌≡◌, ℕ, List, Some, Ok};
ghost use Rattle.java_ast.specs.Path.{statement_at};
ghost use Rattle.java_ast.specs.Tree.{PlainProgram, Statement};
ghost use Rattle.java_lex.specs.Lexing.{lexed};
ghost use Rattle.java_lex.specs.declared.token.Tokens.{Tokens};
ghost use Rattle.java_grammar.specs.Grammar.{IsProgram, IsReadable};
ghost use Rattle.java_grammar.specs.Placing.{BeginsWithToken, LeadToOnePlace};

/// Each statement of a program that a text has begins at a token of the text, and no two begin at
/// the same line and column, loops among them: paths that lead to statements at one place are one
/// path. The same holds where depth is left aside.
pub fn statements_have_two_places()
    ensures one { (text : List ℕ) (ts : Tokens) (p : PlainProgram) (a b : List ℕ) → lexed text ≡ Ok ts → IsReadable ts.list p → LeadToOnePlace p a b → a ≡ b }
    ensures token { (text : List ℕ) (ts : Tokens) (p : PlainProgram) (a : List ℕ) (s : Statement)
        → lexed text ≡ Ok ts
        → IsReadable ts.list p
        → statement_at a p ≡ Some s
        → BeginsWithToken ts s }
    ensures one_of_grammar { (text : List ℕ) (ts : Tokens) (p : PlainProgram) (a b : List ℕ) → lexed text ≡ Ok ts → IsProgram ts.list p → LeadToOnePlace p a b → a ≡ b }
{}
