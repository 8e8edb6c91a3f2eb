//! Tokens in which some statements are replaced. This does nothing.
ghost use Rattle.std.specs.Prelude.{◌≡◌, ◌<◌, ℕ, List};
ghost use Rattle.std.specs.declared.option.Option.TheVariants.{Some};
ghost use Rattle.java_lex.specs.declared.token.Token.{Token};
ghost use Rattle.java_ast.specs.Path.{statement_at, last_of};
ghost use Rattle.java_ast.specs.Tree.{Statement, PlainProgram};
ghost use Rattle.java_grammar.specs.Grammar.{IsProgram};
ghost use Rattle.java_stretches.specs.Stretch.{Stretch};

/// Where a statement and one before it stand in one block, the tokens of a program part into those before the two, those
/// from the one to the other, and those behind; and with the tokens of other statements in place of those between, they
/// have the program in which these others stand in place, with all other places as they were.
pub fn replaced_tokens_have_the_replaced_program()
    ensures { (ts : List Token) (p : PlainProgram) (path : List ℕ) (first : ℕ) (s : Statement)
        → IsProgram ts p
        → statement_at path p ≡ Some s
        → first < last_of path
        → Stretch ts p path first s }
{}
