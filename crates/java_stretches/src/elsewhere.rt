//! Tokens with one program, depth or spans left aside. These do nothing.
ghost use Rattle.std.specs.Prelude.{◌≡◌, List};
ghost use Rattle.java_lex.specs.Cutting.{nodes_of};
ghost use Rattle.java_lex.specs.declared.token.Token.{Token};
ghost use Rattle.java_ast.specs.Tree.{PlainProgram};
ghost use Rattle.java_grammar.specs.Grammar.{IsProgram, IsReadable};
ghost use Rattle.java_grammar.specs.ReadBack.{SameProgram};

/// Spans decide on places alone: tokens that differ from those of a program only in their spans have that program too, but for places.
pub fn tokens_with_the_same_nodes_have_the_same_program()
    ensures { (ts us : List Token) (p : PlainProgram) → nodes_of ts ≡ nodes_of us → IsProgram ts p → SameProgram us p }
{}

/// Tokens of which none is too deep have their program where depth is left aside too.
pub fn programs_that_are_read_are_programs()
    ensures { (ts : List Token) (p : PlainProgram) → IsReadable ts p → IsProgram ts p }
{}
