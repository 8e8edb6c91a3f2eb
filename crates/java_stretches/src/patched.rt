//! Texts in which the bytes of some statements are replaced. These do nothing.
ghost use Rattle.std.specs.Prelude.{◌≡◌, ◌<◌, ◌++◌, ℕ, List, Ok};
ghost use Rattle.java_lex.specs.Lexing.{lexed};
ghost use Rattle.java_lex.specs.declared.token.Tokens.{Tokens};
ghost use Rattle.java_ast.specs.Path.{replaced_at, last_of};
ghost use Rattle.java_ast.specs.Tree.{Statements, PlainProgram};
ghost use Rattle.java_ast.specs.Unplaced.{unplaced_block, unplaced_program};
ghost use Rattle.java_grammar.specs.Grammar.{IsProgram};
ghost use Rattle.java_grammar.specs.ReadBack.{IsReadBack};
ghost use Rattle.java_stretches.specs.Lines.{CanStandFor};
ghost use Rattle.java_stretches.specs.Stretch.{GoesFrom};

/// Where bytes that can stand for statements take the place of those from one statement of a block to a later one, and all other bytes stay,
/// the text has the program in which these statements stand in their place, but for places.
pub fn replaced_bytes_have_the_replaced_program()
    ensures { (front old rest new : List ℕ) (tokens : Tokens) (p : PlainProgram) (path : List ℕ) (first : ℕ) (block : Statements)
        → lexed (front ++ (old ++ rest)) ≡ Ok tokens
        → IsProgram tokens.list p
        → first < last_of path
        → GoesFrom p path first front old
        → CanStandFor new block
        → IsReadBack (front ++ (new ++ rest)) (replaced_at path first block p) }
{}

/// Programs that are the same but for places stay so where statements that are the same but for places replace those of a block.
pub fn replaced_programs_are_the_same_but_for_places()
    ensures { (path : List ℕ) (first : ℕ) (others block : Statements) (p q : PlainProgram)
        → unplaced_block others ≡ unplaced_block block
        → unplaced_program p ≡ unplaced_program q
        → unplaced_program (replaced_at path first others p) ≡ unplaced_program (replaced_at path first block q) }
{}
