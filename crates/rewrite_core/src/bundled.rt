//! Laws of the bundle of what is rewritten, for the crates above. They do nothing.
ghost use Rattle.std.specs.Prelude.{◌≡◌, ℕ, ◌<◌, ◌≤◌, ◌^◌, List, length, Ok};
ghost use Rattle.qbs_base.specs.Values.{Schema};
ghost use Rattle.java_lex.specs.Lexing.{lexed};
ghost use Rattle.java_lex.specs.declared.token.Tokens.{Tokens};
ghost use Rattle.text_readers.specs.Offsets.{Each};
ghost use Rattle.deriv_check.specs.Grammar.{IsWritableEntry};
ghost use Rattle.java_ast.specs.Tree.{PlainProgram};
ghost use Rattle.java_grammar.specs.Grammar.{IsProgram, IsReadable};
ghost use Rattle.rewrite_core.specs.Checking.{All, checked_from, LoopsStandApart};
ghost use Rattle.rewrite_core.specs.Rewriting.{bundle_of};
ghost use Rattle.rewrite_core.specs.Trying.{all_tried, rewritten};

/// The bundle of a program's tries is accepted, with all its entries, and makes the rewritten program: if no two loops of the program
/// stand at the same line and column, and candidates have at most eight formulas.
pub fn bundles_of_rewrites_are_accepted()
    ensures { (schema : Schema) (size budget : ℕ) (p : PlainProgram)
        → size ≤ 8
        → LoopsStandApart p
        → checked_from schema 0 (bundle_of (all_tried schema size budget p)) p ≡ All (length (bundle_of (all_tried schema size budget p))) (rewritten schema size budget p) }
{}

/// No two loops of a program that a text has stand at the same line and column. The same holds where depth is left aside.
pub fn loops_of_texts_stand_apart()
    ensures readable { (text : List ℕ) (tokens : Tokens) (p : PlainProgram) → lexed text ≡ Ok tokens → IsReadable tokens.list p → LoopsStandApart p }
    ensures of_grammar { (text : List ℕ) (tokens : Tokens) (p : PlainProgram) → lexed text ≡ Ok tokens → IsProgram tokens.list p → LoopsStandApart p }
{}

/// The bundle of the tries of a program that a text has is within the limits of the grammar, so that it can be written and is read back: the
/// text has fewer than 2^32 bytes, and at most a million candidates of a loop are judged.
pub fn bundles_of_rewrites_can_be_written()
    ensures { (schema : Schema) (size budget : ℕ) (text : List ℕ) (tokens : Tokens) (p : PlainProgram)
        → budget ≤ 1000000
        → length text < 2 ^ 32
        → lexed text ≡ Ok tokens
        → IsReadable tokens.list p
        → Each IsWritableEntry (bundle_of (all_tried schema size budget p)) }
{}
