//! Sources in which patches stand, and the programs that they have then. These do nothing.
ghost use Rattle.std.specs.Prelude.{◌≡◌, ◌<◌, ℕ, List, [], Ok};
ghost use Rattle.std.specs.List.{AllByRecursion};
ghost use Rattle.std.specs.declared.option.Option.TheVariants.{Some};
ghost use Rattle.java_lex.specs.Lexing.{lexed};
ghost use Rattle.java_lex.specs.declared.token.Tokens.{Tokens};
ghost use Rattle.java_ast.specs.Path.{statement_at, replaced_at, last_of};
ghost use Rattle.java_ast.specs.Spans.{place_of};
ghost use Rattle.java_ast.specs.Tree.{Statement, Statements, PlainProgram};
ghost use Rattle.java_grammar.specs.Grammar.{IsProgram};
ghost use Rattle.java_grammar.specs.ReadBack.{IsReadBack};
ghost use Rattle.java_stretches.specs.Lines.{CanStandFor};
ghost use Rattle.java_stretches.specs.Stretch.{sibling};
ghost use Rattle.loop_text.specs.Statements.Fragment.{Fragment, fragment_at};
ghost use Rattle.loop_text.specs.Statements.KeptStatements.{first_at};
ghost use Rattle.java_stretches.specs.Carries.{Carries, MayComeFor};
ghost use Rattle.java_stretches.specs.Laid.{Patched, with_texts, with_one};

/// A source carries its program where no patch stands in it.
pub fn sources_carry_their_programs()
    ensures { (source : List ℕ) (tokens : Tokens) (p : PlainProgram) → lexed source ≡ Ok tokens → IsProgram tokens.list p → Carries source [] p }
{}

/// Where a loop with a run gives way, and a text that can stand for what comes in its place covers the bytes from the run's first statement, or from the
/// start of the patch in which that lies, to the loop's end, the source carries the program in which the loop gave way. All earlier patches begin before the
/// loop ends.
pub fn one_more_patch_carries_the_program()
    ensures { (source : List ℕ) (ps : List Patched) (p : PlainProgram) (path : List ℕ) (f : Fragment) (first : ℕ) (one : Statement) (block : Statements) (text : List ℕ)
        → Carries source ps p
        → fragment_at path p ≡ Some f
        → first_at path p ≡ Some first
        → first < last_of path
        → statement_at (sibling path first) p ≡ Some one
        → MayComeFor f block
        → CanStandFor text block
        → AllByRecursion (λ (x : Patched). x.from < (place_of f.loop).end) ps
        → Carries source (with_one ps (place_of one).start (place_of f.loop).end text) (replaced_at path first block p) }
{}

/// The source with its patches in place is a text of the program that it carries, but for places.
pub fn patched_sources_are_read_back()
    ensures { (source : List ℕ) (ps : List Patched) (p : PlainProgram) → Carries source ps p → IsReadBack (with_texts source 0 ps) p }
{}
