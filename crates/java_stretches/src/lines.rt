//! The tokens of statements in canonical layout. This does nothing.
ghost use Rattle.std.specs.Prelude.{ℕ, List, take};
ghost use Rattle.std.specs.List.{prefix_len};
ghost use Rattle.java_ast.specs.Tree.{Statements};
ghost use Rattle.java_text.specs.Canonical.{canonical_statements};
ghost use Rattle.java_stretches.specs.Lines.{is_blank, IsMargin, joined_lines, AreLines, CanBeWritten, HasLines, CanStandFor};

/// The spaces and tabs with which bytes begin are a margin. The lines of statements behind a margin have these statements, but for places.
/// So have those of statements without bodies where they begin behind the margin of the first and end before the line end of the last,
/// and then they can stand in place of other statements.
pub fn lines_have_tokens()
    ensures margin { (line : List ℕ) → IsMargin (take (prefix_len is_blank line) line) }
    ensures lines { (margin : List ℕ) (block : Statements) → IsMargin margin → CanBeWritten block → HasLines (canonical_statements margin block) block }
    ensures joined { (margin : List ℕ) (block : Statements) → IsMargin margin → CanBeWritten block → AreLines block → CanStandFor (joined_lines margin block) block }
{}
