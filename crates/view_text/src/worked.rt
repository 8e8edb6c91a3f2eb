//! Cells of a method, laid out, as a law that computes. It does nothing.
ghost use Rattle.std.specs.Prelude.{◌≡◌, Some, None, true};
ghost use Rattle.view_text.specs.Layout.{laid_out, stretches_of, cell_at};
ghost use Rattle.view_text.specs.Tokens.{are_tokens, HasCells};
ghost use Rattle.view_text.specs.Worked.{cells, text};

/// This is the text of a method's cells. They are tokens, and so the text has them as its tokens. The byte 14 is the first
/// of `void`, the fourth cell, and the byte before it is white space.
pub fn worked_cells_are_laid_out()
    ensures text { laid_out cells ≡ text }
    ensures tokens { are_tokens cells ≡ true }
    ensures read { HasCells text cells (stretches_of cells) }
    ensures cell { cell_at cells 14 ≡ Some 3 }
    ensures white { cell_at cells 13 ≡ None }
{}
