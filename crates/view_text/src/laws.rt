//! Laws of cells and their texts, for the crates above. They do nothing.
ghost use Rattle.std.specs.Prelude.{◌≡◌, ◌≤◌, ◌<◌, ℕ, List, Ok, Some, true, slice_get};
ghost use Rattle.java_lex.specs.declared.token.Token.{Token};
ghost use Rattle.java_lex.specs.declared.token.Tokens.{Tokens};
ghost use Rattle.java_lex.specs.Lexing.{lexed};
ghost use Rattle.java_lex.specs.Spans.{IsToken};
ghost use Rattle.view_items.specs.declared.cell.Cell.{Cell};
ghost use Rattle.view_text.specs.declared.stretches.Stretch.{Stretch};
ghost use Rattle.view_text.specs.Layout.{laid_out, stretches_of, cell_at};
ghost use Rattle.view_text.specs.Tokens.{are_tokens, HasCells};

/// Where each cell is a token of the source language, the text of the cells has exactly these tokens in their order, and
/// each of them stands where its cell does.
pub fn laid_out_has_tokens()
    ensures { (cells : List Cell) → are_tokens cells ≡ true → HasCells (laid_out cells) cells (stretches_of cells) }
{}

/// A byte between those at which a cell begins and ends lies in that cell and in no other one. So do the bytes of a
/// token in the cell of the same number.
pub fn bytes_lie_in_their_cells()
    ensures stretches { (cells : List Cell) (n byte : ℕ) (s : Stretch) → slice_get (stretches_of cells) n ≡ Some s → s.from ≤ byte → byte < s.to → cell_at cells byte ≡ Some n }
    ensures tokens { (cells : List Cell) (ts : Tokens) (n byte : ℕ) (t : Token) → are_tokens cells ≡ true → lexed (laid_out cells) ≡ Ok ts → IsToken ts n t → t.span.start ≤ byte → byte < t.span.end → cell_at cells byte ≡ Some n }
{}
