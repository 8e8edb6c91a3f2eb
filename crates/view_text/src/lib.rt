//! Cells laid out as a text of the source language: a statement a line, four spaces a level.
#![tactic(auto)]

mod before;
pub mod laws;
mod layout;
mod role;
mod stretches;
mod tokens;
mod worked;

pub use layout::lay_out;
pub use stretches::{LaidOut, Stretch, Stretches, cell_at, lay_out_placed};
pub use tokens::{are_tokens, is_token};
pub use worked::worked_cells_are_laid_out;
