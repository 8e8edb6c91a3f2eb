// Cells of what is seen of a file.
use qbs_base::{Bytes, Items};

/// A token of what is seen, and the bytes of the file from which it comes: from the first one to the one behind the last.
#[derive(Drop)]
pub struct Cell {
    pub bytes: Bytes,
    pub from: usize,
    pub to: usize,
}

pub type Cells = Items<Cell>;
