//! The plain values of the product: texts, scalars, rows and tables.
#![tactic(auto)]

mod boxes;
mod bytes;
mod columns;
mod copying;
mod db;
mod items;
pub mod laws;
mod literal;
mod memory;
mod named;
mod place;
mod print;
mod scalar;
mod span;
mod status;
mod texts;

pub use boxes::{boxed, held};
pub use bytes::{is_digit, is_name_part, is_name_start, is_white};
pub use columns::{Column, Columns, Table, Tables, columns_at, same_ty};
pub use copying::{copy_cells, copy_names, copy_row, copy_rows, copy_scalar, copy_text};
pub use db::Db;
pub use items::Items;
pub use literal::{push_scalar, push_text_literal};
pub use memory::{Fail, NoMemory};
pub use named::{find_name, find_place};
pub use place::Place;
pub use print::print_value;
pub use scalar::{
    Bools, Cells, Kind, NumberLists, Numbers, Row, RowLists, Rows, Scalar, ScalarLists, Scalars,
    Ty, Tys, Value, Values, same_scalar, scalar_cmp,
};
pub use span::Span;
pub use status::Status;
pub use texts::{Bytes, Name, Names, Text, Texts, Words};
