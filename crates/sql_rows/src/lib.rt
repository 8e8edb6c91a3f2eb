//! Rows of tables at their positions, and the small steps that answers are made of: values of columns, their order, sorts, groups, sums, and lookups of rows by a column.
#![tactic(auto)]

mod building;
mod columns;
mod compare;
mod firsts;
mod grouping;
mod order;
mod place;
mod sorting;
mod sums;

pub use building::lookup;
pub use columns::{cell_at, cell_of, column, is_next, place_at, table_rows};
pub use compare::value_order;
pub use grouping::first_values;
pub use place::{Cell, Keyed, Lookup, Place};
pub use sorting::{leave_first, sort_and_cut};
pub use sums::{is_long, sum};
