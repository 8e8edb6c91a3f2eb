// FROM items with known tables.
use crate::tree::FromItem;
use qbs_base::{Columns, Name};

/// A FROM item: its alias, the columns of its table, and what the query keeps of it.
#[derive(Drop)]
pub struct Known<'a> {
    pub alias: &'a Name,
    pub columns: &'a Columns,
    pub from: FromItem,
}
