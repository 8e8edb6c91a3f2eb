// What a schema with comments is made of.
use qbs_base::{Bytes, Column, Items, Name};

/// A column, and a comment behind it on its line, empty where there is none.
#[derive(Drop)]
pub struct WrittenColumn {
    pub column: Column,
    pub note: Bytes,
}

/// A line inside of a table.
#[derive(Drop)]
pub enum Part {
    Column(WrittenColumn),
    Comment(Bytes),
}

pub type Parts = Items<Part>;

/// A table with the comments between its columns.
#[derive(Drop)]
pub struct WrittenTable {
    pub name: Name,
    pub parts: Parts,
}

/// A table, or a comment outside of tables.
#[derive(Drop)]
pub enum Entry {
    Table(WrittenTable),
    Comment(Bytes),
}

pub type Entries = Items<Entry>;
