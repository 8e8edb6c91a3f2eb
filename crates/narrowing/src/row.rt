// The row that conditions are about.
use qbs_base::Name;
use schema::Schema;

/// The row that a variable is, of the table with this number.
#[derive(Clone, Copy)]
pub struct Row<'a> {
    pub schema: &'a Schema,
    pub table: u32,
    pub variable: &'a Name,
}
