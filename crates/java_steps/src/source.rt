// What a method runs on.
use crate::known::Queries;
use crate::numbers::Numbers;
use crate::tables::Tables;
use std::alloc::Global;

/// What a method runs on, and the numbers of its names and texts. The queries know the schema.
#[derive(Drop)]
pub struct Source<'a> {
    pub alloc: Global,
    pub queries: Queries<'a>,
    pub numbers: Numbers<'a>,
    pub tables: Tables<'a>,
}
