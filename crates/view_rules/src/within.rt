// What is fixed while one slice is looked at.
use crate::{ClassConstant, Param};
use qbs_base::{Bytes, Table};
use view_items::Item;
use view_map::ViewMap;

/// What is fixed while one slice is looked at: the map, the schema and the items of the file; by their numbers in the map the classes that
/// are there in the file, and the fetch patterns, templates and constants that may be read in the method; the constants of the class that
/// may be read there; and the parameters of the slice.
#[derive(Drop)]
pub struct Within<'a> {
    pub map: &'a ViewMap,
    pub tables: &'a [Table],
    pub items: &'a [Item],
    pub classes: &'a [u32],
    pub fetches: &'a [u32],
    pub templates: &'a [u32],
    pub map_constants: &'a [u32],
    pub constants: &'a [ClassConstant],
    pub params: &'a [Param],
    /// Names from outside that the method tests for null and that no guard stands before: they aren't read.
    pub tested: &'a [Bytes],
    /// Names of classes, `Objects` and the like among them, that nothing obscures in the file.
    pub clear: &'a [Bytes],
    /// Whether `get` may be read: it isn't inside of a `try`, where its fault may be caught.
    pub gets: bool,
}
