// A file that is looked at.
use crate::ClassPlace;
use qbs_base::Items;
use view_items::Item;

/// A file: its items, the closing bracket of each and the bracket round each, and its class.
#[derive(Drop)]
pub struct File<'a> {
    pub items: &'a [Item],
    pub closings: &'a [usize],
    pub rounds: &'a [usize],
    pub class: ClassPlace,
}

/// A file that owns what it is made of.
#[derive(Drop)]
pub struct Opened {
    pub items: Items<Item>,
    pub closings: Items<usize>,
    pub rounds: Items<usize>,
    pub class: ClassPlace,
}
