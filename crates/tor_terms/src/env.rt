// Environments.
use qbs_base::{Bools, Items, Numbers, RowLists, Rows, ScalarLists, Scalars, Values};

/// The truth of a flag at choices of rows: the truth at a place belongs to the choice at that
/// place. Of a choice that stands at several places the first counts, and a place without a truth
/// lists nothing.
#[derive(Drop)]
pub struct FlagTable {
    pub rows: RowLists,
    pub truths: Bools,
}

pub type FlagTables = Items<FlagTable>;

/// What terms have their value in: for each loop its list, the turns done and the current row, and
/// entry values, known lists, the values held at levels, and the tables of flags, each by number.
#[derive(Drop)]
pub struct Env {
    pub lists: RowLists,
    pub at: Numbers,
    pub cur: Rows,
    pub entries: Scalars,
    pub known: ScalarLists,
    pub holds: Values,
    pub flags: FlagTables,
}
