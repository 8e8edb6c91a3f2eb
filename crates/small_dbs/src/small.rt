// Databases with what a fragment is given besides.
use kernel_lang::Entry;
use qbs_base::{Db, Items};

/// A database with entry values and known lists.
#[derive(Drop)]
pub struct SmallDb {
    pub db: Db,
    pub entry: Entry,
}

pub type SmallDbs = Items<SmallDb>;
