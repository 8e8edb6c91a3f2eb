//! Small databases that are made from a fragment, and the candidates that they refute.
#![tactic(auto)]

mod cells;
mod choice;
mod endings;
mod entries;
mod fitting;
pub mod laws;
mod literals;
mod made;
mod readied;
mod remembering;
mod small;
mod tables;
mod values;

pub use endings::{Endings, ending, refutes_by};
pub use fitting::fits;
pub use made::{small_db_at, small_dbs};
pub use readied::one_refutes;
pub use remembering::Remembering;
pub use small::{SmallDb, SmallDbs};
