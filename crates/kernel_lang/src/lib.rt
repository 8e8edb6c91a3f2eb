//! Fragments: loops over rows in their lowered form, what they do, and the candidates for what
//! they leave.
#![tactic(auto)]

mod fragment;
pub mod laws;
mod parts;
mod pool;
mod pooled;
mod prune;
mod sentence;
mod valid;
pub mod worked;

pub use fragment::KFragment;
pub use parts::{Acc, Accs, Candidate, Col, Cols, Entry, Guards, ListDef, ListDefs, Parts, Update};
pub use pool::pool_of;
pub use pooled::pool_size;
pub use prune::PruneAnswer;
pub use sentence::Sentence;
pub use valid::sizes::count_conditions;
