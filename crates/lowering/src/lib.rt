//! The loops of programs, and what a rewrite of one has to keep.
#![tactic(auto)]

mod kept;
pub mod laws;
mod lower_loop;
mod lowered_there;
mod lowering;
mod numbering;
mod places;
mod rules;

pub use kept::kept_statements;
pub use loop_places::outside::Outside;
pub use loop_places::run::{run_at, run_there};
pub use loop_text::statements::walk::loops_of;
pub use lower_loop::lower;
pub use lowering::lowered::Lowered;
pub use places::located::needed;
pub use places::loops::loops;
