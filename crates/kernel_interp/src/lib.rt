//! Fragments run over the rows of a database.
#![tactic(auto)]

mod atom;
mod choice;
mod claim;
mod claims;
mod fits;
mod flag;
mod fragment;
mod given;
mod list;
mod mark;
mod member;
mod members;
mod order;
mod place;
mod run;
mod running;
mod setting;
mod truth;
mod visit;

pub use claim::ends_as_claimed;
pub use fits::parts_fit;
pub use fragment::run_fragment;
pub use kernel_steps::FragmentEnd;
