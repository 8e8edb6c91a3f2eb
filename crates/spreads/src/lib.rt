//! Spreads of loops: each query that a loop asks for rows of one table is a walk over that table. And laws of them.
#![tactic(auto)]

mod alone;
mod assigned;
mod condition;
mod copy;
mod inner;
pub mod laws;
mod select;
mod spread;
mod staying;
pub mod worked;

pub use alone::walks_alone;
pub use assigned::names_assigned;
pub use spread::spread_of;
pub use staying::stays;
