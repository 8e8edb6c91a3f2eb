//! Plans and how they are written, files within their limits, and what small choices between the commands and the outside come to.
#![tactic(auto)]

pub mod choice;
pub mod deliver;
pub mod fetch;
pub mod found;
mod memory;
pub mod named;
mod plan;

pub use memory::refuse_for_memory;
pub use plan::Plan;
