//! The statements of a loop, with what stands round each and what names are bound to there.

pub mod binders;
pub mod bindings;
pub mod groups;
pub mod list;
pub mod marks;
