//! The lowered fragment of a loop.

pub mod accumulated;
pub mod beside;
pub mod context;
pub mod guards;
pub mod lowered;
pub mod parts;
pub mod source_lists;
