//! What statements mention and set, and the loops among them.

pub mod block_parts;
pub mod names;
pub mod runs;
pub mod walk;
