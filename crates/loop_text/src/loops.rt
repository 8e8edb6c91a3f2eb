//! Loops that count, and the lists that loops walk.

pub mod counting;
pub mod limits;
pub mod lists;
