//! What the statements of a loop update, and how.

pub mod best;
pub mod fitting;
pub mod forms;
pub mod shapes;
pub mod starts;
pub mod targets;
