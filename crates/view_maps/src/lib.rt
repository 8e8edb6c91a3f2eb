//! What is drawn of Java classes for a map and its schema, and Java texts that compile only where a map is true of the classes.
#![tactic(auto)]

mod asking;
mod checks;
mod classes;
mod columns;
mod drawings;
mod fields;
mod fronts;
mod kinds;
mod links;
mod map_sheet;
mod schema_sheet;
mod sheets;
mod source;
mod spelling;
mod texts;
mod types;

pub use checks::print_check;
pub use drawings::{draw_map, draw_schema};
