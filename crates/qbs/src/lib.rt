//! The top call: words and files to a status and two texts.
#![tactic(auto)]

mod again;
mod alone;
mod by_view;
mod by_view_lines;
mod check;
mod check_by_view;
mod clean;
mod draw;
mod gather;
mod inline;
pub mod laws;
mod looks;
mod make;
mod map;
mod narrow;
mod opened;
mod opened_by_view;
mod places;
mod prove;
mod prove_by_view;
mod rewrite;
mod run;
mod seen;
mod sql;
mod stored;
mod top;
mod unnest;
mod view;
mod written;

pub use clean::qbs_main_over_clean_ends;
pub use deliveries::fetch::MOST_SCHEMA;
pub use deliveries::{Plan, refuse_for_memory};
pub use top::qbs_main;
pub use words::schema_word;
