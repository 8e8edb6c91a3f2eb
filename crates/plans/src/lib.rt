//! What stands between the commands and the outside: schemas, programs, bundles and tables that are opened, arguments of a run, results, and
//! the lines of refusals.
#![tactic(auto)]

pub mod arguments;
pub mod lines;
pub mod opening;
pub mod results;
pub mod tables;
