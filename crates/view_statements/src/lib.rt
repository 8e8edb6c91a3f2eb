//! Which statements of a Java file are seen as statements of the source language: trees that say how, the check of such a tree, and the tokens
//! that it leaves.
#![tactic(auto)]

mod bodies;
mod checking;
mod declared;
mod frame;
mod loops;
mod orders;
mod pushing;
mod set;
mod sights;
mod slice;
mod statement;
mod steps;
mod tokens;
mod words;
pub mod worked;

pub use checking::{check_statement, check_statements};
pub use frame::{Frame, Place, at_top, beside, in_loop, inside};
pub use loops::truth_word;
pub use pushing::{put_statement, put_statements};
pub use sights::{copied, is_no_word, is_seen_name, push_onto, push_own};
pub use slice::{Ending, Group, Printed, Read, Slice, Sliced, Words};
pub use statement::{KeyForm, SortKey, SortPart, Statement, Step};
pub use steps::is_handed;
pub use words::{is_among, is_reserved};
