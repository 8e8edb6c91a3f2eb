//! The shapes of a Java file that its items show without a look at names: its class and members, where statements end, which blocks
//! run where they stand, and where names are mentioned, set and free.
#![tactic(auto)]

mod blocks;
mod file;
mod finding;
pub mod laws;
mod members;
mod method;
mod naming;
mod prefixes;
mod statements;
mod uses;

pub use blocks::{blocks_of, inner_blocks};
pub use file::{File, Opened};
pub use finding::{
    closing_at, has_name, is_name, is_one_of_signs, is_one_of_words, is_sign, is_word,
};
pub use members::{ClassPlace, Stretch, class_of, members_of};
pub use method::{Method, Parameter};
pub use naming::{is_mention, is_named, is_set_at, may_be_set, mentions};
pub use prefixes::{dotted_end, is_plain_name, prefix_end, variable_prefix_end};
pub use statements::{Form, end_of, form_of, head, modifiers_end};
pub use uses::{is_called, is_free, is_keyword, is_keyword_name, is_use};
