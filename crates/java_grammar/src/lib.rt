//! The grammar of programs, and the readers of their parts.
#![tactic(auto)]

mod atoms;
mod bodies;
mod calls;
mod classes;
mod declarations;
mod dotted;
mod expressions;
mod nodes;
mod once;
mod places;
mod placing;
mod plain;
mod printed;
mod sorts;
mod tokens;
mod types;
mod words;

pub use classes::program;
pub use expressions::expression;
pub use once::tokens_have_one_program;
pub use placing::statements_have_two_places;
pub use printed::{
    canonical_text_has_tokens, canonical_text_is_read_back, canonical_tokens_have_the_program,
    programs_of_texts_are_read_back,
};
pub use tokens::unexpected;
pub use types::{key, spelling};
