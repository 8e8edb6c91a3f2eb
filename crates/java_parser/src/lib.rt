//! Programs from tokens.
#![tactic(auto)]

mod bounds;
mod fault;
mod key;
mod once;
mod parser;

pub use fault::{ParseFault, ParseRule};
pub use once::what_is_parsed;
pub use parser::{parse, parse_expression, parse_grammar, parse_key, parse_type};
