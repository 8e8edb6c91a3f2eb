//! Query texts: their tokens, what they say, and the query that they have under a schema.
#![tactic(auto)]

mod begun;
mod bounds;
mod bytes;
mod conditions;
mod fault;
mod judging;
mod lexing;
mod naming;
mod operands;
mod params;
mod queries;
mod query;
mod raw;
mod refusal;
mod scope;
mod token;
mod typing;
mod words;

pub use query::{parse_query, read_length};
pub use refusal::SqlFault;
pub use sql_ast::SqlRule;
