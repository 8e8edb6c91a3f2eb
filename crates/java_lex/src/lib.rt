//! Tokens of the source language.
#![tactic(auto)]

mod comments;
mod front;
mod integers;
mod kinds;
pub mod laws;
mod lexer;
mod literals;
mod piece;
mod token;

pub use lexer::lex;
pub use token::{LexFault, LexRule, Token, TokenList, TokenNode, Tokens};
