// The tokens of a source.
use crate::places::put_span;
use java_lex::{LexFault, TokenNode, Tokens};
use std::alloc::AllocError;

fn put_node(out: &mut String, node: &TokenNode) -> Result<(), AllocError> {
    match node {
        TokenNode::Word(name) => out.push_str(name.as_str()),
        TokenNode::Integer { value, long: true } => write!(out, "{value}L"),
        TokenNode::Integer { value, long: false } => write!(out, "{value}"),
        TokenNode::Text(text) => write!(out, "{:?}", text.as_str()),
        TokenNode::Sign(sign) => write!(out, "`{}", sign.as_str()),
    }
}

/// Appends the tokens of a text and its end, with their places.
pub fn put_tokens(out: &mut String, tokens: &Tokens) -> Result<(), AllocError> {
    for token in tokens.list.as_slice() {
        put_node(out, &token.node)?;
        out.push_str(" ")?;
        put_span(out, &token.span)?;
        out.push_str(", ")?;
    }
    out.push_str("end ")?;
    put_span(out, &tokens.end)
}

/// Appends a fault of tokens and its place.
pub fn put_fault(out: &mut String, fault: &LexFault) -> Result<(), AllocError> {
    let rule = fault.rule;
    write!(out, "{rule:?} ")?;
    put_span(out, &fault.at)
}
