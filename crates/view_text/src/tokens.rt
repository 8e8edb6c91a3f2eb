// Cells that are tokens of the source language.
ghost use Rattle.std.specs.Prelude.{◌≡◌, IfOk};
ghost use Rattle.view_text.specs.Tokens as specs;

use java_lex::{Token, lex};
use qbs_base::{Fail, NoMemory};
use std::alloc::Global;
use view_items::Cell;

fn fills(len: usize, tokens: &[Token]) -> bool
    ensures { result ≡ specs.fills len tokens.now }
{
    match tokens {
        [token] => token.span.start == 0 && token.span.end == len as u64,
        _ => false,
    }
}

/// Whether bytes are one token of the source language: a word, an integer, a text literal or a sign, and nothing
/// round it.
pub fn is_token(alloc: Global, bytes: &[u8]) -> Result<bool, NoMemory>
    ensures { IfOk result (λ is. is ≡ specs.is_token bytes.now) }
{
    match lex(alloc, bytes) {
        Ok(tokens) => Ok(fills(bytes.len(), tokens.list.as_slice())),
        Err(Fail::Fault(_)) => Ok(false),
        Err(Fail::NoMemory) => Err(NoMemory),
    }
}

/// Whether each cell is one token.
pub fn are_tokens(alloc: Global, cells: &[Cell]) -> Result<bool, NoMemory>
    ensures { IfOk result (λ are. are ≡ specs.are_tokens cells.now) }
{
    for cell in cells {
        if !is_token(alloc, cell.bytes.as_slice())? {
            return Ok(false);
        }
    }
    Ok(true)
}
