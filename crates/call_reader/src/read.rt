// The public reader: whole texts with calls, and the fault that is kept.
ghost use Rattle.std.specs.Prelude.{◌≡◌, Ok, IfOk, IfErr, MatchResult};
ghost use Rattle.qbs_base.specs.Memory.{AnswersBy, IsNoMemory};
ghost use Rattle.java_ast.specs.Reading.{program as program_of};
ghost use Rattle.java_ast.specs.Tree.{PlainProgram};
ghost use Rattle.call_reader.specs.WithCalls.{IsReadableWithCalls, IsKeptWithCalls, numbered as numbered_of, tokens_spelled_out, parsed_with_calls};

use crate::spell::{number_of, spelled_out};
use java_ast::Program;
use java_lex::{Token, Tokens};
use java_parser::{ParseFault, parse};
use qbs_base::{Fail, NoMemory};
use std::alloc::Global;

/// The tokens with calls spelled out.
fn spelled(alloc: Global, tokens: &Tokens) -> Result<Tokens, NoMemory>
    ensures { IfOk result (λ ts. ts ≡ tokens_spelled_out tokens.now) }
{
    let list = spelled_out(alloc, tokens.list.as_slice())?;
    Ok(Tokens {
        list,
        end: tokens.end,
    })
}

/// The fault at the token that the text has.
fn numbered(tokens: &[Token], fault: ParseFault) -> Result<ParseFault, NoMemory>
    ensures { IfOk result (λ f. f ≡ numbered_of tokens.now fault) }
{
    let token = number_of(tokens, fault.token)?;
    Ok(ParseFault {
        rule: fault.rule,
        at: fault.at,
        token,
    })
}

/// The program with calls that the tokens are, all of them, with its places. The grammar is that of `parse`, with one form more: behind `=`
/// and before `;` a call `name(..)`, with any number of arguments, of a name that an expression may have. In the program it is a number
/// query whose text is the name. Its place is that of the call, and a number query that is written so is read as another spelling of it.
///
/// The fault that is kept stands at a token or at the end of the text, and its number is that of this token. It is the fault of `parse` in the
/// tokens with calls spelled out, of which each stands at the token in whose place it is. Memory may want where it does for these in `parse`.
pub fn read_helpers(alloc: Global, tokens: &Tokens) -> Result<Program, Fail<ParseFault>>
    // What is read has these tokens.
    ensures found { IfOk result (λ p. IsReadableWithCalls tokens.now.list (program_of p)) }
    // What has these tokens is read, and nothing else has them.
    ensures only { (x : PlainProgram) → IsReadableWithCalls tokens.now.list x → MatchResult result (λ p. program_of p ≡ x) IsNoMemory }
    // A fault is the one that is kept.
    ensures fault { IfErr result (IsKeptWithCalls tokens.now) }
    // It answers what reading from left to right gives.
    ensures exact { AnswersBy (λ p. program_of p) (λ f. f) result (parsed_with_calls tokens.now) }
{
    let spelled = spelled(alloc, tokens)?;
    match parse(alloc, &spelled) {
        Ok(program) => Ok(program),
        Err(Fail::NoMemory) => Err(Fail::NoMemory),
        Err(Fail::Fault(fault)) => {
            let fault = numbered(tokens.list.as_slice(), fault)?;
            Err(Fail::Fault(fault))
        }
    }
}
