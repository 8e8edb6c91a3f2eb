// The public readers: whole texts, and the faults that are kept.
ghost use Rattle.std.specs.Prelude.{◌≡◌, ℕ, List, Ok, IfOk, IfErr, IsOkAnd, IfSome, IsSomeAnd, MatchResult};
ghost use Rattle.readers.specs.Reading.{Gives, whole};
ghost use Rattle.qbs_base.specs.Memory.{AnswersBy, IsNoMemory};
ghost use Rattle.java_ast.specs.Reading.{spelled, expression as expression_of, program as program_of};
ghost use Rattle.java_ast.specs.Tree.{Spelled, Expression, PlainProgram};
ghost use Rattle.java_grammar.specs.Marks.{all_strict};
ghost use Rattle.java_grammar.specs.Types.{Spelling, Key};
ghost use Rattle.java_grammar.specs.Expressions.{HasExpression};
ghost use Rattle.java_grammar.specs.ReadingTypes.{spelling_at};
ghost use Rattle.java_grammar.specs.ReadingExpressions.{expression_at};
ghost use Rattle.java_grammar.specs.Grammar.{HasProgram, IsProgram, IsReadable};
ghost use Rattle.java_grammar.specs.ReadingPrograms.{program_in};
ghost use Rattle.java_parser.specs.Kept.{fault_at, place_of, kept, IsKept};
ghost use Rattle.java_parser.specs.Parsed.{parsed};

use crate::bounds::fits_stack;
use crate::fault::{ParseFault, ParseRule};
use crate::key::whole_key;
use java_ast::{Expr, JTy, Program};
use java_grammar::{expression, program, spelling, unexpected};
use java_lex::{Token, Tokens};
use java_limits::DEEPEST;
use qbs_base::{Fail, Name, NoMemory, Span};
use readers::{Fault, ReadError};
use std::alloc::Global;

/// The place of a token, or the end of the text.
fn place(tokens: &Tokens, number: usize) -> Span
    ensures { result ≡ place_of tokens.now number }
{
    match tokens.list.as_slice().get(number) {
        Some(token) => token.span,
        None => tokens.end,
    }
}

/// A fault with so many tokens left.
fn fault(tokens: &Tokens, rule: ParseRule, left: usize) -> ParseFault
    ensures { result ≡ fault_at tokens.now rule left }
{
    let number = tokens.list.len().saturating_sub(left);
    ParseFault {
        rule,
        at: place(tokens, number),
        token: number as u64,
    }
}

/// What is wrong with these tokens.
fn broken(tokens: &Tokens, error: Fault) -> ParseFault
    ensures { Fail.Fault result ≡ kept tokens.now (ReadError.Fault error) }
{
    match error {
        Fault::Unexpected(left) => fault(tokens, ParseRule::Unexpected, left),
        Fault::TooDeep(left) => fault(tokens, ParseRule::TooDeep, left),
    }
}

/// Why reading stopped, as a fault of these tokens.
fn fail(tokens: &Tokens, error: ReadError) -> Fail<ParseFault>
    ensures { result ≡ kept tokens.now error }
{
    match error {
        ReadError::Memory => Fail::NoMemory,
        ReadError::Fault(fault) => Fail::Fault(broken(tokens, fault)),
    }
}

fn whole_type(alloc: Global, tokens: &[Token]) -> Result<JTy, ReadError>
    ensures { Gives (λ ty. spelled ty) result (whole spelling_at (all_strict tokens.now)) }
{
    let (ty, rest) = spelling(alloc, tokens)?;
    if !rest.is_empty() {
        return Err(unexpected(rest));
    }
    Ok(ty)
}

fn whole_expression(alloc: Global, tokens: &[Token]) -> Result<Expr, ReadError>
    ensures { Gives (λ e. expression_of e) result (whole (expression_at 64) (all_strict tokens.now)) }
{
    let (expression, rest) = expression(alloc, DEEPEST, tokens)?;
    if !rest.is_empty() {
        return Err(unexpected(rest));
    }
    Ok(Box::into_inner(expression))
}

/// The type that the tokens are, all of them. A fault stands at the first token with which no type
/// goes on, or at the end.
pub fn parse_type(alloc: Global, tokens: &Tokens) -> Result<JTy, Fail<ParseFault>>
    // What is read has these tokens.
    ensures found { IfOk result (λ ty. Spelling (all_strict tokens.now.list) (spelled ty)) }
    // What has these tokens is read, and nothing else has them.
    ensures only { (s : Spelled) → Spelling (all_strict tokens.now.list) s → MatchResult result (λ ty. spelled ty ≡ s) IsNoMemory }
    // A fault is the one that is kept.
    ensures fault { IfErr result (IsKept Spelling tokens.now) }
{
    match whole_type(alloc, tokens.list.as_slice()) {
        Ok(ty) => Ok(ty),
        Err(error) => Err(fail(tokens, error)),
    }
}

/// The column of the key of a sort that the tokens are, all of them. A fault stands at the first
/// token with which no key goes on, or at the end.
pub fn parse_key(tokens: &Tokens) -> Result<&Name, ParseFault>
    // What is read has these tokens.
    ensures found { IfOk result (λ name. Key 64 (all_strict tokens.now.list) name.now) }
    // What has these tokens is read, and nothing else has them.
    ensures only { (column : List ℕ) → Key 64 (all_strict tokens.now.list) column → IsOkAnd result (λ name. name.now ≡ column) }
    // A fault is the one that is kept.
    ensures fault { IfErr result (λ f. IsKept (Key 64) tokens.now (Fail.Fault f)) }
{
    match whole_key(tokens.list.as_slice()) {
        Ok(name) => Ok(name),
        Err(error) => Err(broken(tokens, error)),
    }
}

/// The expression that the tokens are, all of them. At most 64 things are open at a token, and a
/// chain of operators or of parts behind dots has at most 64.
///
/// The fault that is kept stands at the first token with which no expression goes on, or at the end:
/// `TooDeep` where one would go on if the token's depth were left aside, else `Unexpected`.
pub fn parse_expression(alloc: Global, tokens: &Tokens) -> Result<Expr, Fail<ParseFault>>
    // What is read has these tokens.
    ensures found { IfOk result (λ e. HasExpression 64 (all_strict tokens.now.list) (expression_of e)) }
    // What has these tokens is read, and nothing else has them.
    ensures only { (x : Expression) → HasExpression 64 (all_strict tokens.now.list) x → MatchResult result (λ e. expression_of e ≡ x) IsNoMemory }
    // A fault is the one that is kept.
    ensures fault { IfErr result (IsKept (HasExpression 64) tokens.now) }
{
    match whole_expression(alloc, tokens.list.as_slice()) {
        Ok(expression) => Ok(expression),
        Err(error) => Err(fail(tokens, error)),
    }
}

/// Whether reading these tokens, and walking the program, fits the stack.
fn is_light(alloc: Global, room: u32, tokens: &[Token]) -> bool {
    if room <= DEEPEST {
        matches!(fits_stack(alloc, tokens, 10_000, 64, 64), Ok(true))
    } else {
        matches!(fits_stack(alloc, tokens, 10_100, 512, 8193), Ok(true))
    }
}

fn whole_program(alloc: Global, room: u32, tokens: &[Token]) -> Result<Program, ReadError>
    ensures { Gives (λ p. program_of p) result (whole (program_in room) (all_strict tokens.now)) }
{
    if !is_light(alloc, room, tokens) {
        return Err(ReadError::Memory);
    }
    let (program, rest) = program(alloc, room, tokens)?;
    if !rest.is_empty() {
        return Err(unexpected(rest));
    }
    Ok(program)
}

/// The program that the tokens are, all of them, with its places. At most 64 things are open at a
/// token, and a chain of operators or of parts behind dots has at most 64.
///
/// The fault that is kept stands at the first token with which no program goes on, or at the end:
/// `TooDeep` where one would go on if the token's depth were left aside, else `Unexpected`.
///
/// The stack is memory too, and wants where too much stands in each other: a statement and a block weigh five, an open parenthesis four, a dot
/// three and any other operator two, and a sum of 10,000 is the most. A stack of 8 MB is enough for all others, with a third of it to spare.
pub fn parse(alloc: Global, tokens: &Tokens) -> Result<Program, Fail<ParseFault>>
    // What is read has these tokens.
    ensures found { IfOk result (λ p. IsReadable tokens.now.list (program_of p)) }
    // What has these tokens is read, and nothing else has them.
    ensures only { (x : PlainProgram) → IsReadable tokens.now.list x → MatchResult result (λ p. program_of p ≡ x) IsNoMemory }
    // A fault is the one that is kept.
    ensures fault { IfErr result (IsKept HasProgram tokens.now) }
    // It answers what reading from left to right gives.
    ensures exact { AnswersBy (λ p. program_of p) (λ f. f) result (parsed tokens.now) }
{
    match whole_program(alloc, DEEPEST, tokens.list.as_slice()) {
        Ok(program) => Ok(program),
        Err(error) => Err(fail(tokens, error)),
    }
}

/// How many things may be open at a token where the limits of a program are left aside.
const ROOMIEST: u32 = 512;

/// The program that the tokens are, all of them, with its places, the limits of depth left aside, and
/// none where they are no program. It reads canonical texts again, in which one parenthesis more may
/// be open than in the source, and chains may be longer.
///
/// The stack is memory too, and wants where too much stands in each other, as for `parse`: a sum of 10,100 is the most here.
pub fn parse_grammar(alloc: Global, tokens: &Tokens) -> Result<Option<Program>, NoMemory>
    // What is read has these tokens.
    ensures found { IfOk result (λ r. IfSome r (λ p. IsProgram tokens.now.list (program_of p))) }
    // What has these tokens is read, and nothing else has them.
    ensures only { (x : PlainProgram) → IsProgram tokens.now.list x → IfOk result (λ r. IsSomeAnd r (λ p. program_of p ≡ x)) }
{
    match whole_program(alloc, ROOMIEST, tokens.list.as_slice()) {
        Ok(program) => Ok(Some(program)),
        Err(ReadError::Fault(Fault::Unexpected(_))) => Ok(None),
        Err(_) => Err(NoMemory),
    }
}
