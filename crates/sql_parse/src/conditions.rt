// Conditions, with the SELECTs inside them.
ghost use Rattle.std.specs.Prelude.{◌≡◌, List, IfOk, codes, option_map};
ghost use Rattle.std.specs.declared.option.Option.TheVariants.{Some, None};
ghost use Rattle.sql_ast.specs.Reader.{is_word as is_word_token, in_at, source_at, one_at, enclosed_at, atom_at, negation_at, conjunction_at, condition_at};
ghost use Rattle.sql_ast.specs.Tokens as plain;
ghost use Rattle.sql_ast.specs.Written.{WrittenCondition, Both, Either, Not, Compare, Bare, Exists, Within};
ghost use Rattle.sql_parse.specs.Begins.{begun_of, one_begins, column_begins, bare_begun, within_begun, begun_from as begun_behind, begun_at, closed_by};
ghost use Rattle.sql_parse.specs.Calls.{test_at};
ghost use Rattle.sql_parse.specs.Negations.{negations, nots};
ghost use Rattle.sql_parse.specs.Seen.{token_of, tokens_of, Gives};
ghost use Rattle.sql_parse.specs.ReadNames.{read_col_of, read_opnd_of};
ghost use Rattle.sql_parse.specs.Said.{parts_of, filter_of, source_of, condition_of};

use crate::begun::{Begun, ReadCol, ReadOpnd};
use crate::fault::Stop;
use crate::operands::{kept_col, kept_opnd, parts, read_col, read_opnd};
use crate::raw::{RawCond, RawSource};
use crate::token::Token;
use crate::words::{after_word, close, is_word, one as number_one, open, word};
use qbs_base::NoMemory;
use sql_ast::Cmp;
use std::alloc::Global;

// ---- conditions made of others

fn both(alloc: Global, a: Box<RawCond>, b: Box<RawCond>) -> Result<Box<RawCond>, NoMemory>
    ensures { IfOk result (λ c. condition_of c.value ≡ Both (condition_of a.value) (condition_of b.value)) }
{
    Ok(Box::new(alloc, RawCond::Both(a, b))?)
}

fn either(alloc: Global, a: Box<RawCond>, b: Box<RawCond>) -> Result<Box<RawCond>, NoMemory>
    ensures { IfOk result (λ c. condition_of c.value ≡ Either (condition_of a.value) (condition_of b.value)) }
{
    Ok(Box::new(alloc, RawCond::Either(a, b))?)
}

fn not(alloc: Global, a: Box<RawCond>) -> Result<Box<RawCond>, NoMemory>
    ensures { IfOk result (λ c. condition_of c.value ≡ Not (condition_of a.value)) }
{
    Ok(Box::new(alloc, RawCond::Not(a))?)
}

/// A condition behind so many NOTs.
#[tactic(auto, unfolding(crate::specs::Negations::nots))]
fn negated(alloc: Global, count: usize, mut cond: Box<RawCond>) -> Result<Box<RawCond>, NoMemory>
    ensures { IfOk result (λ c. condition_of c.value ≡ nots count (condition_of cond.value)) }
{
    for _ in 0..count {
        cond = not(alloc, cond)?;
    }
    Ok(cond)
}

// ---- tokens

/// How many NOTs stand at the front, and what stands behind them.
fn skip_nots(tokens: &[Token]) -> (usize, &[Token])
    ensures { (result.0, tokens_of result.1.now) ≡ negations (tokens_of tokens.now) }
{
    let mut count = 0;
    let mut rest = tokens;
    while let Some(behind) = after_word("NOT", rest) {
        count += 1;
        rest = behind;
    }
    (count, rest)
}

/// Whether IN or NOT IN stands at the front, and then whether it is NOT IN, and what stands behind.
fn membership(tokens: &[Token]) -> Option<(bool, &[Token])>
    ensures { option_map (λ x. (x.0, tokens_of x.1.now)) result ≡ in_at (tokens_of tokens.now) }
{
    match tokens {
        [] => None,
        [first, rest @ ..] => {
            if is_word("IN", first) {
                return Some((false, rest));
            }
            if is_word("NOT", first) {
                return Some((true, after_word("IN", rest)?));
            }
            None
        }
    }
}

/// A comparison at the front, and what stands behind it.
fn comparison(tokens: &[Token]) -> Option<(Cmp, &[Token])>
    ensures { option_map (λ x. (x.0, tokens_of x.1.now)) result ≡ test_at (tokens_of tokens.now) }
{
    match tokens {
        [Token::Test(cmp), rest @ ..] => Some((*cmp, rest)),
        _ => None,
    }
}

// ---- what a condition begins with

/// The tokens behind `(SELECT 1`.
fn after_one(tokens: &[Token]) -> Result<&[Token], Stop>
    ensures { Gives (λ x. tokens_of x.now) result (one_begins (tokens_of tokens.now)) }
{
    let rest = open(tokens)?;
    let rest = word("SELECT", rest)?;
    number_one(rest)
}

/// The column of `(SELECT COLUMN`.
fn column(tokens: &[Token]) -> Result<(ReadCol<'_>, &[Token]), Stop>
    ensures { Gives (λ x. (read_col_of x.0, tokens_of x.1.now)) result (column_begins (tokens_of tokens.now)) }
{
    let rest = open(tokens)?;
    let rest = word("SELECT", rest)?;
    read_col(rest)
}

/// An operand that is a condition by itself.
fn begun_bare<'a>(opnd: ReadOpnd<'a>, tokens: &'a [Token]) -> Result<Begun<'a>, Stop>
    ensures { Gives begun_of result (bare_begun (read_opnd_of opnd.entry) (tokens_of tokens.now)) }
{
    match opnd {
        ReadOpnd::Column(col) => Ok(Begun::Bare(col, tokens)),
        _ => Err(Stop::Broken),
    }
}

/// A condition whose first operand is read, and that is no comparison.
fn begun_within<'a>(opnd: ReadOpnd<'a>, tokens: &'a [Token]) -> Result<Begun<'a>, Stop>
    ensures { Gives begun_of result (within_begun (read_opnd_of opnd.entry) (tokens_of tokens.now)) }
{
    match membership(tokens) {
        None => begun_bare(opnd, tokens),
        Some((negated, rest)) => {
            let (col, rest) = column(rest)?;
            Ok(Begun::Within(opnd, negated, col, rest))
        }
    }
}

/// A condition whose first operand is read.
#[tactic(auto, using(crate::proofs::Beginning::compared_or_within))]
fn begun_from<'a>(first: ReadOpnd<'a>, tokens: &'a [Token]) -> Result<Begun<'a>, Stop>
    ensures { Gives begun_of result (begun_behind (read_opnd_of first.entry) (tokens_of tokens.now)) }
{
    match comparison(tokens) {
        None => begun_within(first, tokens),
        Some((cmp, rest)) => {
            let (second, rest) = read_opnd(rest)?;
            Ok(Begun::Compared(cmp, first, second, rest))
        }
    }
}

/// A condition without AND, OR and NOT around it.
#[tactic(auto, unfolding(crate::specs::Begins::begun_at))]
fn begun(tokens: &[Token]) -> Result<Begun<'_>, Stop>
    ensures { Gives begun_of result (begun_at (tokens_of tokens.now)) }
{
    match tokens {
        [] => Err(Stop::Broken),
        [Token::Open, rest @ ..] => Ok(Begun::Group(rest)),
        [first, rest @ ..] => {
            if is_word("EXISTS", first) {
                return Ok(Begun::Exists(after_one(rest)?));
            }
            let (first, rest) = read_opnd(tokens)?;
            begun_from(first, rest)
        }
    }
}

// ---- how a condition goes on

/// A condition in parentheses, behind the condition.
fn closed(cond: Box<RawCond>, tokens: &[Token]) -> Result<(Box<RawCond>, &[Token]), Stop>
    ensures { Gives (λ x. (condition_of x.0.value, tokens_of x.1.now)) result (closed_by (condition_of cond.value) (tokens_of tokens.now)) }
{
    let rest = close(tokens)?;
    Ok((cond, rest))
}

/// EXISTS, behind its source.
fn exists(
    alloc: Global,
    source: RawSource,
    tokens: &[Token],
) -> Result<(Box<RawCond>, &[Token]), Stop>
    ensures { Gives (λ x. (condition_of x.0.value, tokens_of x.1.now)) result (closed_by (Exists (parts_of source.parts) (filter_of source.filter)) (tokens_of tokens.now)) }
{
    let RawSource { parts, filter } = source;
    let cond = Box::new(alloc, RawCond::Exists { parts, filter })?;
    closed(cond, tokens)
}

/// IN or NOT IN, behind its source.
fn within<'a>(
    alloc: Global,
    opnd: ReadOpnd<'a>,
    negated: bool,
    col: ReadCol<'a>,
    source: RawSource,
    tokens: &'a [Token],
) -> Result<(Box<RawCond>, &'a [Token]), Stop>
    ensures { Gives (λ x. (condition_of x.0.value, tokens_of x.1.now)) result (closed_by (Within (read_opnd_of opnd.entry) negated (read_col_of col.entry) (parts_of source.parts) (filter_of source.filter)) (tokens_of tokens.now)) }
{
    let source = Box::new(alloc, source)?;
    let opnd = Box::new(alloc, kept_opnd(opnd)?)?;
    let col = kept_col(col)?;
    let RawSource { parts, filter } = Box::into_inner(source);
    let opnd = Box::into_inner(opnd);
    let cond = Box::new(
        alloc,
        RawCond::Within {
            opnd,
            negated,
            col,
            parts,
            filter,
        },
    )?;
    closed(cond, tokens)
}

fn compared<'a>(
    alloc: Global,
    cmp: Cmp,
    first: ReadOpnd<'a>,
    second: ReadOpnd<'a>,
    tokens: &'a [Token],
) -> Result<(Box<RawCond>, &'a [Token]), Stop>
    ensures { Gives {Y = WrittenCondition × List plain.Token} (λ x. (condition_of x.0.value, tokens_of x.1.now)) result (Some (Compare cmp (read_opnd_of first.entry) (read_opnd_of second.entry), tokens_of tokens.now)) }
{
    let first = kept_opnd(first)?;
    let second = kept_opnd(second)?;
    let cond = Box::new(alloc, RawCond::Compare(cmp, first, second))?;
    Ok((cond, tokens))
}

fn bare<'a>(
    alloc: Global,
    col: ReadCol<'a>,
    tokens: &'a [Token],
) -> Result<(Box<RawCond>, &'a [Token]), Stop>
    ensures { Gives {Y = WrittenCondition × List plain.Token} (λ x. (condition_of x.0.value, tokens_of x.1.now)) result (Some (Bare (read_col_of col.entry), tokens_of tokens.now)) }
{
    let cond = Box::new(alloc, RawCond::Bare(kept_col(col)?))?;
    Ok((cond, tokens))
}

// ---- conditions and sources, where `room` more parentheses and SELECTs may be open

/// FROM and WHERE.
#[cycle(condition)]
#[tactic(auto, using(crate::proofs::Beginning::where_is))]
pub fn source(alloc: Global, room: usize, tokens: &[Token]) -> Result<(RawSource, &[Token]), Stop>
    ensures { Gives (λ x. (source_of x.0, tokens_of x.1.now)) result (source_at (condition_at room) (tokens_of tokens.now)) }
{
    let rest = word("FROM", tokens)?;
    let (parts, rest) = parts(alloc, rest)?;
    match after_word("WHERE", rest) {
        None => {
            let filter = None;
            Ok((RawSource { parts, filter }, rest))
        }
        Some(rest) => {
            let (cond, rest) = condition(alloc, room, rest)?;
            let filter = Some(cond);
            Ok((RawSource { parts, filter }, rest))
        }
    }
}

/// A condition without AND, OR and NOT around it.
#[cycle(condition)]
fn atom(alloc: Global, room: usize, tokens: &[Token]) -> Result<(Box<RawCond>, &[Token]), Stop>
    ensures { Gives (λ x. (condition_of x.0.value, tokens_of x.1.now)) result (atom_at (condition_at room) (tokens_of tokens.now)) }
{
    match begun(tokens)? {
        Begun::Group(rest) => {
            let (cond, rest) = condition(alloc, room, rest)?;
            closed(cond, rest)
        }
        Begun::Exists(rest) => {
            let (source, rest) = source(alloc, room, rest)?;
            exists(alloc, source, rest)
        }
        Begun::Within(opnd, negated, col, rest) => {
            let (source, rest) = source(alloc, room, rest)?;
            within(alloc, opnd, negated, col, source, rest)
        }
        Begun::Compared(cmp, first, second, rest) => compared(alloc, cmp, first, second, rest),
        Begun::Bare(col, rest) => bare(alloc, col, rest),
    }
}

#[cycle(condition)]
fn negation(alloc: Global, room: usize, tokens: &[Token]) -> Result<(Box<RawCond>, &[Token]), Stop>
    ensures { Gives (λ x. (condition_of x.0.value, tokens_of x.1.now)) result (negation_at (atom_at (condition_at room)) (tokens_of tokens.now)) }
{
    let (count, rest) = skip_nots(tokens);
    let (cond, rest) = atom(alloc, room, rest)?;
    let whole = negated(alloc, count, cond)?;
    Ok((whole, rest))
}

#[cycle(condition)]
fn conjunction(
    alloc: Global,
    room: usize,
    tokens: &[Token],
) -> Result<(Box<RawCond>, &[Token]), Stop>
    ensures { Gives (λ x. (condition_of x.0.value, tokens_of x.1.now)) result (conjunction_at (condition_at room) (tokens_of tokens.now)) }
{
    let (mut left, mut rest) = negation(alloc, room, tokens)?;
    // Each turn reads a token at least.
    for _ in 0..rest.len() {
        let Some(behind) = after_word("AND", rest) else {
            return Ok((left, rest));
        };
        let (right, after) = negation(alloc, room, behind)?;
        let joined = both(alloc, left, right)?;
        left = joined;
        rest = after;
    }
    Ok((left, rest))
}

#[cycle(condition)]
pub fn condition(
    alloc: Global,
    room: usize,
    tokens: &[Token],
) -> Result<(Box<RawCond>, &[Token]), Stop>
    ensures { Gives (λ x. (condition_of x.0.value, tokens_of x.1.now)) result (condition_at room (tokens_of tokens.now)) }
{
    let Some(room) = room.checked_sub(1) else {
        return Err(Stop::Broken);
    };
    let (mut left, mut rest) = conjunction(alloc, room, tokens)?;
    // Each turn reads a token at least.
    for _ in 0..rest.len() {
        let Some(behind) = after_word("OR", rest) else {
            return Ok((left, rest));
        };
        let (right, after) = conjunction(alloc, room, behind)?;
        let joined = either(alloc, left, right)?;
        left = joined;
        rest = after;
    }
    Ok((left, rest))
}

/// `(SELECT 1 ..)`.
#[tactic(auto, using(crate::proofs::Beginning::one_is))]
pub fn one(alloc: Global, room: usize, tokens: &[Token]) -> Result<(RawSource, &[Token]), Stop>
    ensures { Gives (λ x. (source_of x.0, tokens_of x.1.now)) result (enclosed_at (one_at (condition_at room)) (tokens_of tokens.now)) }
{
    let rest = after_one(tokens)?;
    let (source, rest) = source(alloc, room, rest)?;
    let rest = close(rest)?;
    Ok((source, rest))
}
