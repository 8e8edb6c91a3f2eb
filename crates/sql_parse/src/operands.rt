// Columns, numbers, operands and FROM items.
ghost use Rattle.std.specs.Prelude.{◌≡◌, ◌∷◌, codes, IfOk, option_map};
ghost use Rattle.std.specs.declared.option.Option.TheVariants.{Some, None};
ghost use Rattle.sql_ast.specs.Reader.{col_at, col_from as col_behind, long_of as long_of_token, long_at, word_opnd as word_opnd_at, opnd_at, part_from as part_behind, part_at, parts_at};
ghost use Rattle.sql_ast.specs.Tokens.{Word, Digits, Negative};
ghost use Rattle.sql_parse.specs.Operands.{long_opnd_at};
ghost use Rattle.sql_parse.specs.Seen.{token_of, tokens_of, Gives};
ghost use Rattle.sql_parse.specs.ReadNames.{read_col_of, read_opnd_of, read_part_of};
ghost use Rattle.sql_parse.specs.Said.{col_of, opnd_of, part_of, parts_of};

use crate::begun::{ReadCol, ReadOpnd, ReadPart};
use crate::fault::Stop;
use crate::raw::{RawCol, RawOpnd, RawPart, RawParts};
use crate::token::{Numeral, Token};
use crate::words::{after_comma, is_free, name, spells};
use qbs_base::{Name, NoMemory, Scalar};
use std::alloc::Global;

/// A column whose first name is read.
fn col_from<'a>(first: &'a Name, tokens: &'a [Token]) -> Result<(ReadCol<'a>, &'a [Token]), Stop>
    ensures { Gives (λ x. (read_col_of x.0, tokens_of x.1.now)) result (col_behind first.now (tokens_of tokens.now)) }
{
    match tokens {
        [Token::Dot, rest @ ..] => {
            let (name, rest) = name(rest)?;
            let alias = Some(first);
            Ok((ReadCol { alias, name }, rest))
        }
        _ => {
            let (alias, name) = (None, first);
            Ok((ReadCol { alias, name }, tokens))
        }
    }
}

/// A column, with names that stand among the tokens.
pub fn read_col(tokens: &[Token]) -> Result<(ReadCol<'_>, &[Token]), Stop>
    ensures { Gives (λ x. (read_col_of x.0, tokens_of x.1.now)) result (col_at (tokens_of tokens.now)) }
{
    let (first, rest) = name(tokens)?;
    col_from(first, rest)
}

fn kept_alias(alias: Option<&Name>) -> Result<Option<Name>, NoMemory>
    ensures { IfOk result (λ a. a ≡ option_map (λ b. b.now) alias.entry) }
{
    match alias {
        None => Ok(None),
        Some(alias) => Ok(Some(alias.clone()?)),
    }
}

/// A column with names of its own.
pub fn kept_col(col: ReadCol<'_>) -> Result<RawCol, NoMemory>
    ensures { IfOk result (λ c. col_of c ≡ read_col_of col.entry) }
{
    let alias = kept_alias(col.alias)?;
    let name = col.name.clone()?;
    Ok(RawCol { alias, name })
}

/// A column, with names of its own.
pub fn col(tokens: &[Token]) -> Result<(RawCol, &[Token]), Stop>
    ensures { Gives (λ x. (col_of x.0, tokens_of x.1.now)) result (col_at (tokens_of tokens.now)) }
{
    let (col, rest) = read_col(tokens)?;
    Ok((kept_col(col)?, rest))
}

fn positive(digits: &Numeral) -> Option<i64>
    ensures { result ≡ long_of_token (Digits digits.now) }
{
    i64::try_from(digits.value()?).ok()
}

fn negative(digits: &Numeral) -> Option<i64>
    ensures { result ≡ long_of_token (Negative digits.now) }
{
    let number = digits.value()?;
    if number == 0 {
        return Some(0);
    }
    let below = i64::try_from(number - 1).ok()?;
    Some(-1 - below)
}

/// The number that a token is, within 64 bits.
fn long_of(token: &Token) -> Option<i64>
    ensures { result ≡ long_of_token (token_of token.now) }
{
    match token {
        Token::Digits(digits) => positive(digits),
        Token::Negative(digits) => negative(digits),
        _ => None,
    }
}

pub fn long(tokens: &[Token]) -> Result<(i64, &[Token]), Stop>
    ensures { Gives (λ x. (x.0, tokens_of x.1.now)) result (long_at (tokens_of tokens.now)) }
{
    match tokens {
        [] => Err(Stop::Broken),
        [first, rest @ ..] => match long_of(first) {
            Some(number) => Ok((number, rest)),
            None => Err(Stop::Broken),
        },
    }
}

/// A truth value, or the column that a word begins.
fn word_opnd<'a>(
    word: &Name,
    rest: &'a [Token],
    tokens: &'a [Token],
) -> Result<(ReadOpnd<'a>, &'a [Token]), Stop>
    requires { tokens_of tokens.now ≡ Word word.now ∷ tokens_of rest.now }
    ensures { Gives (λ x. (read_opnd_of x.0, tokens_of x.1.now)) result (word_opnd_at word.now (tokens_of rest.now)) }
{
    if spells(word, "TRUE") {
        return Ok((ReadOpnd::Truth(true), rest));
    }
    if spells(word, "FALSE") {
        return Ok((ReadOpnd::Truth(false), rest));
    }
    let (col, rest) = read_col(tokens)?;
    Ok((ReadOpnd::Column(col), rest))
}

/// A literal number.
fn long_opnd(tokens: &[Token]) -> Result<(ReadOpnd<'_>, &[Token]), Stop>
    ensures { Gives (λ x. (read_opnd_of x.0, tokens_of x.1.now)) result (long_opnd_at (tokens_of tokens.now)) }
{
    let (number, rest) = long(tokens)?;
    Ok((ReadOpnd::Long(number), rest))
}

/// An operand, with names and texts that stand among the tokens.
pub fn read_opnd(tokens: &[Token]) -> Result<(ReadOpnd<'_>, &[Token]), Stop>
    ensures { Gives (λ x. (read_opnd_of x.0, tokens_of x.1.now)) result (opnd_at (tokens_of tokens.now)) }
{
    match tokens {
        [] => Err(Stop::Broken),
        [first, rest @ ..] => match first {
            Token::Word(word) => word_opnd(word, rest, tokens),
            Token::Quoted(text) => Ok((ReadOpnd::Text(text), rest)),
            Token::Param(number) => Ok((ReadOpnd::Param(*number), rest)),
            _ => long_opnd(tokens),
        },
    }
}

/// An operand with names and texts of its own.
pub fn kept_opnd(opnd: ReadOpnd<'_>) -> Result<RawOpnd, NoMemory>
    ensures { IfOk result (λ o. opnd_of o ≡ read_opnd_of opnd.entry) }
{
    match opnd {
        ReadOpnd::Column(col) => Ok(RawOpnd::Column(kept_col(col)?)),
        ReadOpnd::Truth(truth) => Ok(RawOpnd::Lit(Scalar::Bool(truth))),
        ReadOpnd::Long(number) => Ok(RawOpnd::Lit(Scalar::Long(number))),
        ReadOpnd::Text(text) => Ok(RawOpnd::Lit(Scalar::Text(text.clone()?))),
        ReadOpnd::Param(number) => Ok(RawOpnd::Param(number)),
    }
}

/// A table whose name is read.
fn part_from<'a>(table: &'a Name, tokens: &'a [Token]) -> Result<(ReadPart<'a>, &'a [Token]), Stop>
    ensures { Gives (λ x. (read_part_of x.0, tokens_of x.1.now)) result (part_behind table.now (tokens_of tokens.now)) }
{
    match tokens {
        [Token::Word(word), rest @ ..] => {
            if spells(word, "AS") {
                let (alias, rest) = name(rest)?;
                let alias = Some(alias);
                return Ok((ReadPart { table, alias }, rest));
            }
            if is_free(word) {
                let alias = Some(word);
                return Ok((ReadPart { table, alias }, rest));
            }
            let alias = None;
            Ok((ReadPart { table, alias }, tokens))
        }
        _ => {
            let alias = None;
            Ok((ReadPart { table, alias }, tokens))
        }
    }
}

/// A table with names of its own.
fn kept_part(part: ReadPart<'_>) -> Result<RawPart, NoMemory>
    ensures { IfOk result (λ p. part_of p ≡ read_part_of part.entry) }
{
    let alias = kept_alias(part.alias)?;
    let table = part.table.clone()?;
    Ok(RawPart { table, alias })
}

/// A table with or without an alias.
fn part(tokens: &[Token]) -> Result<(RawPart, &[Token]), Stop>
    ensures { Gives (λ x. (part_of x.0, tokens_of x.1.now)) result (part_at (tokens_of tokens.now)) }
{
    let (table, rest) = name(tokens)?;
    let (part, rest) = part_from(table, rest)?;
    Ok((kept_part(part)?, rest))
}

/// FROM items with commas between them.
pub fn parts(alloc: Global, tokens: &[Token]) -> Result<(RawParts, &[Token]), Stop>
    ensures { Gives (λ x. (parts_of x.0, tokens_of x.1.now)) result (parts_at (tokens_of tokens.now)) }
{
    let mut parts = RawParts::new(alloc);
    let mut rest = tokens;
    // Each has a token at least.
    for _ in 0..tokens.len() {
        let (part, after) = part(rest)?;
        parts.push(part)?;
        match after_comma(after) {
            Some(next) => rest = next,
            None => return Ok((parts, after)),
        }
    }
    Err(Stop::Broken)
}
