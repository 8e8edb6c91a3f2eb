// Whole queries.
ghost use Rattle.std.specs.Prelude.{◌≡◌, codes, length, option_map};
ghost use Rattle.std.specs.declared.option.Option.TheVariants.{Some, None};
ghost use Rattle.sql_ast.specs.Reader.{condition_at, col_at, enclosed_at, item_at, group_at, direction_at, key_at, order_at, most_at, limit_at, listed_at, listing_at, is_single as is_single_list, counted_from, count_at, total_named as total_of_token, total_from, total_at, exists_at, selected_at, query_at, ended, query_in};
ghost use Rattle.sql_parse.specs.Calls.{behind_call, number_within, make_of, whole_of_at, named_item_at};
ghost use Rattle.sql_parse.specs.Seen.{token_of, tokens_of, Gives};
ghost use Rattle.sql_parse.specs.Said.{col_of, filter_of, item_of, key_of, keys_of, kind_of, parts_of, query_of, source_of};
ghost use Rattle.sql_parse.specs.ReadNames.{read_col_of};

use crate::begun::ReadCol;
use crate::conditions::{one, source};
use crate::fault::Stop;
use crate::operands::{col, kept_col, long, read_col};
use crate::raw::{
    RawCol, RawItem, RawKey, RawKeys, RawKind, RawListing, RawNumber, RawPart, RawQuery, RawSource,
    RawTruth,
};
use crate::token::{Numeral, Token};
use crate::words::{after_comma, after_star, after_word, close, is_free, is_word, open, word};
use qbs_base::Name;
use sql_ast::limit_within;
use std::alloc::Global;

/// The alias of `ALIAS.*`, if it stands at the front, and what stands behind.
fn whole_of(tokens: &[Token]) -> Option<(&Name, &[Token])>
    ensures { option_map (λ x. (x.0.now, tokens_of x.1.now)) result ≡ whole_of_at (tokens_of tokens.now) }
{
    match tokens {
        [Token::Word(alias), Token::Dot, Token::Star, rest @ ..] => Some((alias, rest)),
        _ => None,
    }
}

/// A column, or `ALIAS.*`.
fn named_item(tokens: &[Token]) -> Result<(RawItem, &[Token]), Stop>
    ensures { Gives (λ x. (item_of x.0, tokens_of x.1.now)) result (named_item_at (tokens_of tokens.now)) }
{
    match whole_of(tokens) {
        None => {
            let (col, rest) = col(tokens)?;
            Ok((RawItem::Column(col), rest))
        }
        Some((alias, rest)) => {
            if !is_free(alias) {
                return Err(Stop::Broken);
            }
            Ok((RawItem::Whole(Some(alias.clone()?)), rest))
        }
    }
}

/// What a list query takes: `*`, `ALIAS.*` or a column.
#[tactic(auto, using(crate::proofs::Items::star_or_named))]
fn item(tokens: &[Token]) -> Result<(RawItem, &[Token]), Stop>
    ensures { Gives (λ x. (item_of x.0, tokens_of x.1.now)) result (item_at (tokens_of tokens.now)) }
{
    match after_star(tokens) {
        None => named_item(tokens),
        Some(rest) => Ok((RawItem::Whole(None), rest)),
    }
}

/// GROUP BY, or none.
fn group(tokens: &[Token]) -> Result<(Option<RawCol>, &[Token]), Stop>
    ensures { Gives (λ x. (option_map col_of x.0, tokens_of x.1.now)) result (group_at (tokens_of tokens.now)) }
{
    match after_word("GROUP", tokens) {
        None => Ok((None, tokens)),
        Some(rest) => {
            let rest = word("BY", rest)?;
            let (col, rest) = col(rest)?;
            Ok((Some(col), rest))
        }
    }
}

/// A column as a key, with its direction.
fn direction<'a>(col: RawCol, tokens: &'a [Token]) -> (RawKey, &'a [Token])
    ensures { Some (key_of result.0, tokens_of result.1.now) ≡ direction_at (col_of col) (tokens_of tokens.now) }
{
    let least = false;
    if let Some(rest) = after_word("ASC", tokens) {
        let down = false;
        return (RawKey { least, col, down }, rest);
    }
    if let Some(rest) = after_word("DESC", tokens) {
        let down = true;
        return (RawKey { least, col, down }, rest);
    }
    let down = false;
    (RawKey { least, col, down }, tokens)
}

/// What stands behind a word and an open parenthesis, if they stand at the front.
fn after_call<'a>(name: &str, tokens: &'a [Token]) -> Option<&'a [Token]>
    ensures { option_map (λ x. tokens_of x.now) result ≡ behind_call name.now (tokens_of tokens.now) }
{
    match tokens {
        [first, Token::Open, rest @ ..] if is_word(name, first) => Some(rest),
        _ => None,
    }
}

/// A column, or MIN of one.
fn key(tokens: &[Token]) -> Result<(RawKey, &[Token]), Stop>
    ensures { Gives (λ x. (key_of x.0, tokens_of x.1.now)) result (key_at (tokens_of tokens.now)) }
{
    match after_call("MIN", tokens) {
        None => {
            let (col, rest) = col(tokens)?;
            Ok(direction(col, rest))
        }
        Some(rest) => {
            let (col, rest) = col(rest)?;
            let rest = close(rest)?;
            let (least, down) = (true, false);
            Ok((RawKey { least, col, down }, rest))
        }
    }
}

/// Keys with commas between them.
fn keys(alloc: Global, tokens: &[Token]) -> Result<(RawKeys, &[Token]), Stop>
    ensures { Gives (λ x. (keys_of x.0, tokens_of x.1.now)) result (listed_at key_at (length (tokens_of tokens.now)) (tokens_of tokens.now)) }
{
    let mut keys = RawKeys::new(alloc);
    let mut rest = tokens;
    // Each has a token at least.
    for _ in 0..tokens.len() {
        let (key, after) = key(rest)?;
        keys.push(key)?;
        match after_comma(after) {
            Some(next) => rest = next,
            None => return Ok((keys, after)),
        }
    }
    Err(Stop::Broken)
}

/// ORDER BY, or none.
fn order(alloc: Global, tokens: &[Token]) -> Result<(RawKeys, &[Token]), Stop>
    ensures { Gives (λ x. (keys_of x.0, tokens_of x.1.now)) result (order_at (tokens_of tokens.now)) }
{
    match after_word("ORDER", tokens) {
        None => Ok((RawKeys::new(alloc), tokens)),
        Some(rest) => {
            let rest = word("BY", rest)?;
            keys(alloc, rest)
        }
    }
}

fn below_limit(digits: &Numeral) -> Option<u64>
    ensures { result ≡ number_within digits.now }
{
    limit_within(digits.value()?)
}

/// The number of a limit.
fn most(tokens: &[Token]) -> Result<(u64, &[Token]), Stop>
    ensures { Gives (λ x. (Some x.0, tokens_of x.1.now)) result (most_at (tokens_of tokens.now)) }
{
    match tokens {
        [Token::Digits(digits), rest @ ..] => match below_limit(digits) {
            Some(number) => Ok((number, rest)),
            None => Err(Stop::Broken),
        },
        _ => Err(Stop::Broken),
    }
}

/// LIMIT, or none.
fn limit(tokens: &[Token]) -> Result<(Option<u64>, &[Token]), Stop>
    ensures { Gives (λ x. (x.0, tokens_of x.1.now)) result (limit_at (tokens_of tokens.now)) }
{
    match after_word("LIMIT", tokens) {
        None => Ok((None, tokens)),
        Some(rest) => {
            let (number, rest) = most(rest)?;
            Ok((Some(number), rest))
        }
    }
}

/// A query for a list, behind SELECT.
fn listing(alloc: Global, room: usize, tokens: &[Token]) -> Result<(RawQuery, &[Token]), Stop>
    ensures { Gives (λ x. (query_of x.0, tokens_of x.1.now)) result (listing_at (condition_at room) (tokens_of tokens.now)) }
{
    let (item, rest) = item(tokens)?;
    let (source, rest) = source(alloc, room, rest)?;
    let (group, rest) = group(rest)?;
    let (keys, rest) = order(alloc, rest)?;
    let (limit, rest) = limit(rest)?;
    let listing = RawListing {
        item,
        source,
        group,
        keys,
        limit,
    };
    Ok((RawQuery::Listing(listing), rest))
}

// ---- queries for a number

fn is_single(parts: &[RawPart]) -> bool
    ensures { result ≡ is_single_list (parts_of parts.now) }
{
    matches!(parts, [_])
}

/// A number query over one FROM item.
fn counted<'a>(
    kind: RawKind,
    source: RawSource,
    tokens: &'a [Token],
) -> Result<(RawQuery, &'a [Token]), Stop>
    ensures { Gives (λ x. (query_of x.0, tokens_of x.1.now)) result (counted_from (kind_of kind) (source_of source) (tokens_of tokens.now)) }
{
    if !is_single(source.parts.as_slice()) {
        return Err(Stop::Broken);
    }
    Ok((RawQuery::Number(RawNumber { kind, source }), tokens))
}

/// COUNT, behind its open parenthesis.
fn count(alloc: Global, room: usize, tokens: &[Token]) -> Result<(RawQuery, &[Token]), Stop>
    ensures { Gives (λ x. (query_of x.0, tokens_of x.1.now)) result (count_at (condition_at room) (tokens_of tokens.now)) }
{
    let rest = after_star(tokens).ok_or(Stop::Broken)?;
    let rest = close(rest)?;
    let (source, rest) = source(alloc, room, rest)?;
    counted(RawKind::Count, source, rest)
}

/// What a number query makes of a column.
#[derive(Clone, Copy)]
enum Total {
    Sum,
    Max,
    Min,
}

/// The total that a token names.
fn total_named(token: &Token) -> Option<Total>
    ensures { option_map make_of result ≡ total_of_token (token_of token.now) }
{
    if is_word("SUM", token) {
        Some(Total::Sum)
    } else if is_word("MAX", token) {
        Some(Total::Max)
    } else if is_word("MIN", token) {
        Some(Total::Min)
    } else {
        None
    }
}

fn kind(total: Total, col: RawCol, other: i64) -> RawKind
    ensures { kind_of result ≡ make_of total (col_of col) other }
{
    match total {
        Total::Sum => RawKind::Sum(col, other),
        Total::Max => RawKind::Max(col, other),
        Total::Min => RawKind::Min(col, other),
    }
}

/// A total of a kind, where a sum has one FROM item.
fn totalled<'a>(
    kind: RawKind,
    source: RawSource,
    tokens: &'a [Token],
) -> Result<(RawQuery, &'a [Token]), Stop>
    ensures { Gives (λ x. (query_of x.0, tokens_of x.1.now)) result (total_from (kind_of kind) (source_of source) (tokens_of tokens.now)) }
{
    if matches!(&kind, RawKind::Sum(_, _)) {
        return counted(kind, source, tokens);
    }
    Ok((RawQuery::Number(RawNumber { kind, source }), tokens))
}

/// A column in parentheses.
fn enclosed_col(tokens: &[Token]) -> Result<(ReadCol<'_>, &[Token]), Stop>
    ensures { Gives (λ x. (read_col_of x.0, tokens_of x.1.now)) result (enclosed_at col_at (tokens_of tokens.now)) }
{
    let rest = open(tokens)?;
    let (col, rest) = read_col(rest)?;
    let rest = close(rest)?;
    Ok((col, rest))
}

/// COALESCE, behind its open parenthesis.
fn coalesced(alloc: Global, room: usize, tokens: &[Token]) -> Result<(RawQuery, &[Token]), Stop>
    ensures { Gives (λ x. (query_of x.0, tokens_of x.1.now)) result (total_at (condition_at room) (tokens_of tokens.now)) }
{
    let Some((first, rest)) = tokens.split_first() else {
        return Err(Stop::Broken);
    };
    let total = total_named(first).ok_or(Stop::Broken)?;
    let (col, rest) = enclosed_col(rest)?;
    let rest = after_comma(rest).ok_or(Stop::Broken)?;
    let (other, rest) = long(rest)?;
    let rest = close(rest)?;
    let col = kept_col(col)?;
    let (source, rest) = source(alloc, room, rest)?;
    totalled(kind(total, col, other), source, rest)
}

// ---- all queries

/// Whether EXISTS or NOT EXISTS stands at the front, then whether it is NOT EXISTS, and what stands
/// behind.
fn existence(tokens: &[Token]) -> Option<(bool, &[Token])>
    ensures { option_map (λ x. (x.0, tokens_of x.1.now)) result ≡ exists_at (tokens_of tokens.now) }
{
    match tokens {
        [] => None,
        [first, rest @ ..] => {
            if is_word("EXISTS", first) {
                return Some((false, rest));
            }
            if is_word("NOT", first) {
                return Some((true, after_word("EXISTS", rest)?));
            }
            None
        }
    }
}

/// A query for a number or a list, behind SELECT.
#[tactic(auto, using(crate::proofs::Items::selected_by_call))]
fn selected(alloc: Global, room: usize, tokens: &[Token]) -> Result<(RawQuery, &[Token]), Stop>
    ensures { Gives (λ x. (query_of x.0, tokens_of x.1.now)) result (selected_at (condition_at room) (tokens_of tokens.now)) }
{
    if let Some(rest) = after_call("COUNT", tokens) {
        return count(alloc, room, rest);
    }
    if let Some(rest) = after_call("COALESCE", tokens) {
        return coalesced(alloc, room, rest);
    }
    listing(alloc, room, tokens)
}

fn query(alloc: Global, room: usize, tokens: &[Token]) -> Result<(RawQuery, &[Token]), Stop>
    ensures { Gives (λ x. (query_of x.0, tokens_of x.1.now)) result (query_at (condition_at room) (tokens_of tokens.now)) }
{
    let rest = word("SELECT", tokens)?;
    match existence(rest) {
        None => selected(alloc, room, rest),
        Some((negated, rest)) => {
            let (source, rest) = one(alloc, room, rest)?;
            Ok((RawQuery::Truth(RawTruth { negated, source }), rest))
        }
    }
}

/// The query, if no more tokens are left.
fn whole(query: Box<RawQuery>, rest: &[Token]) -> Result<Box<RawQuery>, Stop>
    ensures { Gives (λ q. query_of q.value) result (ended (query_of query.value, tokens_of rest.now)) }
{
    match rest {
        [] => Ok(query),
        [_, ..] => Err(Stop::Broken),
    }
}

/// What all of the tokens say.
pub fn read(alloc: Global, tokens: &[Token]) -> Result<Box<RawQuery>, Stop>
    ensures { Gives (λ q. query_of q.value) result (query_in (tokens_of tokens.now)) }
{
    // No more parentheses are open than there are tokens. A list in memory has no 2^64 of them.
    let Some(room) = tokens.len().checked_add(1) else {
        return Err(Stop::NoMemory);
    };
    let (query, rest) = query(alloc, room, tokens)?;
    let boxed = Box::new(alloc, query)?;
    whole(boxed, rest)
}
