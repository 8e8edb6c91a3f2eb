// The tokens of a text, from left to right.
ghost use Rattle.std.specs.Prelude.{◌≡◌, ◌∷◌, ◌++◌, ◌<◌, IfOk, OnOk, length, option_map, true, Some};
ghost use Rattle.std.specs.Char.{is_ascii_digit};
ghost use Rattle.sql_ast.specs.Lexer.{quoted_at, word_at, digits_at, negative_at, param_at, after_less as less_behind, after_greater as greater_behind, after_mark as mark_behind, sign_at, token_at, tokens_in};
ghost use Rattle.sql_ast.specs.Tokens.{Digits};
ghost use Rattle.sql_parse.specs.Seen.{token_of, tokens_of, Gives};
ghost use Rattle.sql_parse.specs.Pieces.{other_at, piece_at, kept, all_read, quote_behind};

use crate::bytes::{digits_len, name_len, split_ascii};
use crate::fault::Stop;
use crate::token::{Numeral, Token};
use qbs_base::{NoMemory, Text, is_name_start, is_white};
use sql_ast::Cmp;
use std::alloc::Global;

/// An ASCII byte and a text, as one text.
fn joined(alloc: Global, first: u8, rest: &str) -> Result<Text, NoMemory>
    requires { first < 128 }
    ensures { IfOk result (λ text. text ≡ first ∷ rest.now) }
{
    let mut text = String::new(alloc);
    text.push(char::from(first))?;
    text.push_str(rest)?;
    Ok(Text::from_string(text))
}

/// A word, behind its first byte.
fn word(alloc: Global, first: u8, text: &str) -> Result<(Token, &str), NoMemory>
    requires { first < 128 }
    ensures { IfOk result (λ x. word_at first text.now ≡ Some (token_of x.0, x.1.now)) }
{
    let (name, rest) = text.split_at(name_len(text));
    Ok((Token::Word(joined(alloc, first, name)?), rest))
}

/// Digits, behind the first one.
#[tactic(auto, using(crate::proofs::Ascii::digits_are_number))]
fn numeral(alloc: Global, first: u8, text: &str) -> Result<(Numeral, &str), NoMemory>
    requires { is_ascii_digit first ≡ true }
    ensures { IfOk result (λ x. digits_at first text.now ≡ Some (Digits x.0, x.1.now)) }
{
    let (digits, rest) = text.split_at(digits_len(text));
    Ok((Numeral::new(joined(alloc, first, digits)?), rest))
}

/// A negative number, behind its minus.
fn negative(alloc: Global, text: &str) -> Result<(Token, &str), Stop>
    ensures { Gives (λ x. (token_of x.0, x.1.now)) result (negative_at text.now) }
{
    match split_ascii(text) {
        Some((first, rest)) if first.is_ascii_digit() => {
            let (digits, rest) = numeral(alloc, first, rest)?;
            Ok((Token::Negative(digits), rest))
        }
        _ => Err(Stop::Broken),
    }
}

/// What stands behind a quote, if one stands at the front.
fn after_quote(text: &str) -> Option<&str>
    ensures { option_map (λ x. x.now) result ≡ quote_behind text.now }
{
    match split_ascii(text) {
        Some((b'\'', rest)) => Some(rest),
        _ => None,
    }
}

/// What a text in quotes stands for, behind its opening quote: each quote in it stands twice.
fn quoted(alloc: Global, text: &str) -> Result<(Text, &str), Stop>
    ensures { Gives (λ x. (x.0, x.1.now)) result (quoted_at text.now) }
{
    let mut out = String::new(alloc);
    let mut rest = text;
    while let Some((before, after)) = rest.split_once('\'') {
        out.push_str(before)?;
        match after_quote(after) {
            None => return Ok((Text::from_string(out), after)),
            Some(further) => {
                out.push_str("'")?;
                rest = further;
            }
        }
    }
    Err(Stop::Broken)
}

/// The number of a parameter, behind its question mark.
fn param(text: &str) -> Option<(Token, &str)>
    ensures { option_map (λ x. (token_of x.0, x.1.now)) result ≡ param_at text.now }
{
    match split_ascii(text) {
        Some((digit, rest)) if b'1' <= digit && digit <= b'9' => {
            Some((Token::Param(u32::from(digit - b'0')), rest))
        }
        _ => None,
    }
}

fn after_less(text: &str) -> (Token, &str)
    ensures { (token_of result.0, result.1.now) ≡ less_behind text.now }
{
    match split_ascii(text) {
        Some((b'=', rest)) => (Token::Test(Cmp::Le), rest),
        Some((b'>', rest)) => (Token::Test(Cmp::Ne), rest),
        _ => (Token::Test(Cmp::Lt), text),
    }
}

fn after_greater(text: &str) -> (Token, &str)
    ensures { (token_of result.0, result.1.now) ≡ greater_behind text.now }
{
    match split_ascii(text) {
        Some((b'=', rest)) => (Token::Test(Cmp::Ge), rest),
        _ => (Token::Test(Cmp::Gt), text),
    }
}

fn after_mark(text: &str) -> Option<(Token, &str)>
    ensures { option_map (λ x. (token_of x.0, x.1.now)) result ≡ mark_behind text.now }
{
    match split_ascii(text) {
        Some((b'=', rest)) => Some((Token::Test(Cmp::Ne), rest)),
        _ => None,
    }
}

/// A comparison or a mark of punctuation, behind its first byte.
fn sign(first: u8, text: &str) -> Option<(Token, &str)>
    ensures { option_map (λ x. (token_of x.0, x.1.now)) result ≡ sign_at first text.now }
{
    match first {
        b'=' => Some((Token::Test(Cmp::Eq), text)),
        b'<' => Some(after_less(text)),
        b'>' => Some(after_greater(text)),
        b'!' => after_mark(text),
        b'(' => Some((Token::Open, text)),
        b')' => Some((Token::Close, text)),
        b',' => Some((Token::Comma, text)),
        b'.' => Some((Token::Dot, text)),
        b'*' => Some((Token::Star, text)),
        _ => None,
    }
}

/// A number, or else a text, a parameter or a sign, behind its first byte.
fn other(alloc: Global, first: u8, text: &str) -> Result<(Token, &str), Stop>
    ensures { Gives (λ x. (token_of x.0, x.1.now)) result (other_at first text.now) }
{
    if first == b'-' {
        return negative(alloc, text);
    }
    if first == b'\'' {
        let (text, rest) = quoted(alloc, text)?;
        return Ok((Token::Quoted(text), rest));
    }
    let token = if first == b'?' {
        param(text)
    } else {
        sign(first, text)
    };
    token.ok_or(Stop::Broken)
}

/// White space or a token, behind its first byte.
#[tactic(auto, unfolding(crate::specs::Pieces::piece_at))]
fn piece(alloc: Global, first: u8, text: &str) -> Result<(Option<Token>, &str), Stop>
    requires { first < 128 }
    ensures { Gives (λ x. (option_map token_of x.0, x.1.now)) result (piece_at first text.now) }
{
    if is_white(first) {
        return Ok((None, text));
    }
    let (token, rest) = if is_name_start(first) {
        word(alloc, first, text)?
    } else if first.is_ascii_digit() {
        let (digits, rest) = numeral(alloc, first, text)?;
        (Token::Digits(digits), rest)
    } else {
        other(alloc, first, text)?
    };
    Ok((Some(token), rest))
}

/// Adds a token, if there is one.
fn keep(tokens: &mut Vec<Token>, token: Option<Token>) -> Result<(), NoMemory>
    ensures { OnOk result (tokens_of tokens.new.items ≡ tokens_of tokens.old.items ++ kept (option_map token_of token)) }
{
    if let Some(token) = token {
        tokens.push(token)?;
    }
    Ok(())
}

/// The tokens, if no more of the text is left.
fn ended(tokens: Vec<Token>, rest: &str) -> Result<Vec<Token>, Stop>
    ensures { Gives (λ v. tokens_of v.items) result (all_read (tokens_of tokens.items) rest.now) }
{
    match rest.as_bytes() {
        [] => Ok(tokens),
        _ => Err(Stop::Broken),
    }
}

/// The tokens of a text.
pub fn lex(alloc: Global, text: &str) -> Result<Vec<Token>, Stop>
    ensures { Gives (λ v. tokens_of v.items) result (tokens_in (length text.now) text.now) }
{
    let mut tokens = Vec::new(alloc);
    let mut rest = text;
    // Each piece has a byte at least.
    for _ in 0..text.len() {
        let Some((first, after)) = split_ascii(rest) else {
            return ended(tokens, rest);
        };
        let (token, after) = piece(alloc, first, after)?;
        keep(&mut tokens, token)?;
        rest = after;
    }
    ended(tokens, rest)
}
