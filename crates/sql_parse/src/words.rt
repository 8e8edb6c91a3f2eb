// Single tokens: keywords, marks and names.
ghost use Rattle.std.specs.Prelude.{◌≡◌, ◌++◌, map, not, codes, option_map};
ghost use Rattle.std.specs.List.{list_any};
ghost use Rattle.std.specs.Str.{str_eq_ignore_ascii_case};
ghost use Rattle.sql_ast.specs.Reader.{is_word as is_word_token, after_word as behind_word, after_open as behind_open, after_close as behind_close, after_comma as behind_comma, after_star as behind_star, after_one as behind_one, name_at};
ghost use Rattle.sql_ast.specs.Tokens.{reserved_words, is_free as is_free_name};
ghost use Rattle.sql_parse.specs.Seen.{token_of, tokens_of, Gives};

use crate::fault::Stop;
use crate::token::Token;
use qbs_base::Name;

/// The words that are no names, in any letter case.
const RESERVED: [&str; 17] = [
    "SELECT", "FROM", "WHERE", "GROUP", "BY", "ORDER", "LIMIT", "AND", "OR", "NOT", "EXISTS", "IN",
    "AS", "ASC", "DESC", "TRUE", "FALSE",
];

/// Whether a word is a keyword in any letter case.
pub fn spells(word: &Name, keyword: &str) -> bool
    ensures { result ≡ str_eq_ignore_ascii_case word.now keyword.now }
{
    word.as_slice().eq_ignore_ascii_case(keyword.as_bytes())
}

fn spells_some(word: &Name, keywords: &[&str]) -> bool
    ensures { result ≡ list_any (λ k. str_eq_ignore_ascii_case word.now k.now) keywords.now }
{
    keywords.iter().any(|keyword| spells(word, keyword))
}

/// Whether a word may be a name.
pub fn is_free(word: &Name) -> bool
    ensures { result ≡ is_free_name word.now }
{
    !spells_some(word, &RESERVED)
}

/// Whether a token is a keyword in any letter case.
pub fn is_word(keyword: &str, token: &Token) -> bool
    ensures { result ≡ is_word_token keyword.now (token_of token.now) }
{
    match token {
        Token::Word(word) => spells(word, keyword),
        _ => false,
    }
}

/// The tokens behind a keyword, if it stands at the front.
pub fn after_word<'a>(keyword: &str, tokens: &'a [Token]) -> Option<&'a [Token]>
    ensures { option_map (λ x. tokens_of x.now) result ≡ behind_word keyword.now (tokens_of tokens.now) }
{
    match tokens {
        [first, rest @ ..] if is_word(keyword, first) => Some(rest),
        _ => None,
    }
}

/// The tokens behind a keyword.
pub fn word<'a>(keyword: &str, tokens: &'a [Token]) -> Result<&'a [Token], Stop>
    ensures { Gives (λ x. tokens_of x.now) result (behind_word keyword.now (tokens_of tokens.now)) }
{
    match tokens {
        [first, rest @ ..] if is_word(keyword, first) => Ok(rest),
        _ => Err(Stop::Broken),
    }
}

pub fn open(tokens: &[Token]) -> Result<&[Token], Stop>
    ensures { Gives (λ x. tokens_of x.now) result (behind_open (tokens_of tokens.now)) }
{
    match tokens {
        [Token::Open, rest @ ..] => Ok(rest),
        _ => Err(Stop::Broken),
    }
}

pub fn close(tokens: &[Token]) -> Result<&[Token], Stop>
    ensures { Gives (λ x. tokens_of x.now) result (behind_close (tokens_of tokens.now)) }
{
    match tokens {
        [Token::Close, rest @ ..] => Ok(rest),
        _ => Err(Stop::Broken),
    }
}

/// The tokens behind a star, if one stands at the front.
pub fn after_star(tokens: &[Token]) -> Option<&[Token]>
    ensures { option_map (λ x. tokens_of x.now) result ≡ behind_star (tokens_of tokens.now) }
{
    match tokens {
        [Token::Star, rest @ ..] => Some(rest),
        _ => None,
    }
}

/// The tokens behind a comma, if one stands at the front.
pub fn after_comma(tokens: &[Token]) -> Option<&[Token]>
    ensures { option_map (λ x. tokens_of x.now) result ≡ behind_comma (tokens_of tokens.now) }
{
    match tokens {
        [Token::Comma, rest @ ..] => Some(rest),
        _ => None,
    }
}

/// The tokens behind the number 1, which is written so.
pub fn one(tokens: &[Token]) -> Result<&[Token], Stop>
    ensures { Gives (λ x. tokens_of x.now) result (behind_one (tokens_of tokens.now)) }
{
    match tokens {
        [Token::Digits(digits), rest @ ..] if digits.as_str() == "1" => Ok(rest),
        _ => Err(Stop::Broken),
    }
}

pub fn name(tokens: &[Token]) -> Result<(&Name, &[Token]), Stop>
    ensures { Gives (λ x. (x.0.now, tokens_of x.1.now)) result (name_at (tokens_of tokens.now)) }
{
    match tokens {
        [Token::Word(word), rest @ ..] if is_free(word) => Ok((word, rest)),
        _ => Err(Stop::Broken),
    }
}
