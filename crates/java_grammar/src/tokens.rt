// Single tokens: each function reads one token of its kind and gives the tokens behind it.
ghost use Rattle.std.specs.Prelude.{◌≡◌, ◌<◌, length, not, Ok, IfOk, IfErr};
ghost use Rattle.readers.specs.Reading.{Gives, is_over};
ghost use Rattle.java_ast.specs.Reading.{spelled};
ghost use Rattle.java_grammar.specs.Marks.{all_strict};
ghost use Rattle.java_grammar.specs.Words.{by_word, name_in, table_in, variable_in, text_in, natural_in, element_type as element_of, word_type as type_of_word, scalar_type as scalar_of, collection as collection_of_word};
ghost use Rattle.java_grammar.specs.Reading.{one_at, word_at, sign_at, opening_at, first_is, is_word as is_this_word, is_sign as is_this_sign};

use crate::words::{
    collection, element_type, is_name, is_table, is_variable, scalar_type, word_type,
};
use java_ast::JTy;
use java_lex::{Token, TokenNode};
use qbs_base::{Name, Text};
use readers::{Fault, ReadError};

/// Reading stops at the first of these tokens.
pub fn unexpected(tokens: &[Token]) -> ReadError
    ensures { result ≡ ReadError.Fault (Fault.Unexpected (length tokens.now)) }
{
    ReadError::Fault(Fault::Unexpected(tokens.len()))
}

/// Reading stops at the first of these tokens, which is too deep.
pub fn too_deep(tokens: &[Token]) -> ReadError
    ensures { result ≡ ReadError.Fault (Fault.TooDeep (length tokens.now)) }
{
    ReadError::Fault(Fault::TooDeep(tokens.len()))
}

fn is_word(text: &str, node: &TokenNode) -> bool
    ensures { result ≡ is_this_word text.now node.now }
{
    match node {
        TokenNode::Word(word) => word.as_str() == text,
        _ => false,
    }
}

fn is_sign(text: &str, node: &TokenNode) -> bool
    ensures { result ≡ is_this_sign text.now node.now }
{
    match node {
        TokenNode::Sign(sign) => sign.as_str() == text,
        _ => false,
    }
}

/// Whether the next token is this word.
pub fn is_next_word(text: &str, tokens: &[Token]) -> bool
    ensures { result ≡ first_is (is_this_word text.now) (all_strict tokens.now) }
{
    match tokens {
        [] => false,
        [first, ..] => is_word(text, &first.node),
    }
}

/// Whether the next token is this sign.
pub fn is_next_sign(text: &str, tokens: &[Token]) -> bool
    ensures { result ≡ first_is (is_this_sign text.now) (all_strict tokens.now) }
{
    match tokens {
        [] => false,
        [first, ..] => is_sign(text, &first.node),
    }
}

/// Whether there is no next token, or it is another one than this sign.
pub fn ends_before(text: &str, tokens: &[Token]) -> bool
    ensures { result ≡ is_over (λ t. not (is_this_sign text.now t.token.node)) (all_strict tokens.now) }
{
    match tokens {
        [] => true,
        [first, ..] => !is_sign(text, &first.node),
    }
}

/// Whether there is no next token, or it is another one than this word.
pub fn ends_before_word(text: &str, tokens: &[Token]) -> bool
    ensures { result ≡ is_over (λ t. not (is_this_word text.now t.token.node)) (all_strict tokens.now) }
{
    match tokens {
        [] => true,
        [first, ..] => !is_word(text, &first.node),
    }
}

/// This word.
pub fn word<'a>(text: &str, tokens: &'a [Token]) -> Result<&'a [Token], ReadError>
    ensures value { Gives (λ x. (tt, all_strict x.now)) result (word_at text.now (all_strict tokens.now)) }
    ensures no_memory { IfErr result (λ e. e ≡ ReadError.Memory → ⊥) }
{
    match tokens {
        [first, rest @ ..] if is_word(text, &first.node) => Ok(rest),
        _ => Err(unexpected(tokens)),
    }
}

/// The word that this name is.
pub fn same_word<'a>(name: &Name, tokens: &'a [Token]) -> Result<&'a [Token], ReadError>
    ensures value { Gives (λ x. (tt, all_strict x.now)) result (word_at name.now (all_strict tokens.now)) }
    ensures no_memory { IfErr result (λ e. e ≡ ReadError.Memory → ⊥) }
{
    match tokens {
        [first, rest @ ..] if is_word(name.as_str(), &first.node) => Ok(rest),
        _ => Err(unexpected(tokens)),
    }
}

/// This sign.
pub fn sign<'a>(text: &str, tokens: &'a [Token]) -> Result<&'a [Token], ReadError>
    ensures value { Gives (λ x. (tt, all_strict x.now)) result (sign_at text.now (all_strict tokens.now)) }
    ensures no_memory { IfErr result (λ e. e ≡ ReadError.Memory → ⊥) }
{
    match tokens {
        [first, rest @ ..] if is_sign(text, &first.node) => Ok(rest),
        _ => Err(unexpected(tokens)),
    }
}

/// This sign, which opens something, where so many more may be open.
pub fn opening<'a>(room: u32, text: &str, tokens: &'a [Token]) -> Result<&'a [Token], ReadError>
    ensures value { Gives (λ x. (tt, all_strict x.now)) result (opening_at room text.now (all_strict tokens.now)) }
    ensures room { IfOk result (λ x. 0 < room) }
    ensures no_memory { IfErr result (λ e. e ≡ ReadError.Memory → ⊥) }
{
    match tokens {
        [first, rest @ ..] if is_sign(text, &first.node) => {
            if room == 0 {
                return Err(too_deep(tokens));
            }
            Ok(rest)
        }
        _ => Err(unexpected(tokens)),
    }
}

/// A name.
pub fn name(tokens: &[Token]) -> Result<(&Name, &[Token]), ReadError>
    ensures value { Gives (λ x. (x.0.now, all_strict x.1.now)) result (one_at name_in (all_strict tokens.now)) }
    ensures no_memory { IfErr result (λ e. e ≡ ReadError.Memory → ⊥) }
{
    match tokens {
        [] => Err(unexpected(tokens)),
        [first, rest @ ..] => match &first.node {
            TokenNode::Word(word) if is_name(word.as_str()) => Ok((word, rest)),
            _ => Err(unexpected(tokens)),
        },
    }
}

/// The name of a table.
pub fn table(tokens: &[Token]) -> Result<(&Name, &[Token]), ReadError>
    ensures value { Gives (λ x. (x.0.now, all_strict x.1.now)) result (one_at table_in (all_strict tokens.now)) }
    ensures no_memory { IfErr result (λ e. e ≡ ReadError.Memory → ⊥) }
{
    match tokens {
        [] => Err(unexpected(tokens)),
        [first, rest @ ..] => match &first.node {
            TokenNode::Word(word) if is_table(word.as_str()) => Ok((word, rest)),
            _ => Err(unexpected(tokens)),
        },
    }
}

/// A name that may stand for a variable in an expression.
pub fn variable(tokens: &[Token]) -> Result<(&Name, &[Token]), ReadError>
    ensures value { Gives (λ x. (x.0.now, all_strict x.1.now)) result (one_at variable_in (all_strict tokens.now)) }
    ensures no_memory { IfErr result (λ e. e ≡ ReadError.Memory → ⊥) }
{
    match tokens {
        [] => Err(unexpected(tokens)),
        [first, rest @ ..] => match &first.node {
            TokenNode::Word(word) if is_variable(word.as_str()) => Ok((word, rest)),
            _ => Err(unexpected(tokens)),
        },
    }
}

/// A text literal.
pub fn text(tokens: &[Token]) -> Result<(&Text, &[Token]), ReadError>
    ensures value { Gives (λ x. (x.0.now, all_strict x.1.now)) result (one_at text_in (all_strict tokens.now)) }
    ensures no_memory { IfErr result (λ e. e ≡ ReadError.Memory → ⊥) }
{
    match tokens {
        [] => Err(unexpected(tokens)),
        [first, rest @ ..] => match &first.node {
            TokenNode::Text(text) => Ok((text, rest)),
            _ => Err(unexpected(tokens)),
        },
    }
}

/// An integer from 0 on.
pub fn natural(tokens: &[Token]) -> Result<(i64, &[Token]), ReadError>
    ensures value { Gives (λ x. (x.0, all_strict x.1.now)) result (one_at natural_in (all_strict tokens.now)) }
    ensures no_memory { IfErr result (λ e. e ≡ ReadError.Memory → ⊥) }
{
    match tokens {
        [] => Err(unexpected(tokens)),
        [first, rest @ ..] => match &first.node {
            TokenNode::Integer { value, .. } if *value >= 0 => Ok((*value, rest)),
            _ => Err(unexpected(tokens)),
        },
    }
}

/// A scalar type.
pub fn scalar(tokens: &[Token]) -> Result<(JTy, &[Token]), ReadError>
    ensures value { Gives (λ x. (spelled x.0, all_strict x.1.now)) result (one_at (by_word scalar_of) (all_strict tokens.now)) }
    ensures no_memory { IfErr result (λ e. e ≡ ReadError.Memory → ⊥) }
{
    match tokens {
        [] => Err(unexpected(tokens)),
        [first, rest @ ..] => match &first.node {
            TokenNode::Word(word) => match scalar_type(word.as_str()) {
                Some(ty) => Ok((ty, rest)),
                None => Err(unexpected(tokens)),
            },
            _ => Err(unexpected(tokens)),
        },
    }
}

/// A type of one word.
pub fn plain_type(tokens: &[Token]) -> Result<(JTy, &[Token]), ReadError>
    ensures { Gives (λ x. (spelled x.0, all_strict x.1.now)) result (one_at (by_word type_of_word) (all_strict tokens.now)) }
{
    match tokens {
        [] => Err(unexpected(tokens)),
        [first, rest @ ..] => match &first.node {
            TokenNode::Word(word) => match word_type(word)? {
                Some(ty) => Ok((ty, rest)),
                None => Err(unexpected(tokens)),
            },
            _ => Err(unexpected(tokens)),
        },
    }
}

/// What a list or a set is of.
pub fn element(tokens: &[Token]) -> Result<(JTy, &[Token]), ReadError>
    ensures { Gives (λ x. (spelled x.0, all_strict x.1.now)) result (one_at (by_word element_of) (all_strict tokens.now)) }
{
    match tokens {
        [] => Err(unexpected(tokens)),
        [first, rest @ ..] => match &first.node {
            TokenNode::Word(word) => match element_type(word)? {
                Some(ty) => Ok((ty, rest)),
                None => Err(unexpected(tokens)),
            },
            _ => Err(unexpected(tokens)),
        },
    }
}

/// List or Set: true where it is List.
pub fn collection_word(tokens: &[Token]) -> Result<(bool, &[Token]), ReadError>
    ensures value { Gives (λ x. (x.0, all_strict x.1.now)) result (one_at (by_word collection_of_word) (all_strict tokens.now)) }
    ensures no_memory { IfErr result (λ e. e ≡ ReadError.Memory → ⊥) }
{
    match tokens {
        [] => Err(unexpected(tokens)),
        [first, rest @ ..] => match &first.node {
            TokenNode::Word(word) => match collection(word.as_str()) {
                Some(list) => Ok((list, rest)),
                None => Err(unexpected(tokens)),
            },
            _ => Err(unexpected(tokens)),
        },
    }
}
