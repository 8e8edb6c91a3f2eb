// Types and the keys of a sort.
ghost use Rattle.std.specs.Prelude.{◌≡◌, IfErr};
ghost use Rattle.readers.specs.Reading.{Gives};
ghost use Rattle.java_ast.specs.Reading.{spelled};
ghost use Rattle.java_grammar.specs.Marks.{all_strict};
ghost use Rattle.java_grammar.specs.Reading.{first_is};
ghost use Rattle.java_grammar.specs.ReadingTypes.{element_at, is_word_type, spelling_at, key_column_at, plain_key_at, closed_column_at, typed_key_at, key_at};

use crate::tokens::{
    collection_word, element, is_next_sign, name, opening, plain_type, same_word, sign, table,
};
use crate::words::{collected, is_table, scalar_type};
use java_ast::JTy;
use java_lex::{Token, TokenNode};
use qbs_base::Name;
use readers::ReadError;
use std::alloc::Global;

/// Whether the next token is a type by itself.
pub fn is_next_type(tokens: &[Token]) -> bool
    ensures { result ≡ first_is is_word_type (all_strict tokens.now) }
{
    match tokens {
        [] => false,
        [first, ..] => match &first.node {
            TokenNode::Word(word) => match scalar_type(word.as_str()) {
                Some(_) => true,
                None => is_table(word.as_str()),
            },
            _ => false,
        },
    }
}

/// `<`, what a collection is of, and `>`.
#[tactic(auto, unfolding(crate::specs::ReadingTypes::element_at))]
pub fn elements(tokens: &[Token]) -> Result<(JTy, &[Token]), ReadError>
    ensures { Gives (λ x. (spelled x.0, all_strict x.1.now)) result (element_at (all_strict tokens.now)) }
{
    let rest = sign("<", tokens)?;
    let (ty, rest) = element(rest)?;
    let rest = sign(">", rest)?;
    Ok((ty, rest))
}

/// A type.
#[tactic(auto, unfolding(crate::specs::ReadingTypes::spelling_at))]
pub fn spelling(alloc: Global, tokens: &[Token]) -> Result<(JTy, &[Token]), ReadError>
    ensures { Gives (λ x. (spelled x.0, all_strict x.1.now)) result (spelling_at (all_strict tokens.now)) }
{
    if is_next_type(tokens) {
        return plain_type(tokens);
    }
    let (list, rest) = collection_word(tokens)?;
    let (element, rest) = elements(rest)?;
    let ty = collected(alloc, list, element)?;
    Ok((ty, rest))
}

/// `->`, the name before it, a dot and a column.
#[tactic(auto, unfolding(crate::specs::ReadingTypes::key_column_at))]
fn key_column<'a>(row: &Name, tokens: &'a [Token]) -> Result<(&'a Name, &'a [Token]), ReadError>
    ensures value { Gives (λ x. (x.0.now, all_strict x.1.now)) result (key_column_at row.now (all_strict tokens.now)) }
    ensures no_memory { IfErr result (λ e. e ≡ ReadError.Memory → ⊥) }
{
    let rest = sign("->", tokens)?;
    let rest = same_word(row, rest)?;
    let rest = sign(".", rest)?;
    let (column, rest) = name(rest)?;
    Ok((column, rest))
}

/// A key without a type.
#[tactic(auto, unfolding(crate::specs::ReadingTypes::plain_key_at))]
fn plain_key(tokens: &[Token]) -> Result<(&Name, &[Token]), ReadError>
    ensures value { Gives (λ x. (x.0.now, all_strict x.1.now)) result (plain_key_at (all_strict tokens.now)) }
    ensures no_memory { IfErr result (λ e. e ≡ ReadError.Memory → ⊥) }
{
    let (row, rest) = name(tokens)?;
    let (column, rest) = key_column(row, rest)?;
    Ok((column, rest))
}

/// `)` and what follows it in a key.
#[tactic(auto, unfolding(crate::specs::ReadingTypes::closed_column_at))]
fn closed_column<'a>(row: &Name, tokens: &'a [Token]) -> Result<(&'a Name, &'a [Token]), ReadError>
    ensures value { Gives (λ x. (x.0.now, all_strict x.1.now)) result (closed_column_at row.now (all_strict tokens.now)) }
    ensures no_memory { IfErr result (λ e. e ≡ ReadError.Memory → ⊥) }
{
    let rest = sign(")", tokens)?;
    let (column, rest) = key_column(row, rest)?;
    Ok((column, rest))
}

/// A key with a type.
#[tactic(auto, unfolding(crate::specs::ReadingTypes::typed_key_at))]
fn typed_key(room: u32, tokens: &[Token]) -> Result<(&Name, &[Token]), ReadError>
    ensures value { Gives (λ x. (x.0.now, all_strict x.1.now)) result (typed_key_at room (all_strict tokens.now)) }
    ensures no_memory { IfErr result (λ e. e ≡ ReadError.Memory → ⊥) }
{
    let rest = opening(room, "(", tokens)?;
    let (_, rest) = table(rest)?;
    let (row, rest) = name(rest)?;
    let (column, rest) = closed_column(row, rest)?;
    Ok((column, rest))
}

/// A key of a sort, where so many more things may be open.
#[tactic(auto, unfolding(crate::specs::ReadingTypes::key_at))]
pub fn key(room: u32, tokens: &[Token]) -> Result<(&Name, &[Token]), ReadError>
    ensures value { Gives (λ x. (x.0.now, all_strict x.1.now)) result (key_at room (all_strict tokens.now)) }
    ensures no_memory { IfErr result (λ e. e ≡ ReadError.Memory → ⊥) }
{
    if is_next_sign("(", tokens) {
        return typed_key(room, tokens);
    }
    plain_key(tokens)
}
