// The keys of a sort. They are read here by readers that need no memory, so that none can be wanting.
ghost use Rattle.std.specs.Prelude.{◌≡◌, length};
ghost use Rattle.readers.specs.Reading.{whole};
ghost use Rattle.java_grammar.specs.Marks.{all_strict};
ghost use Rattle.java_grammar.specs.Words.{is_name as may_be_name, is_table as may_be_table, name_in, table_in};
ghost use Rattle.java_grammar.specs.Reading.{one_at, word_at, sign_at, opening_at, is_word as is_this_word, is_sign as is_this_sign};
ghost use Rattle.java_grammar.specs.ReadingTypes.{key_column_at, plain_key_at, closed_column_at, typed_key_at, key_at};
ghost use Rattle.java_parser.specs.Exact.{GivesExactly};

use java_lex::{Token, TokenNode};
use java_words::{is_reserved_word, is_type_word};
use qbs_base::Name;
use readers::Fault;

/// Reading stops at the first of these tokens.
fn unexpected(tokens: &[Token]) -> Fault
    ensures { result ≡ Fault.Unexpected (length tokens.now) }
{
    Fault::Unexpected(tokens.len())
}

fn is_name(word: &str) -> bool
    ensures { result ≡ may_be_name word.now }
{
    !is_reserved_word(word)
}

fn is_table(word: &str) -> bool
    ensures { result ≡ may_be_table word.now }
{
    is_name(word) && !is_type_word(word)
}

fn is_word(text: &str, node: &TokenNode) -> bool
    ensures { result ≡ is_this_word text.now node.now }
{
    match node {
        TokenNode::Word(word) => word.as_str() == text,
        _ => false,
    }
}

fn is_sign(text: &str, node: &TokenNode) -> bool
    ensures { result ≡ is_this_sign text.now node.now }
{
    match node {
        TokenNode::Sign(sign) => sign.as_str() == text,
        _ => false,
    }
}

/// The word that this name is.
fn same_word<'a>(name: &Name, tokens: &'a [Token]) -> Result<&'a [Token], Fault>
    ensures { GivesExactly (λ x. (tt, all_strict x.now)) result (word_at name.now (all_strict tokens.now)) }
{
    match tokens {
        [first, rest @ ..] if is_word(name.as_str(), &first.node) => Ok(rest),
        _ => Err(unexpected(tokens)),
    }
}

/// This sign.
fn sign<'a>(text: &str, tokens: &'a [Token]) -> Result<&'a [Token], Fault>
    ensures { GivesExactly (λ x. (tt, all_strict x.now)) result (sign_at text.now (all_strict tokens.now)) }
{
    match tokens {
        [first, rest @ ..] if is_sign(text, &first.node) => Ok(rest),
        _ => Err(unexpected(tokens)),
    }
}

/// This sign, which opens something, where nothing is open yet.
fn opening<'a>(text: &str, tokens: &'a [Token]) -> Result<&'a [Token], Fault>
    ensures { GivesExactly (λ x. (tt, all_strict x.now)) result (opening_at 64 text.now (all_strict tokens.now)) }
{
    match tokens {
        [first, rest @ ..] if is_sign(text, &first.node) => Ok(rest),
        _ => Err(unexpected(tokens)),
    }
}

/// A name.
fn name(tokens: &[Token]) -> Result<(&Name, &[Token]), Fault>
    ensures { GivesExactly (λ x. (x.0.now, all_strict x.1.now)) result (one_at name_in (all_strict tokens.now)) }
{
    match tokens {
        [] => Err(unexpected(tokens)),
        [first, rest @ ..] => match &first.node {
            TokenNode::Word(word) if is_name(word.as_str()) => Ok((word, rest)),
            _ => Err(unexpected(tokens)),
        },
    }
}

/// The name of a table.
fn table(tokens: &[Token]) -> Result<(&Name, &[Token]), Fault>
    ensures { GivesExactly (λ x. (x.0.now, all_strict x.1.now)) result (one_at table_in (all_strict tokens.now)) }
{
    match tokens {
        [] => Err(unexpected(tokens)),
        [first, rest @ ..] => match &first.node {
            TokenNode::Word(word) if is_table(word.as_str()) => Ok((word, rest)),
            _ => Err(unexpected(tokens)),
        },
    }
}

/// `->`, the name before it, a dot and a column.
#[tactic(auto, unfolding(java_grammar::specs::ReadingTypes::key_column_at))]
fn key_column<'a>(row: &Name, tokens: &'a [Token]) -> Result<(&'a Name, &'a [Token]), Fault>
    ensures { GivesExactly (λ x. (x.0.now, all_strict x.1.now)) result (key_column_at row.now (all_strict tokens.now)) }
{
    let rest = sign("->", tokens)?;
    let rest = same_word(row, rest)?;
    let rest = sign(".", rest)?;
    let (column, rest) = name(rest)?;
    Ok((column, rest))
}

/// A key without a type.
#[tactic(auto, unfolding(java_grammar::specs::ReadingTypes::plain_key_at))]
fn plain_key(tokens: &[Token]) -> Result<(&Name, &[Token]), Fault>
    ensures { GivesExactly (λ x. (x.0.now, all_strict x.1.now)) result (plain_key_at (all_strict tokens.now)) }
{
    let (row, rest) = name(tokens)?;
    let (column, rest) = key_column(row, rest)?;
    Ok((column, rest))
}

/// `)` and what follows it in a key.
#[tactic(auto, unfolding(java_grammar::specs::ReadingTypes::closed_column_at))]
fn closed_column<'a>(row: &Name, tokens: &'a [Token]) -> Result<(&'a Name, &'a [Token]), Fault>
    ensures { GivesExactly (λ x. (x.0.now, all_strict x.1.now)) result (closed_column_at row.now (all_strict tokens.now)) }
{
    let rest = sign(")", tokens)?;
    let (column, rest) = key_column(row, rest)?;
    Ok((column, rest))
}

/// A key with a type.
#[tactic(auto, unfolding(java_grammar::specs::ReadingTypes::typed_key_at))]
fn typed_key(tokens: &[Token]) -> Result<(&Name, &[Token]), Fault>
    ensures { GivesExactly (λ x. (x.0.now, all_strict x.1.now)) result (typed_key_at 64 (all_strict tokens.now)) }
{
    let rest = opening("(", tokens)?;
    let (_, rest) = table(rest)?;
    let (row, rest) = name(rest)?;
    let (column, rest) = closed_column(row, rest)?;
    Ok((column, rest))
}

/// A key of a sort.
#[tactic(auto, unfolding(java_grammar::specs::ReadingTypes::key_at))]
fn key(tokens: &[Token]) -> Result<(&Name, &[Token]), Fault>
    ensures { GivesExactly (λ x. (x.0.now, all_strict x.1.now)) result (key_at 64 (all_strict tokens.now)) }
{
    match tokens {
        [first, ..] if is_sign("(", &first.node) => typed_key(tokens),
        _ => plain_key(tokens),
    }
}

/// A key of a sort, which all of these tokens are.
pub fn whole_key(tokens: &[Token]) -> Result<&Name, Fault>
    ensures { GivesExactly (λ name. name.now) result (whole (key_at 64) (all_strict tokens.now)) }
{
    let (name, rest) = key(tokens)?;
    if !rest.is_empty() {
        return Err(unexpected(rest));
    }
    Ok(name)
}
