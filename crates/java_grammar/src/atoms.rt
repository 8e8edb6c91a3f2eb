// The parts of expressions in which no expression stands: literals, and what begins a call.
ghost use Rattle.std.specs.Prelude.{◌≡◌, ◌<◌, Ok, IfOk, IfErr};
ghost use Rattle.readers.specs.Reading.{Gives};
ghost use Rattle.readers.specs.declared.fault.ReadError.TheVariants.{Memory};
ghost use Rattle.java_ast.specs.Reading.{spelled, expression};
ghost use Rattle.java_grammar.specs.Marks.{all_strict};
ghost use Rattle.java_grammar.specs.Calls.{seen};
ghost use Rattle.java_grammar.specs.Words.{by_word, word_if, literal_in, is_number_type as names_numbers};
ghost use Rattle.java_grammar.specs.Reading.{first_is, one_at, held_at};
ghost use Rattle.java_grammar.specs.Expressions.{limit as limit_of, created as created_by, query_of as query_of_member, operator_in as operator_in_node};
ghost use Rattle.java_grammar.specs.ReadingExpressions.{negative_at, limit_at, is_literal, scalar_at, literal_at, table_class_at, element_query_at, query_start_at, elements_at, creation_at, is_variable_token, is_operator};

use crate::calls::{Called, created, limit, query_of};
use crate::places::between;
use crate::tokens::{
    element, is_next_sign, natural, opening, sign, table, text, too_deep, unexpected, word,
};
use crate::words::{is_number_type, is_variable, operator_of, truth_of};
use java_ast::{Expr, ExprNode, JTy, Op};
use java_lex::{Token, TokenNode};
use qbs_base::{Name, Scalar, Text};
use readers::ReadError;

// ---- literals

/// A minus and an integer.
#[tactic(auto, unfolding(crate::specs::ReadingExpressions::negative_at))]
fn negative(tokens: &[Token]) -> Result<(Scalar, &[Token]), ReadError>
    ensures value { Gives (λ x. (x.0, all_strict x.1.now)) result (negative_at (all_strict tokens.now)) }
    ensures no_memory { IfErr result (λ e. e ≡ ReadError.Memory → ⊥) }
{
    let rest = sign("-", tokens)?;
    let (value, rest) = natural(rest)?;
    Ok((Scalar::Long(-value), rest))
}

/// Long or Integer, as what it names.
fn number_type(tokens: &[Token]) -> Result<(&Name, &[Token]), ReadError>
    ensures value { Gives (λ x. (x.0.now, all_strict x.1.now)) result (one_at (word_if names_numbers) (all_strict tokens.now)) }
    ensures no_memory { IfErr result (λ e. e ≡ ReadError.Memory → ⊥) }
{
    match tokens {
        [] => Err(unexpected(tokens)),
        [first, rest @ ..] => match &first.node {
            TokenNode::Word(word) if is_number_type(word.as_str()) => Ok((word, rest)),
            _ => Err(unexpected(tokens)),
        },
    }
}

/// The name of the least or the greatest number of a type.
fn bound<'a>(ty: &Name, tokens: &'a [Token]) -> Result<(i64, &'a [Token]), ReadError>
    ensures value { Gives (λ x. (x.0, all_strict x.1.now)) result (one_at (by_word (limit_of ty.now)) (all_strict tokens.now)) }
    ensures no_memory { IfErr result (λ e. e ≡ ReadError.Memory → ⊥) }
{
    match tokens {
        [] => Err(unexpected(tokens)),
        [first, rest @ ..] => match &first.node {
            TokenNode::Word(word) => match limit(ty.as_str(), word.as_str()) {
                Some(value) => Ok((value, rest)),
                None => Err(unexpected(tokens)),
            },
            _ => Err(unexpected(tokens)),
        },
    }
}

/// A type of numbers, a dot and a bound.
#[tactic(auto, unfolding(crate::specs::ReadingExpressions::limit_at))]
fn named_limit(tokens: &[Token]) -> Result<(Scalar, &[Token]), ReadError>
    ensures value { Gives (λ x. (x.0, all_strict x.1.now)) result (limit_at (all_strict tokens.now)) }
    ensures no_memory { IfErr result (λ e. e ≡ ReadError.Memory → ⊥) }
{
    let (ty, rest) = number_type(tokens)?;
    let rest = sign(".", rest)?;
    let (value, rest) = bound(ty, rest)?;
    Ok((Scalar::Long(value), rest))
}

/// The value of a token that is a literal by itself.
fn literal_value(node: &TokenNode) -> Result<Option<Scalar>, ReadError>
    ensures ok { IfOk result (λ value. value ≡ literal_in node.now) }
    ensures err { IfErr result (λ e. e ≡ Memory) }
{
    match node {
        TokenNode::Integer { value, .. } => Ok(Some(Scalar::Long(*value))),
        TokenNode::Text(text) => Ok(Some(Scalar::Text(text.clone()?))),
        TokenNode::Word(word) => Ok(truth_of(word.as_str())),
        TokenNode::Sign(_) => Ok(None),
    }
}

/// A literal of one token.
fn plain_literal(tokens: &[Token]) -> Result<(Scalar, &[Token]), ReadError>
    ensures { Gives (λ x. (x.0, all_strict x.1.now)) result (one_at literal_in (all_strict tokens.now)) }
{
    match tokens {
        [] => Err(unexpected(tokens)),
        [first, rest @ ..] => match literal_value(&first.node)? {
            Some(value) => Ok((value, rest)),
            None => Err(unexpected(tokens)),
        },
    }
}

/// Whether the next token is a literal by itself.
fn is_next_literal(tokens: &[Token]) -> bool
    ensures { result ≡ first_is is_literal (all_strict tokens.now) }
{
    match tokens {
        [] => false,
        [first, ..] => match &first.node {
            TokenNode::Integer { .. } => true,
            TokenNode::Text(_) => true,
            TokenNode::Word(word) => truth_of(word.as_str()).is_some(),
            TokenNode::Sign(_) => false,
        },
    }
}

#[tactic(auto, unfolding(crate::specs::ReadingExpressions::scalar_at))]
fn scalar(tokens: &[Token]) -> Result<(Scalar, &[Token]), ReadError>
    ensures { Gives (λ x. (x.0, all_strict x.1.now)) result (scalar_at (all_strict tokens.now)) }
{
    if is_next_sign("-", tokens) {
        return negative(tokens);
    }
    if is_next_literal(tokens) {
        return plain_literal(tokens);
    }
    named_limit(tokens)
}

/// A literal.
#[tactic(auto, unfolding(crate::specs::ReadingExpressions::literal_at))]
pub fn literal(tokens: &[Token]) -> Result<(Expr, &[Token]), ReadError>
    ensures { Gives (λ x. (expression x.0, all_strict x.1.now)) result (literal_at (all_strict tokens.now)) }
{
    let (value, rest) = scalar(tokens)?;
    let span = between(tokens, rest);
    let node = ExprNode::Lit(value);
    Ok((Expr { span, node }, rest))
}

// ---- parts of calls

/// A table, a dot and `class`.
#[tactic(auto, unfolding(crate::specs::ReadingExpressions::table_class_at))]
pub fn table_class(tokens: &[Token]) -> Result<(&Name, &[Token]), ReadError>
    ensures value { Gives (λ x. (x.0.now, all_strict x.1.now)) result (table_class_at (all_strict tokens.now)) }
    ensures no_memory { IfErr result (λ e. e ≡ ReadError.Memory → ⊥) }
{
    let (table, rest) = table(tokens)?;
    let rest = sign(".", rest)?;
    let rest = word("class", rest)?;
    Ok((table, rest))
}

/// What rows a query gives, and its text.
#[tactic(auto, unfolding(crate::specs::ReadingExpressions::element_query_at))]
pub fn element_query(tokens: &[Token]) -> Result<(JTy, &Text, &[Token]), ReadError>
    ensures { Gives (λ x. ((spelled x.0, x.1.now), all_strict x.2.now)) result (element_query_at (all_strict tokens.now)) }
{
    let (ty, rest) = element(tokens)?;
    let rest = sign(".", rest)?;
    let rest = word("class", rest)?;
    let rest = sign(",", rest)?;
    let (text, rest) = text(rest)?;
    Ok((ty, text, rest))
}

/// The query that the next token asks.
fn query_word(tokens: &[Token]) -> Result<(Called, &[Token]), ReadError>
    ensures value { Gives (λ x. (seen x.0, all_strict x.1.now)) result (one_at (by_word query_of_member) (all_strict tokens.now)) }
    ensures no_memory { IfErr result (λ e. e ≡ ReadError.Memory → ⊥) }
{
    match tokens {
        [] => Err(unexpected(tokens)),
        [first, rest @ ..] => match &first.node {
            TokenNode::Word(word) => match query_of(word.as_str()) {
                Some(call) => Ok((call, rest)),
                None => Err(unexpected(tokens)),
            },
            _ => Err(unexpected(tokens)),
        },
    }
}

/// `db`, a dot, a query and what opens its parts.
#[tactic(auto, unfolding(crate::specs::ReadingExpressions::query_start_at))]
pub fn query_start(room: u32, tokens: &[Token]) -> Result<(Called, &[Token]), ReadError>
    ensures value { Gives (λ x. (seen x.0, all_strict x.1.now)) result (query_start_at room (all_strict tokens.now)) }
    ensures no_memory { IfErr result (λ e. e ≡ ReadError.Memory → ⊥) }
{
    let rest = word("db", tokens)?;
    let rest = sign(".", rest)?;
    let (call, rest) = query_word(rest)?;
    let rest = opening(room, "(", rest)?;
    Ok((call, rest))
}

// ---- what begins a new list or set

/// What is made: true where it is a set.
fn created_word(tokens: &[Token]) -> Result<(bool, &[Token]), ReadError>
    ensures value { Gives (λ x. (x.0, all_strict x.1.now)) result (one_at (by_word created_by) (all_strict tokens.now)) }
    ensures no_memory { IfErr result (λ e. e ≡ ReadError.Memory → ⊥) }
{
    match tokens {
        [] => Err(unexpected(tokens)),
        [first, rest @ ..] => match &first.node {
            TokenNode::Word(word) => match created(word.as_str()) {
                Some(set) => Ok((set, rest)),
                None => Err(unexpected(tokens)),
            },
            _ => Err(unexpected(tokens)),
        },
    }
}

/// The type of the elements, if it isn't left out.
#[tactic(auto, unfolding(crate::specs::ReadingExpressions::elements_at))]
fn elements(tokens: &[Token]) -> Result<&[Token], ReadError>
    ensures { Gives (λ x. (tt, all_strict x.now)) result (elements_at (all_strict tokens.now)) }
{
    if is_next_sign(">", tokens) {
        return Ok(tokens);
    }
    let (_, rest) = element(tokens)?;
    Ok(rest)
}

/// `new`, what is made, the type of its elements and what opens its parts.
#[tactic(auto, unfolding(crate::specs::ReadingExpressions::creation_at))]
pub fn creation(room: u32, tokens: &[Token]) -> Result<(bool, &[Token]), ReadError>
    ensures { Gives (λ x. (x.0, all_strict x.1.now)) result (creation_at room (all_strict tokens.now)) }
{
    let rest = word("new", tokens)?;
    let (set, rest) = created_word(rest)?;
    let rest = sign("<", rest)?;
    let rest = elements(rest)?;
    let rest = sign(">", rest)?;
    let rest = opening(room, "(", rest)?;
    Ok((set, rest))
}

// ---- variables and operators

/// Whether the next token is a variable.
pub fn is_next_variable(tokens: &[Token]) -> bool
    ensures { result ≡ first_is is_variable_token (all_strict tokens.now) }
{
    match tokens {
        [] => false,
        [first, ..] => match &first.node {
            TokenNode::Word(word) => is_variable(word.as_str()),
            _ => false,
        },
    }
}

/// The operator of this rank that a token is.
fn operator_in(rank: u32, node: &TokenNode) -> Option<Op>
    ensures { result ≡ operator_in_node rank node.now }
{
    let TokenNode::Sign(sign) = node else {
        return None;
    };
    let (operator, of) = operator_of(sign.as_str())?;
    if of == rank { Some(operator) } else { None }
}

/// Whether the next token is an operator of this rank.
pub fn is_next_operator(rank: u32, tokens: &[Token]) -> bool
    ensures { result ≡ first_is (is_operator rank) (all_strict tokens.now) }
{
    match tokens {
        [] => false,
        [first, ..] => operator_in(rank, &first.node).is_some(),
    }
}

/// An operator of this rank, where so many more may follow.
pub fn operator(left: u32, rank: u32, tokens: &[Token]) -> Result<(Op, &[Token]), ReadError>
    ensures value { Gives (λ x. (x.0, all_strict x.1.now)) result (held_at left (operator_in_node rank) (all_strict tokens.now)) }
    ensures left { IfOk result (λ x. 0 < left) }
    ensures no_memory { IfErr result (λ e. e ≡ ReadError.Memory → ⊥) }
{
    match tokens {
        [] => Err(unexpected(tokens)),
        [first, rest @ ..] => match operator_in(rank, &first.node) {
            Some(operator) => {
                if left == 0 {
                    return Err(too_deep(tokens));
                }
                Ok((operator, rest))
            }
            None => Err(unexpected(tokens)),
        },
    }
}
