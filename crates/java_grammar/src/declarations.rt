// Declarations, and the heads of statements with bodies.
ghost use Rattle.std.specs.Prelude.{◌≡◌, Ok, is_some, option_map};
ghost use Rattle.readers.specs.Reading.{Gives};
ghost use Rattle.java_ast.specs.Reading.{spelled, expression as expression_of, statement as statement_of, node_statement};
ghost use Rattle.java_grammar.specs.Marks.{all_strict};
ghost use Rattle.java_grammar.specs.Tails.{tail_of};
ghost use Rattle.java_grammar.specs.Words.{collection as collection_of_word};
ghost use Rattle.java_grammar.specs.Reading.{first_is};
ghost use Rattle.java_grammar.specs.ReadingBodies.{declared_as_at, declaration_at, declared_list_at, is_name_token, typed_rest_at, word_rest_at, named_item_at, if_head_at, while_head_at, walk_at, walk_part_at, for_head_at};

use crate::expressions::expression;
use crate::places::between;
use crate::plain::{Tail, condition, less, named_rest, node_of, value};
use crate::tokens::{is_next_sign, name, opening, sign, word};
use crate::types::{elements, spelling};
use crate::words::{collected, collection, is_name, word_type};
use java_ast::{Expr, JTy, Stmt, StmtNode};
use java_lex::{Token, TokenNode};
use qbs_base::Name;
use readers::ReadError;
use std::alloc::Global;

/// Whether the next token is a name.
pub fn is_next_name(tokens: &[Token]) -> bool
    ensures { result ≡ first_is is_name_token (all_strict tokens.now) }
{
    match tokens {
        [] => false,
        [first, ..] => match &first.node {
            TokenNode::Word(word) => is_name(word.as_str()),
            _ => false,
        },
    }
}

/// A name and its value behind their type.
#[tactic(auto, unfolding(crate::specs::ReadingBodies::declared_as_at))]
fn declared_as(
    alloc: Global,
    room: u32,
    ty: JTy,
    tokens: &[Token],
) -> Result<(StmtNode, &[Token]), ReadError>
    ensures { Gives (λ x. (node_statement x.0, all_strict x.1.now)) result (declared_as_at room (spelled ty) (all_strict tokens.now)) }
{
    let (name, rest) = name(tokens)?;
    let rest = sign("=", rest)?;
    let (value, rest) = value(alloc, room, rest)?;
    let name = name.clone()?;
    let value = Box::into_inner(value);
    Ok((StmtNode::Declare { ty, name, value }, rest))
}

/// A declaration.
#[inline(never)]
#[tactic(auto, unfolding(crate::specs::ReadingBodies::declaration_at))]
pub fn declaration(
    alloc: Global,
    room: u32,
    tokens: &[Token],
) -> Result<(Stmt, &[Token]), ReadError>
    ensures { Gives (λ x. (statement_of x.0, all_strict x.1.now)) result (declaration_at room (all_strict tokens.now)) }
{
    let (ty, rest) = spelling(alloc, tokens)?;
    let (node, rest) = declared_as(alloc, room, ty, rest)?;
    let span = between(tokens, rest);
    Ok((Stmt { span, node }, rest))
}

/// The rest of a declaration behind List or Set.
#[tactic(auto, unfolding(crate::specs::ReadingBodies::declared_list_at))]
fn declared_list(
    alloc: Global,
    room: u32,
    list: bool,
    tokens: &[Token],
) -> Result<(StmtNode, &[Token]), ReadError>
    ensures { Gives (λ x. (node_statement x.0, all_strict x.1.now)) result (declared_list_at room list (all_strict tokens.now)) }
{
    let (element, rest) = elements(tokens)?;
    let ty = collected(alloc, list, element)?;
    let (node, rest) = declared_as(alloc, room, ty, rest)?;
    Ok((node, rest))
}

/// What stands behind a word that is this type or none.
#[tactic(auto, unfolding(crate::specs::ReadingBodies::typed_rest_at))]
fn typed_rest<'a>(
    alloc: Global,
    room: u32,
    target: &Name,
    ty: Option<JTy>,
    tokens: &'a [Token],
) -> Result<(Tail, &'a [Token]), ReadError>
    ensures { Gives (λ x. (tail_of target.now x.0, all_strict x.1.now)) result (typed_rest_at room target.now (option_map spelled ty) (all_strict tokens.now)) }
{
    let Some(ty) = ty else {
        return named_rest(alloc, room, target, tokens);
    };
    if !is_next_name(tokens) {
        return named_rest(alloc, room, target, tokens);
    }
    let (node, rest) = declared_as(alloc, room, ty, tokens)?;
    Ok((Tail::Node(node), rest))
}

/// What stands behind the name with which a statement or a declaration begins.
#[tactic(auto, unfolding(crate::specs::ReadingBodies::word_rest_at))]
fn word_rest<'a>(
    alloc: Global,
    room: u32,
    target: &Name,
    tokens: &'a [Token],
) -> Result<(Tail, &'a [Token]), ReadError>
    ensures { Gives (λ x. (tail_of target.now x.0, all_strict x.1.now)) result (word_rest_at room target.now (collection_of_word target.now) (all_strict tokens.now)) }
{
    let Some(list) = collection(target.as_str()) else {
        let ty = word_type(target)?;
        return typed_rest(alloc, room, target, ty, tokens);
    };
    if !is_next_sign("<", tokens) {
        return named_rest(alloc, room, target, tokens);
    }
    let (node, rest) = declared_list(alloc, room, list, tokens)?;
    Ok((Tail::Node(node), rest))
}

/// A declaration, or a statement, that begins with a name.
#[inline(never)]
#[tactic(auto, unfolding(crate::specs::ReadingBodies::named_item_at))]
pub fn named_item(alloc: Global, room: u32, tokens: &[Token]) -> Result<(Stmt, &[Token]), ReadError>
    ensures { Gives (λ x. (statement_of x.0, all_strict x.1.now)) result (named_item_at room (all_strict tokens.now)) }
{
    let (target, rest) = name(tokens)?;
    let (tail, rest) = word_rest(alloc, room, target, rest)?;
    let span = between(tokens, rest);
    let node = node_of(alloc, target, tail, span)?;
    Ok((Stmt { span, node }, rest))
}

// ---- heads

#[inline(never)]
#[tactic(auto, unfolding(crate::specs::ReadingBodies::if_head_at))]
pub fn if_head(
    alloc: Global,
    room: u32,
    tokens: &[Token],
) -> Result<(Box<Expr>, &[Token]), ReadError>
    ensures { Gives (λ x. (expression_of x.0.value, all_strict x.1.now)) result (if_head_at room (all_strict tokens.now)) }
{
    let rest = word("if", tokens)?;
    let (condition, rest) = condition(alloc, room, rest)?;
    Ok((condition, rest))
}

#[inline(never)]
#[tactic(auto, unfolding(crate::specs::ReadingBodies::while_head_at))]
pub fn while_head(
    alloc: Global,
    room: u32,
    tokens: &[Token],
) -> Result<(Box<Expr>, &[Token]), ReadError>
    ensures { Gives (λ x. (expression_of x.0.value, all_strict x.1.now)) result (while_head_at room (all_strict tokens.now)) }
{
    let rest = word("while", tokens)?;
    let (condition, rest) = condition(alloc, room, rest)?;
    Ok((condition, rest))
}

/// A type, a name, `:` and a list.
#[tactic(auto, unfolding(crate::specs::ReadingBodies::walk_at))]
fn walk(
    alloc: Global,
    room: u32,
    tokens: &[Token],
) -> Result<(JTy, &Name, Box<Expr>, &[Token]), ReadError>
    ensures { Gives (λ x. ((spelled x.0, (x.1.now, expression_of x.2.value)), all_strict x.3.now)) result (walk_at room (all_strict tokens.now)) }
{
    let (ty, rest) = spelling(alloc, tokens)?;
    let (name, rest) = name(rest)?;
    let rest = sign(":", rest)?;
    let (list, rest) = expression(alloc, room, rest)?;
    Ok((ty, name, list, rest))
}

#[tactic(auto, unfolding(crate::specs::ReadingBodies::walk_part_at))]
fn walk_part(
    alloc: Global,
    room: u32,
    tokens: &[Token],
) -> Result<(JTy, &Name, Box<Expr>, &[Token]), ReadError>
    ensures { Gives (λ x. ((spelled x.0, (x.1.now, expression_of x.2.value)), all_strict x.3.now)) result (walk_part_at room (all_strict tokens.now)) }
{
    let rest = opening(room, "(", tokens)?;
    let (ty, name, list, rest) = walk(alloc, less(room), rest)?;
    let rest = sign(")", rest)?;
    Ok((ty, name, list, rest))
}

/// The type and the name of what walks over a list, and the list.
#[inline(never)]
#[tactic(auto, unfolding(crate::specs::ReadingBodies::for_head_at))]
pub fn for_head(
    alloc: Global,
    room: u32,
    tokens: &[Token],
) -> Result<(JTy, &Name, Box<Expr>, &[Token]), ReadError>
    ensures { Gives (λ x. ((spelled x.0, (x.1.now, expression_of x.2.value)), all_strict x.3.now)) result (for_head_at room (all_strict tokens.now)) }
{
    let rest = word("for", tokens)?;
    let (ty, name, list, rest) = walk_part(alloc, room, rest)?;
    Ok((ty, name, list, rest))
}
