// Statements with bodies, and blocks, by recursion over what is open. `room` is how many more things
// may be open. A statement is read with whether it ends in an `if` without an `else`, so that an
// `else` goes to the nearest `if` that has none.
ghost use Rattle.std.specs.Prelude.{◌≡◌, Ok, Bool, IfOk, IfErr, List, [], ◌∷◌, option_map};
ghost use Rattle.readers.specs.Reading.{Gives, is_over};
ghost use Rattle.readers.specs.declared.fault.ReadError.TheVariants.{Memory};
ghost use Rattle.java_ast.specs.Reading.{statement as statement_of, statements as statements_of};
ghost use Rattle.java_grammar.specs.Marks.{all_strict};
ghost use Rattle.java_grammar.specs.Tails.{body_of};
ghost use Rattle.java_grammar.specs.Reading.{first_is, is_sign as is_this_sign};
ghost use Rattle.java_grammar.specs.ReadingBodies.{begins_statement as begins_a_statement, otherwise_at, if_at, for_at, while_at, statement_by, item_by, items_by, single_in, body_in, block_in, statement_inside, statements_inside, body_at, block_at, statement_at, item_at, statements_at};

use crate::declarations::{declaration, for_head, if_head, is_next_name, named_item, while_head};
use crate::places::between;
use crate::plain::plain;
use crate::tokens::{is_next_sign, is_next_word, opening, sign, too_deep, unexpected, word};
use crate::types::is_next_type;
use java_ast::{Stmt, StmtNode};
use java_lex::Token;
use readers::ReadError;
use std::alloc::Global;

/// Statements, and whether they end in an `if` without an `else`.
#[derive(Drop)]
pub struct Branch {
    pub open_if: bool,
    pub statements: Vec<Stmt>,
}

/// Whether a statement that is no declaration begins with the next token.
fn begins_statement(tokens: &[Token]) -> bool
    ensures { result ≡ first_is begins_a_statement (all_strict tokens.now) }
{
    is_next_word("if", tokens)
        || is_next_word("for", tokens)
        || is_next_word("while", tokens)
        || is_next_word("return", tokens)
        || is_next_word("break", tokens)
        || is_next_name(tokens)
}

/// Whether there is no next token, or it is `}`.
pub fn ends_block(tokens: &[Token]) -> bool
    ensures { result ≡ is_over (λ t. is_this_sign (125 ∷ []) t.token.node) (all_strict tokens.now) }
{
    tokens.is_empty() || is_next_sign("}", tokens)
}

fn alone<T: Drop>(alloc: Global, item: T) -> Result<Vec<T>, ReadError>
    ensures ok { IfOk result (λ v. v.items ≡ item ∷ []) }
    ensures err { IfErr result (λ e. e ≡ Memory) }
{
    let mut items = Vec::new(alloc);
    items.push(item)?;
    Ok(items)
}

/// A block, or a statement that is no declaration.
#[cycle(bodies)]
#[tactic(auto, unfolding(crate::specs::ReadingBodies::body_at, crate::specs::ReadingBodies::body_in, crate::specs::ReadingBodies::block_at))]
fn body(alloc: Global, room: u32, tokens: &[Token]) -> Result<(Branch, &[Token]), ReadError>
    ensures { Gives (λ x. (body_of x.0, all_strict x.1.now)) result (body_at room (all_strict tokens.now)) }
{
    if is_next_sign("{", tokens) {
        let (statements, rest) = block(alloc, room, tokens)?;
        let open_if = false;
        return Ok((
            Branch {
                open_if,
                statements,
            },
            rest,
        ));
    }
    single(alloc, room, tokens)
}

/// Statements in braces.
#[cycle(bodies)]
#[tactic(auto, unfolding(crate::specs::ReadingBodies::block_at, crate::specs::ReadingBodies::block_in))]
pub fn block(alloc: Global, room: u32, tokens: &[Token]) -> Result<(Vec<Stmt>, &[Token]), ReadError>
    ensures { Gives (λ x. (statements_of x.0.items, all_strict x.1.now)) result (block_at room (all_strict tokens.now)) }
{
    let rest = opening(room, "{", tokens)?;
    let (statements, rest) = enclosed(alloc, room, rest)?;
    let rest = sign("}", rest)?;
    Ok((statements, rest))
}

/// The statements behind something that opens.
#[cycle(bodies)]
#[tactic(auto, unfolding(crate::specs::ReadingBodies::statements_inside, crate::specs::ReadingBodies::statements_at, crate::specs::ReadingBodies::statement_at, crate::specs::ReadingBodies::body_at))]
fn enclosed(alloc: Global, room: u32, tokens: &[Token]) -> Result<(Vec<Stmt>, &[Token]), ReadError>
    ensures { Gives (λ x. (statements_of x.0.items, all_strict x.1.now)) result (statements_inside room (all_strict tokens.now)) }
{
    if room == 0 {
        return Err(too_deep(tokens));
    }
    statements(alloc, room - 1, tokens)
}

/// A statement as a body, which opens at its first token.
#[cycle(bodies)]
#[tactic(auto, unfolding(crate::specs::ReadingBodies::single_in, crate::specs::ReadingBodies::statement_inside, crate::specs::ReadingBodies::statement_at, crate::specs::ReadingBodies::body_at))]
fn single(alloc: Global, room: u32, tokens: &[Token]) -> Result<(Branch, &[Token]), ReadError>
    ensures { Gives (λ x. (body_of x.0, all_strict x.1.now)) result (single_in room (statement_inside room) (all_strict tokens.now)) }
{
    if room == 0 {
        if begins_statement(tokens) {
            return Err(too_deep(tokens));
        }
        return Err(unexpected(tokens));
    }
    let (open_if, statement, rest) = statement(alloc, room - 1, tokens)?;
    let statements = alone(alloc, statement)?;
    Ok((
        Branch {
            open_if,
            statements,
        },
        rest,
    ))
}

/// A statement that is no declaration, and whether it ends in an `if` without an `else`.
#[cycle(bodies)]
#[tactic(auto, unfolding(crate::specs::ReadingBodies::statement_at, crate::specs::ReadingBodies::statement_by))]
fn statement(
    alloc: Global,
    room: u32,
    tokens: &[Token],
) -> Result<(bool, Stmt, &[Token]), ReadError>
    ensures { Gives (λ x. ((x.0, statement_of x.1), all_strict x.2.now)) result (statement_at room (all_strict tokens.now)) }
{
    if is_next_word("if", tokens) {
        return conditional(alloc, room, tokens);
    }
    if is_next_word("for", tokens) {
        return for_each(alloc, room, tokens);
    }
    if is_next_word("while", tokens) {
        return repeated(alloc, room, tokens);
    }
    let (statement, rest) = plain(alloc, room, tokens)?;
    Ok((false, statement, rest))
}

/// An `if`, and its `else` if there is one.
#[cycle(bodies)]
#[tactic(auto, using(java_ast::proofs::Rows::rows), unfolding(crate::specs::ReadingBodies::if_at))]
fn conditional(
    alloc: Global,
    room: u32,
    tokens: &[Token],
) -> Result<(bool, Stmt, &[Token]), ReadError>
    ensures { Gives (λ x. ((x.0, statement_of x.1), all_strict x.2.now)) result (if_at room (body_at room) (all_strict tokens.now)) }
{
    let (cond, rest) = if_head(alloc, room, tokens)?;
    let (first, rest) = body(alloc, room, rest)?;
    let (other, rest) = otherwise(alloc, room, first.open_if, rest)?;
    let span = between(tokens, rest);
    let cond = Box::into_inner(cond);
    let yes = first.statements;
    match other {
        None => {
            let other = None;
            let node = StmtNode::If { cond, yes, other };
            Ok((true, Stmt { span, node }, rest))
        }
        Some(
            Branch {
                open_if,
                statements,
            },
        ) => {
            let other = Some(statements);
            let node = StmtNode::If { cond, yes, other };
            Ok((open_if, Stmt { span, node }, rest))
        }
    }
}

/// What is done else: nothing where the body before ends in an `if` without an `else`.
#[cycle(bodies)]
#[tactic(auto, unfolding(crate::specs::ReadingBodies::otherwise_at))]
fn otherwise(
    alloc: Global,
    room: u32,
    open_if: bool,
    tokens: &[Token],
) -> Result<(Option<Branch>, &[Token]), ReadError>
    ensures { Gives (λ x. (option_map body_of x.0, all_strict x.1.now)) result (otherwise_at (body_at room) open_if (all_strict tokens.now)) }
{
    if open_if {
        return Ok((None, tokens));
    }
    if !is_next_word("else", tokens) {
        return Ok((None, tokens));
    }
    let rest = word("else", tokens)?;
    let (other, rest) = body(alloc, room, rest)?;
    Ok((Some(other), rest))
}

#[cycle(bodies)]
#[tactic(auto, using(java_ast::proofs::Rows::rows), unfolding(crate::specs::ReadingBodies::for_at))]
fn for_each(alloc: Global, room: u32, tokens: &[Token]) -> Result<(bool, Stmt, &[Token]), ReadError>
    ensures { Gives (λ x. ((x.0, statement_of x.1), all_strict x.2.now)) result (for_at room (body_at room) (all_strict tokens.now)) }
{
    let (ty, name, list, rest) = for_head(alloc, room, tokens)?;
    let name = name.clone()?;
    let (inner, rest) = body(alloc, room, rest)?;
    let span = between(tokens, rest);
    let Branch {
        open_if,
        statements,
    } = inner;
    let list = Box::into_inner(list);
    let body = statements;
    let node = StmtNode::ForEach {
        ty,
        name,
        list,
        body,
    };
    Ok((open_if, Stmt { span, node }, rest))
}

#[cycle(bodies)]
#[tactic(auto, using(java_ast::proofs::Rows::rows), unfolding(crate::specs::ReadingBodies::while_at))]
fn repeated(alloc: Global, room: u32, tokens: &[Token]) -> Result<(bool, Stmt, &[Token]), ReadError>
    ensures { Gives (λ x. ((x.0, statement_of x.1), all_strict x.2.now)) result (while_at room (body_at room) (all_strict tokens.now)) }
{
    let (cond, rest) = while_head(alloc, room, tokens)?;
    let (inner, rest) = body(alloc, room, rest)?;
    let span = between(tokens, rest);
    let Branch {
        open_if,
        statements,
    } = inner;
    let cond = Box::into_inner(cond);
    let body = statements;
    let node = StmtNode::While { cond, body };
    Ok((open_if, Stmt { span, node }, rest))
}

/// A declaration, or a statement.
#[cycle(bodies)]
#[tactic(auto, unfolding(crate::specs::ReadingBodies::item_at, crate::specs::ReadingBodies::item_by))]
fn item(alloc: Global, room: u32, tokens: &[Token]) -> Result<(Stmt, &[Token]), ReadError>
    ensures { Gives (λ x. (statement_of x.0, all_strict x.1.now)) result (item_at room (all_strict tokens.now)) }
{
    if is_next_name(tokens) {
        return named_item(alloc, room, tokens);
    }
    if is_next_type(tokens) {
        return declaration(alloc, room, tokens);
    }
    let (_, statement, rest) = statement(alloc, room, tokens)?;
    Ok((statement, rest))
}

/// Statements up to a closing brace.
#[cycle(bodies)]
fn statements(
    alloc: Global,
    room: u32,
    tokens: &[Token],
) -> Result<(Vec<Stmt>, &[Token]), ReadError>
    ensures { Gives (λ x. (statements_of x.0.items, all_strict x.1.now)) result (statements_at room (all_strict tokens.now)) }
{
    let mut statements = Vec::new(alloc);
    let mut rest = tokens;
    // Each has a token at least.
    for _ in 0..tokens.len() {
        if ends_block(rest) {
            break;
        }
        let (statement, after) = item(alloc, room, rest)?;
        statements.push(statement)?;
        rest = after;
    }
    Ok((statements, rest))
}
