// Statements without bodies.
ghost use Rattle.std.specs.Prelude.{◌≡◌, Ok, IfOk, IfErr, pred, option_map};
ghost use Rattle.readers.specs.Reading.{Gives};
ghost use Rattle.readers.specs.declared.fault.ReadError.TheVariants.{Memory};
ghost use Rattle.java_ast.specs.Reading.{expression as expression_of, statement as statement_of, node_statement};
ghost use Rattle.java_ast.specs.Tree as plain;
ghost use Rattle.java_ast.specs.declared.tree.Op.TheVariants as ops;
ghost use Rattle.java_grammar.specs.Marks.{all_strict};
ghost use Rattle.java_grammar.specs.Tails.{tail_of};
ghost use Rattle.java_grammar.specs.ReadingStatements.{condition_at, value_at, assignment_at, increase_at, increment_at, addition_at, printing_at, sorting_at, other_member_at, member_call_at, member_at, counting_at, other_rest_at, named_rest_at, named_at, returned_at, returning_at, breaking_at, plain_at};

use crate::expressions::expression;
use crate::nodes;
use crate::places::between;
use crate::sorts::{directed, keys_part};
use crate::tokens::{is_next_sign, is_next_word, name, opening, sign, word};
use crate::words::is_number_type;
use java_ast::{Expr, ExprNode, Op, Stmt, StmtNode};
use java_lex::Token;
use qbs_base::{Name, Scalar, Span};
use readers::ReadError;
use std::alloc::Global;

/// What stands behind the name of a statement. What is added to the name's value has the place of
/// the whole statement.
#[derive(Drop)]
pub enum Tail {
    Node(StmtNode),
    Plus(Expr),
    Increment,
}

/// Behind what is open, one less may be open.
pub fn less(room: u32) -> u32
    ensures { result ≡ pred room }
{
    room.saturating_sub(1)
}

#[tactic(auto, unfolding(crate::specs::ReadingStatements::condition_at))]
pub fn condition(
    alloc: Global,
    room: u32,
    tokens: &[Token],
) -> Result<(Box<Expr>, &[Token]), ReadError>
    ensures { Gives (λ x. (expression_of x.0.value, all_strict x.1.now)) result (condition_at room (all_strict tokens.now)) }
{
    let rest = opening(room, "(", tokens)?;
    let (condition, rest) = expression(alloc, less(room), rest)?;
    let rest = sign(")", rest)?;
    Ok((condition, rest))
}

#[tactic(auto, unfolding(crate::specs::ReadingStatements::value_at))]
pub fn value(alloc: Global, room: u32, tokens: &[Token]) -> Result<(Box<Expr>, &[Token]), ReadError>
    ensures { Gives (λ x. (expression_of x.0.value, all_strict x.1.now)) result (value_at room (all_strict tokens.now)) }
{
    let (value, rest) = expression(alloc, room, tokens)?;
    let rest = sign(";", rest)?;
    Ok((value, rest))
}

// ---- behind a name

#[tactic(auto, unfolding(crate::specs::ReadingStatements::assignment_at))]
fn assignment<'a>(
    alloc: Global,
    room: u32,
    target: &Name,
    tokens: &'a [Token],
) -> Result<(Tail, &'a [Token]), ReadError>
    ensures { Gives (λ x. (tail_of target.now x.0, all_strict x.1.now)) result (assignment_at room target.now (all_strict tokens.now)) }
{
    let rest = sign("=", tokens)?;
    let (value, rest) = value(alloc, room, rest)?;
    let name = target.clone()?;
    let value = Box::into_inner(value);
    Ok((Tail::Node(StmtNode::Assign { name, value }), rest))
}

#[tactic(auto, unfolding(crate::specs::ReadingStatements::increase_at))]
fn increase<'a>(
    alloc: Global,
    room: u32,
    target: &Name,
    tokens: &'a [Token],
) -> Result<(Tail, &'a [Token]), ReadError>
    ensures { Gives (λ x. (tail_of target.now x.0, all_strict x.1.now)) result (increase_at room target.now (all_strict tokens.now)) }
{
    let rest = sign("+=", tokens)?;
    let (value, rest) = value(alloc, room, rest)?;
    Ok((Tail::Plus(Box::into_inner(value)), rest))
}

#[tactic(auto, unfolding(crate::specs::ReadingStatements::increment_at))]
fn increment<'a>(target: &Name, tokens: &'a [Token]) -> Result<(Tail, &'a [Token]), ReadError>
    ensures value { Gives (λ x. (tail_of target.now x.0, all_strict x.1.now)) result (increment_at target.now (all_strict tokens.now)) }
    ensures no_memory { IfErr result (λ e. e ≡ ReadError.Memory → ⊥) }
{
    let rest = sign("++", tokens)?;
    let rest = sign(";", rest)?;
    Ok((Tail::Increment, rest))
}

#[tactic(auto, unfolding(crate::specs::ReadingStatements::addition_at))]
fn addition<'a>(
    alloc: Global,
    room: u32,
    target: &Name,
    tokens: &'a [Token],
) -> Result<(Tail, &'a [Token]), ReadError>
    ensures { Gives (λ x. (tail_of target.now x.0, all_strict x.1.now)) result (addition_at room target.now (all_strict tokens.now)) }
{
    let rest = word("add", tokens)?;
    let (value, rest) = condition(alloc, room, rest)?;
    let rest = sign(";", rest)?;
    let name = target.clone()?;
    let value = Box::into_inner(value);
    Ok((Tail::Node(StmtNode::Add { name, value }), rest))
}

#[tactic(auto, unfolding(crate::specs::ReadingStatements::printing_at))]
fn printing<'a>(
    alloc: Global,
    room: u32,
    target: &Name,
    tokens: &'a [Token],
) -> Result<(Tail, &'a [Token]), ReadError>
    ensures { Gives (λ x. (tail_of target.now x.0, all_strict x.1.now)) result (printing_at room (all_strict tokens.now)) }
{
    let rest = word("out", tokens)?;
    let rest = sign(".", rest)?;
    let rest = word("println", rest)?;
    let (value, rest) = condition(alloc, room, rest)?;
    let rest = sign(";", rest)?;
    let value = Box::into_inner(value);
    Ok((Tail::Node(StmtNode::Print { value }), rest))
}

#[tactic(auto, unfolding(crate::specs::ReadingStatements::sorting_at))]
fn sorting<'a>(
    alloc: Global,
    room: u32,
    target: &Name,
    tokens: &'a [Token],
) -> Result<(Tail, &'a [Token]), ReadError>
    ensures { Gives (λ x. (tail_of target.now x.0, all_strict x.1.now)) result (sorting_at room target.now (all_strict tokens.now)) }
{
    let rest = word("sort", tokens)?;
    let (first, parts, rest) = keys_part(alloc, room, rest)?;
    let rest = sign(";", rest)?;
    let (keys, down) = directed(alloc, first, parts.as_slice())?;
    let name = target.clone()?;
    Ok((Tail::Node(StmtNode::Sort { name, keys, down }), rest))
}

#[tactic(auto, unfolding(crate::specs::ReadingStatements::other_member_at))]
fn other_member<'a>(
    alloc: Global,
    room: u32,
    target: &Name,
    tokens: &'a [Token],
) -> Result<(Tail, &'a [Token]), ReadError>
    ensures { Gives (λ x. (tail_of target.now x.0, all_strict x.1.now)) result (other_member_at room target.now (all_strict tokens.now)) }
{
    if target.as_str() == "System" {
        if is_next_word("sort", tokens) {
            return sorting(alloc, room, target, tokens);
        }
        return printing(alloc, room, target, tokens);
    }
    sorting(alloc, room, target, tokens)
}

#[tactic(auto, unfolding(crate::specs::ReadingStatements::member_call_at))]
fn member_call<'a>(
    alloc: Global,
    room: u32,
    target: &Name,
    tokens: &'a [Token],
) -> Result<(Tail, &'a [Token]), ReadError>
    ensures { Gives (λ x. (tail_of target.now x.0, all_strict x.1.now)) result (member_call_at room target.now (all_strict tokens.now)) }
{
    if is_next_word("add", tokens) {
        return addition(alloc, room, target, tokens);
    }
    other_member(alloc, room, target, tokens)
}

#[tactic(auto, unfolding(crate::specs::ReadingStatements::member_at))]
fn member<'a>(
    alloc: Global,
    room: u32,
    target: &Name,
    tokens: &'a [Token],
) -> Result<(Tail, &'a [Token]), ReadError>
    ensures { Gives (λ x. (tail_of target.now x.0, all_strict x.1.now)) result (member_at room target.now (all_strict tokens.now)) }
{
    let rest = sign(".", tokens)?;
    let (tail, rest) = member_call(alloc, room, target, rest)?;
    Ok((tail, rest))
}

#[tactic(auto, unfolding(crate::specs::ReadingStatements::counting_at))]
fn counting<'a>(
    alloc: Global,
    room: u32,
    target: &Name,
    tokens: &'a [Token],
) -> Result<(Tail, &'a [Token]), ReadError>
    ensures { Gives (λ x. (tail_of target.now x.0, all_strict x.1.now)) result (counting_at room target.now (all_strict tokens.now)) }
{
    if is_next_sign("+=", tokens) {
        return increase(alloc, room, target, tokens);
    }
    increment(target, tokens)
}

#[tactic(auto, unfolding(crate::specs::ReadingStatements::other_rest_at))]
fn other_rest<'a>(
    alloc: Global,
    room: u32,
    target: &Name,
    tokens: &'a [Token],
) -> Result<(Tail, &'a [Token]), ReadError>
    ensures { Gives (λ x. (tail_of target.now x.0, all_strict x.1.now)) result (other_rest_at room target.now (all_strict tokens.now)) }
{
    if is_number_type(target.as_str()) {
        return member(alloc, room, target, tokens);
    }
    if is_next_sign(".", tokens) {
        return member(alloc, room, target, tokens);
    }
    counting(alloc, room, target, tokens)
}

#[tactic(auto, unfolding(crate::specs::ReadingStatements::named_rest_at))]
pub fn named_rest<'a>(
    alloc: Global,
    room: u32,
    target: &Name,
    tokens: &'a [Token],
) -> Result<(Tail, &'a [Token]), ReadError>
    ensures { Gives (λ x. (tail_of target.now x.0, all_strict x.1.now)) result (named_rest_at room target.now (all_strict tokens.now)) }
{
    if is_next_sign("=", tokens) {
        return assignment(alloc, room, target, tokens);
    }
    other_rest(alloc, room, target, tokens)
}

/// The value of a name and another one, all with one place.
fn sum(alloc: Global, name: &Name, at: Span, value: Box<Expr>) -> Result<Expr, ReadError>
    ensures ok { IfOk result (λ e. expression_of e ≡ plain.Binary at ops.Add (plain.Var at name.now) (expression_of value.value)) }
    ensures err { IfErr result (λ e. e ≡ Memory) }
{
    let node = ExprNode::Var(name.clone()?);
    let left = nodes::boxed(alloc, Expr { span: at, node })?;
    let node = nodes::binary(Op::Add, left, value);
    Ok(Expr { span: at, node })
}

/// What adds a value to that of a name, all with one place.
fn increased(alloc: Global, target: &Name, at: Span, value: Expr) -> Result<StmtNode, ReadError>
    ensures ok { IfOk result (λ n. node_statement n at ≡ plain.Assign at target.now (plain.Binary at ops.Add (plain.Var at target.now) (expression_of value))) }
    ensures err { IfErr result (λ e. e ≡ Memory) }
{
    let value = nodes::boxed(alloc, value)?;
    let name = target.clone()?;
    let value = sum(alloc, target, at, value)?;
    Ok(StmtNode::Assign { name, value })
}

/// The node of a statement with this name, this rest and this place.
pub fn node_of(alloc: Global, target: &Name, tail: Tail, at: Span) -> Result<StmtNode, ReadError>
    ensures ok { IfOk result (λ n. node_statement n at ≡ tail_of target.now tail at) }
    ensures err { IfErr result (λ e. e ≡ Memory) }
{
    match tail {
        Tail::Node(node) => Ok(node),
        Tail::Plus(value) => increased(alloc, target, at, value),
        Tail::Increment => {
            let node = ExprNode::Lit(Scalar::Long(1));
            increased(alloc, target, at, Expr { span: at, node })
        }
    }
}

/// A statement that begins with a name.
#[tactic(auto, unfolding(crate::specs::ReadingStatements::named_at))]
fn named(alloc: Global, room: u32, tokens: &[Token]) -> Result<(Stmt, &[Token]), ReadError>
    ensures { Gives (λ x. (statement_of x.0, all_strict x.1.now)) result (named_at room (all_strict tokens.now)) }
{
    let (target, rest) = name(tokens)?;
    let (tail, rest) = named_rest(alloc, room, target, rest)?;
    let span = between(tokens, rest);
    let node = node_of(alloc, target, tail, span)?;
    Ok((Stmt { span, node }, rest))
}

// ---- other statements without bodies

#[tactic(auto, unfolding(crate::specs::ReadingStatements::returned_at))]
fn returned(
    alloc: Global,
    room: u32,
    tokens: &[Token],
) -> Result<(Option<Expr>, &[Token]), ReadError>
    ensures { Gives (λ x. (option_map expression_of x.0, all_strict x.1.now)) result (returned_at room (all_strict tokens.now)) }
{
    if is_next_sign(";", tokens) {
        let rest = sign(";", tokens)?;
        return Ok((None, rest));
    }
    let (value, rest) = value(alloc, room, tokens)?;
    Ok((Some(Box::into_inner(value)), rest))
}

#[tactic(auto, unfolding(crate::specs::ReadingStatements::returning_at))]
fn returning(alloc: Global, room: u32, tokens: &[Token]) -> Result<(Stmt, &[Token]), ReadError>
    ensures { Gives (λ x. (statement_of x.0, all_strict x.1.now)) result (returning_at room (all_strict tokens.now)) }
{
    let rest = word("return", tokens)?;
    let (value, rest) = returned(alloc, room, rest)?;
    let span = between(tokens, rest);
    let node = StmtNode::Return { value };
    Ok((Stmt { span, node }, rest))
}

#[tactic(auto, unfolding(crate::specs::ReadingStatements::breaking_at))]
fn breaking(tokens: &[Token]) -> Result<(Stmt, &[Token]), ReadError>
    ensures value { Gives (λ x. (statement_of x.0, all_strict x.1.now)) result (breaking_at (all_strict tokens.now)) }
    ensures no_memory { IfErr result (λ e. e ≡ ReadError.Memory → ⊥) }
{
    let rest = word("break", tokens)?;
    let rest = sign(";", rest)?;
    let span = between(tokens, rest);
    let node = StmtNode::Break;
    Ok((Stmt { span, node }, rest))
}

/// A statement that has no body and is no declaration.
#[inline(never)]
#[tactic(auto, unfolding(crate::specs::ReadingStatements::plain_at))]
pub fn plain(alloc: Global, room: u32, tokens: &[Token]) -> Result<(Stmt, &[Token]), ReadError>
    ensures { Gives (λ x. (statement_of x.0, all_strict x.1.now)) result (plain_at room (all_strict tokens.now)) }
{
    if is_next_word("return", tokens) {
        return returning(alloc, room, tokens);
    }
    if is_next_word("break", tokens) {
        return breaking(tokens);
    }
    named(alloc, room, tokens)
}
