// Expressions from tokens, by recursion over ranks and over what is open. `room` is how many more
// things may be open.
ghost use Rattle.std.specs.Prelude.{◌≡◌, ◌<◌, Ok, IfOk, map, option_map, Some, codes};
ghost use Rattle.std.specs.Option.{option_copied};
ghost use Rattle.readers.specs.Reading.{Gives};
ghost use Rattle.java_ast.specs.Reading.{expression as expression_of, node_expression};
ghost use Rattle.java_ast.specs.Tree as plain;
ghost use Rattle.java_grammar.specs.Marks.{all_strict};
ghost use Rattle.java_grammar.specs.Calls.{seen};
ghost use Rattle.java_grammar.specs.Reading.{chain_at};
ghost use Rattle.java_grammar.specs.Reading.{is_sign as is_this_sign};
ghost use Rattle.java_grammar.specs.Expressions.{name_or_none, ranks};
ghost use Rattle.java_grammar.specs.ReadingExpressions.{next_argument_at, arguments_at, query_of_element_at, query_of_long_at, query_of_truth_at, call_at, called_at, suffix_at, suffix_by, query_in, query_inside, source_at, source_end_at, new_at, grouped_at, literal_at, atom_at, dotted_at, behind_variable_at, named_at, head_at, part_at, postfix_at, negation_at, unary_at, is_operator, operand_at, rank_in, rank_at, inside, expression_at};

use crate::atoms::{
    creation, element_query, is_next_operator, is_next_variable, literal, operator, query_start,
    table_class,
};
use crate::calls::{Called, call_of, left_behind, name_or_empty};
use crate::nodes;
use crate::places::between;
use crate::tokens::{
    ends_before, is_next_sign, is_next_word, name, opening, sign, text, too_deep, variable,
};
use java_ast::{Expr, ExprNode};
use java_lex::Token;
use java_limits::longest;
use qbs_base::{Name, Span};
use readers::ReadError;
use std::alloc::Global;

/// All operators have ranks below this one.
const RANKS: u32 = 6;

/// An expression, where so many more things may be open.
#[tactic(auto, unfolding(crate::specs::ReadingExpressions::expression_at))]
pub fn expression(
    alloc: Global,
    room: u32,
    tokens: &[Token],
) -> Result<(Box<Expr>, &[Token]), ReadError>
    ensures { Gives (λ x. (expression_of x.0.value, all_strict x.1.now)) result (expression_at room (all_strict tokens.now)) }
{
    ranked(alloc, room, RANKS, tokens)
}

/// What stands behind something that opens.
#[cycle(expressions)]
#[tactic(auto, unfolding(crate::specs::ReadingExpressions::inside, crate::specs::ReadingExpressions::rank_at))]
fn enclosed(alloc: Global, room: u32, tokens: &[Token]) -> Result<(Box<Expr>, &[Token]), ReadError>
    ensures { Gives (λ x. (expression_of x.0.value, all_strict x.1.now)) result (inside room ranks (all_strict tokens.now)) }
{
    if room == 0 {
        return Err(too_deep(tokens));
    }
    ranked(alloc, room - 1, RANKS, tokens)
}

/// What stands behind a `!`.
#[cycle(expressions)]
#[tactic(auto, unfolding(crate::specs::ReadingExpressions::inside, crate::specs::ReadingExpressions::rank_in))]
fn negated(alloc: Global, room: u32, tokens: &[Token]) -> Result<(Box<Expr>, &[Token]), ReadError>
    ensures { Gives (λ x. (expression_of x.0.value, all_strict x.1.now)) result (inside room 0 (all_strict tokens.now)) }
{
    if room == 0 {
        return Err(too_deep(tokens));
    }
    unary(alloc, room - 1, tokens)
}

/// An expression without looser operators than those of its rank.
#[cycle(expressions)]
#[tactic(auto, unfolding(crate::specs::ReadingExpressions::rank_at, crate::specs::ReadingExpressions::rank_in))]
fn ranked(
    alloc: Global,
    room: u32,
    rank: u32,
    tokens: &[Token],
) -> Result<(Box<Expr>, &[Token]), ReadError>
    ensures { Gives (λ x. (expression_of x.0.value, all_strict x.1.now)) result (rank_at room rank (all_strict tokens.now)) }
{
    if rank == 0 {
        return unary(alloc, room, tokens);
    }
    let (first, rest) = ranked(alloc, room, rank - 1, tokens)?;
    chain(alloc, room, rank - 1, longest(room), tokens, first, rest)
}

/// The operators of a rank behind their first operand, and the other operands.
#[cycle(expressions)]
#[tactic(auto, unfolding(crate::specs::Reading::chain_at))]
fn chain<'a>(
    alloc: Global,
    room: u32,
    rank: u32,
    left: u32,
    from: &'a [Token],
    first: Box<Expr>,
    tokens: &'a [Token],
) -> Result<(Box<Expr>, &'a [Token]), ReadError>
    ensures { Gives (λ x. (expression_of x.0.value, all_strict x.1.now)) result (
        chain_at (is_operator rank) (operand_at rank (rank_at room rank)) left (all_strict from.now) (expression_of first.value) (all_strict tokens.now)) }
{
    if !is_next_operator(rank, tokens) {
        return Ok((first, tokens));
    }
    if left == 0 {
        return Err(too_deep(tokens));
    }
    let (node, rest) = operand(alloc, room, rank, left, first, tokens)?;
    let span = between(from, rest);
    let first = nodes::boxed(alloc, Expr { span, node })?;
    chain(alloc, room, rank, left - 1, from, first, rest)
}

/// An operator and its right operand.
#[cycle(expressions)]
#[tactic(auto, unfolding(crate::specs::ReadingExpressions::operand_at))]
fn operand(
    alloc: Global,
    room: u32,
    rank: u32,
    left: u32,
    first: Box<Expr>,
    tokens: &[Token],
) -> Result<(ExprNode, &[Token]), ReadError>
    ensures { Gives (λ x. (node_expression x.0, all_strict x.1.now)) result (
        operand_at rank (rank_at room rank) left (expression_of first.value) (all_strict tokens.now)) }
{
    let (operator, rest) = operator(left, rank, tokens)?;
    let (second, rest) = ranked(alloc, room, rank, rest)?;
    let node = nodes::binary(operator, first, second);
    Ok((node, rest))
}

#[cycle(expressions)]
#[tactic(auto, unfolding(crate::specs::ReadingExpressions::unary_at))]
fn unary(alloc: Global, room: u32, tokens: &[Token]) -> Result<(Box<Expr>, &[Token]), ReadError>
    ensures { Gives (λ x. (expression_of x.0.value, all_strict x.1.now)) result (unary_at room (inside room) (query_inside room) (all_strict tokens.now)) }
{
    if is_next_sign("!", tokens) {
        return negation(alloc, room, tokens);
    }
    postfix(alloc, room, tokens)
}

#[cycle(expressions)]
#[tactic(auto, unfolding(crate::specs::ReadingExpressions::negation_at))]
fn negation(alloc: Global, room: u32, tokens: &[Token]) -> Result<(Box<Expr>, &[Token]), ReadError>
    ensures { Gives (λ x. (expression_of x.0.value, all_strict x.1.now)) result (negation_at room (inside room) (all_strict tokens.now)) }
{
    let rest = opening(room, "!", tokens)?;
    let (operand, rest) = negated(alloc, room, rest)?;
    let node = nodes::negation(operand);
    let span = between(tokens, rest);
    let whole = nodes::boxed(alloc, Expr { span, node })?;
    Ok((whole, rest))
}

// ---- parts behind dots

/// What stands alone, and its parts behind dots.
#[cycle(expressions)]
#[tactic(auto, unfolding(crate::specs::ReadingExpressions::postfix_at))]
fn postfix(alloc: Global, room: u32, tokens: &[Token]) -> Result<(Box<Expr>, &[Token]), ReadError>
    ensures { Gives (λ x. (expression_of x.0.value, all_strict x.1.now)) result (postfix_at room (inside room) (query_inside room) (all_strict tokens.now)) }
{
    let (first, left, rest) = head(alloc, room, tokens)?;
    match left {
        None => Ok((first, rest)),
        Some(left) => parts(alloc, room, left, tokens, first, rest),
    }
}

/// A variable, what its first part makes of it, or what stands alone, and how many parts may follow.
#[cycle(expressions)]
#[tactic(auto, unfolding(crate::specs::ReadingExpressions::head_at))]
fn head(
    alloc: Global,
    room: u32,
    tokens: &[Token],
) -> Result<(Box<Expr>, Option<u32>, &[Token]), ReadError>
    ensures { Gives (λ x. ((expression_of x.0.value, x.1), all_strict x.2.now)) result (head_at room (inside room) (query_inside room) (all_strict tokens.now)) }
{
    if is_next_variable(tokens) {
        return named(alloc, room, tokens);
    }
    let (first, rest) = atom(alloc, room, tokens)?;
    Ok((first, Some(longest(room)), rest))
}

#[cycle(expressions)]
#[tactic(auto, unfolding(crate::specs::ReadingExpressions::named_at, crate::specs::ReadingExpressions::variable_at))]
fn named(
    alloc: Global,
    room: u32,
    tokens: &[Token],
) -> Result<(Box<Expr>, Option<u32>, &[Token]), ReadError>
    ensures { Gives (λ x. ((expression_of x.0.value, x.1), all_strict x.2.now)) result (named_at room (inside room) (all_strict tokens.now)) }
{
    let (variable, rest) = variable(tokens)?;
    let at = between(tokens, rest);
    let (node, left, rest) = behind_variable(alloc, room, variable, at, rest)?;
    let span = between(tokens, rest);
    let first = nodes::boxed(alloc, Expr { span, node })?;
    Ok((first, left, rest))
}

/// What stands behind a variable, and how many parts may follow: none where there is no dot.
#[cycle(expressions)]
#[tactic(auto, unfolding(crate::specs::ReadingExpressions::behind_variable_at))]
fn behind_variable<'a>(
    alloc: Global,
    room: u32,
    variable: &Name,
    at: Span,
    tokens: &'a [Token],
) -> Result<(ExprNode, Option<u32>, &'a [Token]), ReadError>
    ensures { Gives (λ x. ((node_expression x.0, x.1), all_strict x.2.now)) result (
        behind_variable_at room (inside room) (variable.now, plain.Var at variable.now) (all_strict tokens.now)) }
{
    if is_next_sign(".", tokens) {
        return dotted(alloc, room, variable, at, tokens);
    }
    let variable = variable.clone()?;
    Ok((ExprNode::Var(variable), None, tokens))
}

#[cycle(expressions)]
#[tactic(auto, unfolding(crate::specs::ReadingExpressions::dotted_at))]
fn dotted<'a>(
    alloc: Global,
    room: u32,
    variable: &Name,
    at: Span,
    tokens: &'a [Token],
) -> Result<(ExprNode, Option<u32>, &'a [Token]), ReadError>
    ensures { Gives (λ x. ((node_expression x.0, x.1), all_strict x.2.now)) result (
        dotted_at room (inside room) (variable.now, plain.Var at variable.now) (all_strict tokens.now)) }
{
    let rest = sign(".", tokens)?;
    let (member, rest) = name(rest)?;
    let node = ExprNode::Var(variable.clone()?);
    let row = nodes::boxed(alloc, Expr { span: at, node })?;
    let (node, left, rest) = suffix(
        alloc,
        room,
        Some(variable),
        row,
        member,
        longest(room),
        rest,
    )?;
    Ok((node, Some(left), rest))
}

/// The parts behind an expression, which begins at `from`, where so many may follow.
#[cycle(expressions)]
#[tactic(auto, unfolding(crate::specs::Reading::chain_at))]
fn parts<'a>(
    alloc: Global,
    room: u32,
    left: u32,
    from: &'a [Token],
    first: Box<Expr>,
    tokens: &'a [Token],
) -> Result<(Box<Expr>, &'a [Token]), ReadError>
    ensures { Gives (λ x. (expression_of x.0.value, all_strict x.1.now)) result (
        chain_at (is_this_sign (codes ".")) (part_at room (inside room)) left (all_strict from.now) (expression_of first.value) (all_strict tokens.now)) }
{
    if !is_next_sign(".", tokens) {
        return Ok((first, tokens));
    }
    if left == 0 {
        return Err(too_deep(tokens));
    }
    let (node, rest) = part(alloc, room, left, first, tokens)?;
    let span = between(from, rest);
    let first = nodes::boxed(alloc, Expr { span, node })?;
    parts(alloc, room, left - 1, from, first, rest)
}

/// One part behind an expression.
#[cycle(expressions)]
#[tactic(auto, unfolding(crate::specs::ReadingExpressions::part_at))]
fn part(
    alloc: Global,
    room: u32,
    left: u32,
    first: Box<Expr>,
    tokens: &[Token],
) -> Result<(ExprNode, &[Token]), ReadError>
    ensures { Gives (λ x. (node_expression x.0, all_strict x.1.now)) result (part_at room (inside room) left (expression_of first.value) (all_strict tokens.now)) }
{
    let rest = opening(left, ".", tokens)?;
    let (member, rest) = name(rest)?;
    let (node, _, rest) = suffix(alloc, room, None, first, member, left, rest)?;
    Ok((node, rest))
}

/// What stands behind a dot and a member: a call, or nothing, and how many parts may follow.
#[cycle(expressions)]
#[tactic(auto, unfolding(crate::specs::ReadingExpressions::suffix_at, crate::specs::ReadingExpressions::suffix_by))]
fn suffix<'a>(
    alloc: Global,
    room: u32,
    bare: Option<&Name>,
    row: Box<Expr>,
    member: &Name,
    left: u32,
    tokens: &'a [Token],
) -> Result<(ExprNode, u32, &'a [Token]), ReadError>
    ensures { Gives (λ x. ((node_expression x.0, x.1), all_strict x.2.now)) result (
        suffix_at room (inside room) (option_copied bare.entry) (expression_of row.value) member.now left (all_strict tokens.now)) }
{
    if !is_next_sign("(", tokens) {
        let node = nodes::field(row, member)?;
        return Ok((node, left.saturating_sub(1), tokens));
    }
    let Some(call) = call_of(bare, member.as_str()) else {
        let node = nodes::field(row, member)?;
        return Ok((node, left.saturating_sub(1), tokens));
    };
    let (node, rest) = called(alloc, room, bare, row, call, tokens)?;
    Ok((node, left_behind(call, left), rest))
}

/// A call in its parentheses.
#[cycle(expressions)]
#[tactic(auto, unfolding(crate::specs::ReadingExpressions::called_at))]
fn called<'a>(
    alloc: Global,
    room: u32,
    bare: Option<&Name>,
    row: Box<Expr>,
    call: Called,
    tokens: &'a [Token],
) -> Result<(ExprNode, &'a [Token]), ReadError>
    ensures { Gives (λ x. (node_expression x.0, all_strict x.1.now)) result (
        called_at room (inside room) (name_or_none (option_copied bare.entry)) (expression_of row.value) (seen call) (all_strict tokens.now)) }
{
    let rest = opening(room, "(", tokens)?;
    let name = name_or_empty(alloc, bare)?;
    let (node, rest) = call_parts(alloc, room, name, row, call, rest)?;
    let rest = sign(")", rest)?;
    Ok((node, rest))
}

/// What stands in the parentheses of a call.
#[cycle(expressions)]
#[tactic(auto, unfolding(crate::specs::ReadingExpressions::call_at))]
fn call_parts(
    alloc: Global,
    room: u32,
    name: Name,
    row: Box<Expr>,
    call: Called,
    tokens: &[Token],
) -> Result<(ExprNode, &[Token]), ReadError>
    ensures { Gives (λ x. (node_expression x.0, all_strict x.1.now)) result (call_at (inside room) name (expression_of row.value) (seen call) (all_strict tokens.now)) }
{
    match call {
        Called::SizeOf => Ok((ExprNode::Size(name), tokens)),
        Called::FetchFrom => {
            let (table, rest) = table_class(tokens)?;
            let table = table.clone()?;
            Ok((ExprNode::Fetch(table), rest))
        }
        Called::EqualTo => {
            let (other, rest) = enclosed(alloc, room, tokens)?;
            Ok((nodes::equals(row, other), rest))
        }
        Called::GetFrom => {
            let (index, rest) = enclosed(alloc, room, tokens)?;
            Ok((nodes::get(name, index), rest))
        }
        Called::ContainedIn => {
            let (item, rest) = enclosed(alloc, room, tokens)?;
            Ok((nodes::contains(name, item), rest))
        }
        Called::QueryOf => query_of_element(alloc, room, tokens),
        Called::QueryOfLong => query_of_long(alloc, room, tokens),
        Called::QueryOfBoolean => query_of_truth(alloc, room, tokens),
    }
}

// ---- queries

#[cycle(expressions)]
#[tactic(auto, unfolding(crate::specs::ReadingExpressions::query_of_element_at))]
fn query_of_element(
    alloc: Global,
    room: u32,
    tokens: &[Token],
) -> Result<(ExprNode, &[Token]), ReadError>
    ensures { Gives (λ x. (node_expression x.0, all_strict x.1.now)) result (query_of_element_at (inside room) (all_strict tokens.now)) }
{
    let (ty, text, rest) = element_query(tokens)?;
    let (arguments, rest) = arguments(alloc, room, rest)?;
    let node = nodes::query(ty, text, arguments)?;
    Ok((node, rest))
}

#[cycle(expressions)]
#[tactic(auto, unfolding(crate::specs::ReadingExpressions::query_of_long_at))]
fn query_of_long(
    alloc: Global,
    room: u32,
    tokens: &[Token],
) -> Result<(ExprNode, &[Token]), ReadError>
    ensures { Gives (λ x. (node_expression x.0, all_strict x.1.now)) result (query_of_long_at (inside room) (all_strict tokens.now)) }
{
    let (text, rest) = text(tokens)?;
    let (arguments, rest) = arguments(alloc, room, rest)?;
    let node = nodes::query_long(text, arguments)?;
    Ok((node, rest))
}

#[cycle(expressions)]
#[tactic(auto, unfolding(crate::specs::ReadingExpressions::query_of_truth_at))]
fn query_of_truth(
    alloc: Global,
    room: u32,
    tokens: &[Token],
) -> Result<(ExprNode, &[Token]), ReadError>
    ensures { Gives (λ x. (node_expression x.0, all_strict x.1.now)) result (query_of_truth_at (inside room) (all_strict tokens.now)) }
{
    let (text, rest) = text(tokens)?;
    let (arguments, rest) = arguments(alloc, room, rest)?;
    let node = nodes::query_boolean(text, arguments)?;
    Ok((node, rest))
}

/// Arguments, each with a comma before it.
#[cycle(expressions)]
fn arguments(alloc: Global, room: u32, tokens: &[Token]) -> Result<(Vec<Expr>, &[Token]), ReadError>
    ensures { Gives (λ x. (map expression_of x.0.items, all_strict x.1.now)) result (arguments_at (inside room) (all_strict tokens.now)) }
{
    let mut arguments = Vec::new(alloc);
    let mut rest = tokens;
    // Each has a token at least.
    for _ in 0..tokens.len() {
        if ends_before(",", rest) {
            break;
        }
        let (argument, after) = next_argument(alloc, room, rest)?;
        arguments.push(argument)?;
        rest = after;
    }
    Ok((arguments, rest))
}

#[cycle(expressions)]
#[tactic(auto, unfolding(crate::specs::ReadingExpressions::next_argument_at))]
fn next_argument(alloc: Global, room: u32, tokens: &[Token]) -> Result<(Expr, &[Token]), ReadError>
    ensures { Gives (λ x. (expression_of x.0, all_strict x.1.now)) result (next_argument_at (inside room) (all_strict tokens.now)) }
{
    let rest = sign(",", tokens)?;
    let (argument, rest) = enclosed(alloc, room, rest)?;
    Ok((Box::into_inner(argument), rest))
}

/// A query where nothing else may stand, behind something that opens.
#[cycle(expressions)]
#[tactic(auto, unfolding(crate::specs::ReadingExpressions::query_inside))]
fn enclosed_query(
    alloc: Global,
    room: u32,
    tokens: &[Token],
) -> Result<(Box<Expr>, &[Token]), ReadError>
    ensures { Gives (λ x. (expression_of x.0.value, all_strict x.1.now)) result (query_inside room (all_strict tokens.now)) }
{
    if room == 0 {
        return Err(too_deep(tokens));
    }
    query(alloc, room - 1, tokens)
}

#[cycle(expressions)]
#[tactic(auto, unfolding(crate::specs::ReadingExpressions::query_in))]
fn query(alloc: Global, room: u32, tokens: &[Token]) -> Result<(Box<Expr>, &[Token]), ReadError>
    ensures { Gives (λ x. (expression_of x.0.value, all_strict x.1.now)) result (query_in room (inside room) (all_strict tokens.now)) }
{
    let (call, rest) = query_start(room, tokens)?;
    let (name, row) = nodes::nothing(alloc)?;
    let (node, rest) = call_parts(alloc, room, name, row, call, rest)?;
    let rest = sign(")", rest)?;
    let span = between(tokens, rest);
    let query = nodes::boxed(alloc, Expr { span, node })?;
    Ok((query, rest))
}

// ---- what stands alone

/// The query of which a new set is, if there is one.
#[cycle(expressions)]
#[tactic(auto, unfolding(crate::specs::ReadingExpressions::source_at))]
fn source(
    alloc: Global,
    room: u32,
    set: bool,
    tokens: &[Token],
) -> Result<(Option<Box<Expr>>, &[Token]), ReadError>
    ensures { Gives (λ x. (option_map (λ e. expression_of e.value) x.0, all_strict x.1.now)) result (source_at (query_inside room) set (all_strict tokens.now)) }
{
    if set && is_next_word("db", tokens) {
        let (query, rest) = enclosed_query(alloc, room, tokens)?;
        return Ok((Some(query), rest));
    }
    Ok((None, tokens))
}

#[cycle(expressions)]
#[tactic(auto, unfolding(crate::specs::ReadingExpressions::source_end_at))]
fn source_end(
    alloc: Global,
    room: u32,
    set: bool,
    tokens: &[Token],
) -> Result<(Option<Box<Expr>>, &[Token]), ReadError>
    ensures { Gives (λ x. (option_map (λ e. expression_of e.value) x.0, all_strict x.1.now)) result (source_end_at (query_inside room) set (all_strict tokens.now)) }
{
    let (query, rest) = source(alloc, room, set, tokens)?;
    let rest = sign(")", rest)?;
    Ok((query, rest))
}

/// A new list or set.
#[cycle(expressions)]
#[tactic(auto, unfolding(crate::specs::ReadingExpressions::new_at))]
fn new(alloc: Global, room: u32, tokens: &[Token]) -> Result<(Box<Expr>, &[Token]), ReadError>
    ensures { Gives (λ x. (expression_of x.0.value, all_strict x.1.now)) result (new_at room (query_inside room) (all_strict tokens.now)) }
{
    let (set, rest) = creation(room, tokens)?;
    let (query, rest) = source_end(alloc, room, set, rest)?;
    let node = nodes::creation(set, query);
    let span = between(tokens, rest);
    let whole = nodes::boxed(alloc, Expr { span, node })?;
    Ok((whole, rest))
}

#[cycle(expressions)]
#[tactic(auto, unfolding(crate::specs::ReadingExpressions::grouped_at))]
fn grouped(alloc: Global, room: u32, tokens: &[Token]) -> Result<(Box<Expr>, &[Token]), ReadError>
    ensures { Gives (λ x. (expression_of x.0.value, all_strict x.1.now)) result (grouped_at room (inside room) (all_strict tokens.now)) }
{
    let rest = opening(room, "(", tokens)?;
    let (inner, rest) = enclosed(alloc, room, rest)?;
    let rest = sign(")", rest)?;
    Ok((inner, rest))
}

fn boxed_literal(alloc: Global, tokens: &[Token]) -> Result<(Box<Expr>, &[Token]), ReadError>
    ensures { Gives (λ x. (expression_of x.0.value, all_strict x.1.now)) result (literal_at (all_strict tokens.now)) }
{
    let (value, rest) = literal(tokens)?;
    let value = nodes::boxed(alloc, value)?;
    Ok((value, rest))
}

#[cycle(expressions)]
#[tactic(auto, unfolding(crate::specs::ReadingExpressions::atom_at))]
fn atom(alloc: Global, room: u32, tokens: &[Token]) -> Result<(Box<Expr>, &[Token]), ReadError>
    ensures { Gives (λ x. (expression_of x.0.value, all_strict x.1.now)) result (atom_at room (inside room) (query_inside room) (all_strict tokens.now)) }
{
    if is_next_sign("(", tokens) {
        return grouped(alloc, room, tokens);
    }
    if is_next_word("new", tokens) {
        return new(alloc, room, tokens);
    }
    boxed_literal(alloc, tokens)
}
