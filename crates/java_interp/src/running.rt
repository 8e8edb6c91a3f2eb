// Statements run.
ghost use Rattle.std.specs.Prelude.{◌≡◌};
ghost use Rattle.java_ast.specs.Reading.{expression, statement, statements};
ghost use Rattle.java_mean.specs.Statement.{meaning, meanings, each, repeat, test_of};
ghost use Rattle.java_interp.specs.Passing.{Passes};
ghost use Rattle.java_steps.specs.Held.{rows_in};
ghost use Rattle.java_steps.specs.Running.{state, world};

use crate::turn::take_turn;
use crate::way::Way;
use java_ast::{Expr, Stmt, StmtNode};
use java_steps::held::{List, Variable, rows};
use java_steps::machine::Machine;
use java_steps::numbers::Slot;
use java_steps::rows::member;
use java_steps::source::Source;
use java_steps::steps::{add, assign, declare, give_back, print, rows_of, sort, test};
use java_steps::stop::Stop;

/// Runs statements one after the other, as long as they go on.
///
/// It calls itself for the statements in a statement, as deep as the source is, which its reader
/// bounds.
#[cycle(run)]
#[tactic(auto, using(crate::proofs::Passing::statement_on, crate::proofs::Passing::statement_leaves, crate::proofs::Passing::statement_returns, crate::proofs::Passing::statement_stops))]
pub fn run_block<'a>(
    block: &'a [Stmt],
    source: &Source<'a>,
    m: &mut Machine<'a>,
) -> Result<Way, Stop>
    ensures { Passes result m.new (meanings (statements block.now) (world source.now) (state m.old)) }
{
    for s in block {
        match run_statement(s, source, m)? {
            Way::On => {}
            Way::Leaves => return Ok(Way::Leaves),
            Way::Returns => return Ok(Way::Returns),
        }
    }
    Ok(Way::On)
}

// Runs a statement.
#[inline(never)]
#[cycle(run)]
#[tactic(auto, using(java_ast::proofs::Nodes::nodes, crate::proofs::Branches::if_true, crate::proofs::Branches::if_false, crate::proofs::Branches::for_each_over))]
fn run_statement<'a>(s: &'a Stmt, source: &Source<'a>, m: &mut Machine<'a>) -> Result<Way, Stop>
    ensures { Passes result m.new (meaning (statement s.now) (world source.now) (state m.old)) }
{
    match &s.node {
        StmtNode::Declare { ty, name, value } => {
            declare(source, source.numbers.at(s.span), ty, name, value, m)?;
            Ok(Way::On)
        }
        StmtNode::Assign { name, value } => {
            assign(source, source.numbers.at(s.span), name, value, m)?;
            Ok(Way::On)
        }
        StmtNode::Add { name, value } => {
            add(source, source.numbers.at(s.span), name, value, m)?;
            Ok(Way::On)
        }
        StmtNode::Sort { name, keys, down } => {
            let number = source.numbers.at(s.span);
            sort(source, number, name, keys.as_slice(), down.as_slice(), m)?;
            Ok(Way::On)
        }
        StmtNode::If { cond, yes, other } => {
            if test(source, cond, m)? {
                return run_block(yes, source, m);
            }
            match other {
                None => Ok(Way::On),
                Some(other) => run_block(other, source, m),
            }
        }
        StmtNode::ForEach {
            ty: _,
            name,
            list,
            body,
        } => {
            let number = source.numbers.at(s.span);
            let rows = rows_of(source, list, m)?;
            run_each(body, Slot { number, name }, &rows, source, m)
        }
        StmtNode::While { cond, body } => run_while(body, cond, source, m),
        StmtNode::Print { value } => {
            print(source, value, m)?;
            Ok(Way::On)
        }
        StmtNode::Return { value } => {
            give_back(source, value, m)?;
            Ok(Way::Returns)
        }
        StmtNode::Break => Ok(Way::Leaves),
    }
}

// Runs statements once for each member of a list.
#[inline(never)]
#[cycle(run)]
#[tactic(auto, using(crate::proofs::Passing::each_out, crate::proofs::Passing::each_on, crate::proofs::Passing::each_left, crate::proofs::Passing::each_returned, crate::proofs::Passing::each_stops, crate::proofs::Passing::each_over))]
fn run_each<'a>(
    body: &'a [Stmt],
    x: Slot<'a>,
    list: &List<'a>,
    source: &Source<'a>,
    m: &mut Machine<'a>,
) -> Result<Way, Stop>
    ensures { Passes result m.new (each (rows_in list.now) x.entry.name.now (meanings (statements body.now) (world source.now)) (state m.old)) }
{
    for i in 0..rows(list).len() {
        let held = member(source.alloc, list, i)?;
        take_turn(m)?;
        let is_set = false;
        m.store
            .replace(x.number, x.name, Variable { held, is_set })?;
        match run_block(body, source, m)? {
            Way::On => {}
            Way::Leaves => return Ok(Way::On),
            Way::Returns => return Ok(Way::Returns),
        }
    }
    Ok(Way::On)
}

// Runs statements as long as a condition holds.
#[inline(never)]
#[cycle(run)]
#[tactic(auto, using(crate::proofs::Passing::repeat_on, crate::proofs::Passing::repeat_left, crate::proofs::Passing::repeat_returned, crate::proofs::Passing::repeat_fails, crate::proofs::Passing::turns_fall, crate::proofs::Turns::repeat_out, crate::proofs::Turns::repeat_over, crate::proofs::Turns::repeat_stops))]
fn run_while<'a>(
    body: &'a [Stmt],
    cond: &Expr,
    source: &Source<'a>,
    m: &mut Machine<'a>,
) -> Result<Way, Stop>
    ensures { Passes result m.new (
        repeat m.old.turns (test_of (expression cond.now) (world source.now)) (meanings (statements body.now) (world source.now)) (state m.old)) }
{
    while test(source, cond, m)? {
        take_turn(m)?;
        match run_block(body, source, m)? {
            Way::On => {}
            Way::Leaves => return Ok(Way::On),
            Way::Returns => return Ok(Way::Returns),
        }
    }
    Ok(Way::On)
}
