// The value of an expression.
ghost use Rattle.std.specs.Prelude.{◌≡◌, Ok, pos};
ghost use Rattle.qbs_base.specs.declared.scalar.Value.TheVariants as values;
ghost use Rattle.qbs_base.specs.Named.{at_name};
ghost use Rattle.sql_ast.specs.Grouped.{firsts};
ghost use Rattle.java_ast.specs.Reading.{expression, expressions};
ghost use Rattle.java_mean.specs.Endings.{found};
ghost use Rattle.java_mean.specs.Expression as meant;
ghost use Rattle.java_mean.specs.Expression.{same_member};
ghost use Rattle.java_steps.specs.Gives.{Gives, GivesBy};
ghost use Rattle.java_steps.specs.Held.{one_held, rows_in, value_in};
ghost use Rattle.java_steps.specs.Running.{world};
ghost use Rattle.java_steps.specs.Words.{held_at, scalar_at, list_at, size_at, member_at, cell_in, scalar_in, field_in, operated_in, opposite_in, same_text_in, member_in, contained_in, distinct_in, asked_in, fetched as fetched_in};

use crate::asked::{bool_of, list_in, long_of, row_of, scalar_of};
use crate::firsts::first_rows;
use crate::held::{Held, List, Variable, held_again, list_again, rows};
use crate::operators::{applied, same_texts, settled, size_number};
use crate::queries::ask;
use crate::rows::{cell, element, has_member, row_at};
use crate::source::Source;
use crate::stop::Stop;
use crate::store::Store;
use java_ast::{Expr, ExprNode, Op};
use java_mean::{Ending, RunFault};
use qbs_base::{Name, Row, Scalar, Scalars, Span, Text, copy_scalar};
use std::alloc::Global;

// What the variable of this name holds.
fn held<'b, 'a>(store: &'b Store<'a>, number: usize, name: &Name) -> Result<&'b Held<'a>, Stop>
    ensures { GivesBy (λ h. value_in h.now) result (held_at store.now name.now) }
{
    match store.get(number, name) {
        Some(variable) => Ok(&variable.held),
        None => Err(Stop::Ends(Ending::Stuck)),
    }
}

// A list or a set by its name.
fn list_held<'b, 'a>(store: &'b Store<'a>, number: usize, name: &Name) -> Result<&'b List<'a>, Stop>
    ensures { GivesBy (λ l. rows_in l.now) result (list_at store.now name.now) }
{
    match held(store, number, name)? {
        Held::One(_) => Err(Stop::Ends(Ending::Stuck)),
        Held::Whole(_) => Err(Stop::Ends(Ending::Stuck)),
        Held::Lent(_) => Err(Stop::Ends(Ending::Stuck)),
        Held::Many(list) => Ok(list),
    }
}

// The rows of a list or a set by its name.
fn list<'b, 'a>(store: &'b Store<'a>, number: usize, name: &Name) -> Result<&'b [Row], Stop>
    ensures { GivesBy (λ rows. rows.now) result (list_at store.now name.now) }
{
    Ok(rows(list_held(store, number, name)?))
}

// Whether a scalar is a member of a list.
#[inline(never)]
fn has_scalar(alloc: Global, list: &List, x: Scalar) -> Result<Scalar, Stop>
    ensures { GivesBy values.One result (Ok (meant.truth (meant.is_among (rows_in list.now) (meant.alone x)))) }
{
    Ok(Scalar::Bool(has_member(alloc, list, &[x])?))
}

// The scalar that a literal is.
#[inline(never)]
fn literal(alloc: Global, x: &Scalar) -> Result<Scalar, Stop>
    ensures { Gives result (Ok x.now) }
{
    Ok(copy_scalar(alloc, x)?)
}

// A scalar as a value.
#[inline(never)]
fn one<'a>(x: Result<Scalar, Stop>) -> Result<Held<'a>, Stop>
    ensures { result ≡ one_held x }
{
    match x {
        Ok(x) => Ok(Held::One(x)),
        Err(stop) => Err(stop),
    }
}

// The value of a variable.
#[inline(never)]
fn value<'a>(alloc: Global, store: &Store<'a>, number: usize, name: &Name) -> Result<Held<'a>, Stop>
    ensures { GivesBy value_in result (held_at store.now name.now) }
{
    Ok(held_again(alloc, held(store, number, name)?)?)
}

// The scalar of a variable.
#[inline(never)]
fn scalar_held(alloc: Global, store: &Store, number: usize, name: &Name) -> Result<Scalar, Stop>
    ensures { Gives result (scalar_at store.now name.now) }
{
    match held(store, number, name)? {
        Held::One(x) => Ok(copy_scalar(alloc, x)?),
        Held::Whole(_) => Err(Stop::Ends(Ending::Stuck)),
        Held::Lent(_) => Err(Stop::Ends(Ending::Stuck)),
        Held::Many(_) => Err(Stop::Ends(Ending::Stuck)),
    }
}

// How many rows a list or a set has.
#[inline(never)]
fn size(store: &Store, number: usize, name: &Name, at: &Span) -> Result<Scalar, Stop>
    ensures { GivesBy values.One result (size_at at.now store.now name.now) }
{
    size_number(*at, list(store, number, name)?.len())
}

// The cell of a row.
#[inline(never)]
fn cell_of(source: &Source, row: &Row, name: &Name) -> Result<Scalar, Stop>
    ensures { Gives result (cell_in (world source.now) row.now name.now) }
{
    match cell(source.queries.schema(), row, name) {
        Some(x) => Ok(copy_scalar(source.alloc, x)?),
        None => Err(Stop::Ends(Ending::Stuck)),
    }
}

// The member at a place of a list.
#[inline(never)]
fn member<'a>(alloc: Global, rows: &[Row], n: i64, at: Span) -> Result<Held<'a>, Stop>
    ensures { GivesBy value_in result (member_at at rows.now n) }
{
    match row_at(rows, n) {
        Some(row) => Ok(element(alloc, row)?),
        None => Err(Stop::Ends(Ending::Faulted(RunFault::OutOfRange, at))),
    }
}

#[inline(never)]
fn fetched<'a>(source: &Source<'a>, table: &Name) -> Result<Held<'a>, Stop>
    ensures { GivesBy value_in result (fetched_in (world source.now) table.now) }
{
    match source.tables.table(table) {
        Some(rows) => Ok(Held::Many(List::Lent(rows.as_slice()))),
        None => Err(Stop::Ends(Ending::Stuck)),
    }
}

// The cell of the row that an expression gives. The row of a variable isn't copied.
#[inline(never)]
#[cycle(eval)]
fn field(row: &Expr, source: &Source, store: &Store, name: &Name) -> Result<Scalar, Stop>
    ensures { Gives result (field_in (expression row.now) (world source.now) store.now name.now) }
{
    if let ExprNode::Var(x) = &row.node {
        return match held(store, source.numbers.at(row.span), x)? {
            Held::One(_) => Err(Stop::Ends(Ending::Stuck)),
            Held::Whole(row) => cell_of(source, row, name),
            Held::Lent(row) => cell_of(source, row, name),
            Held::Many(_) => Err(Stop::Ends(Ending::Stuck)),
        };
    }
    let row = row_of(source.alloc, eval(row, source, store)?)?;
    cell_of(source, &row, name)
}

// The operator's value, where its first operand gave this scalar.
#[inline(never)]
#[cycle(eval)]
fn operated(
    op: Op,
    at: &Span,
    x: &Scalar,
    b: &Expr,
    source: &Source,
    store: &Store,
) -> Result<Scalar, Stop>
    ensures { GivesBy values.One result (operated_in op at.now x.now (expression b.now) (world source.now) store.now) }
{
    if let Some(b) = settled(op, x) {
        return Ok(Scalar::Bool(b));
    }
    let y = scalar(b, source, store)?;
    applied(op, *at, x, &y)
}

// The opposite of what an expression gives.
#[inline(never)]
#[cycle(eval)]
fn opposite(a: &Expr, source: &Source, store: &Store) -> Result<Scalar, Stop>
    ensures { GivesBy values.One result (opposite_in (expression a.now) (world source.now) store.now) }
{
    let x = scalar(a, source, store)?;
    Ok(Scalar::Bool(!bool_of(&x)?))
}

// Whether an expression gives this very text.
#[inline(never)]
#[cycle(eval)]
fn gives_text(x: &Scalar, b: &Expr, source: &Source, store: &Store) -> Result<Scalar, Stop>
    ensures { GivesBy values.One result (same_text_in x.now (expression b.now) (world source.now) store.now) }
{
    let y = scalar(b, source, store)?;
    Ok(Scalar::Bool(same_texts(x, &y)?))
}

// The member of a list at the place that an expression gives.
#[inline(never)]
#[cycle(eval)]
fn member_of<'a>(
    list_name: &Name,
    a: &Expr,
    at: &Span,
    source: &Source,
    store: &Store,
) -> Result<Held<'a>, Stop>
    ensures { GivesBy value_in result (member_in at.now list_name.now (expression a.now) (world source.now) store.now) }
{
    let rows = list(store, source.numbers.at(*at), list_name)?;
    let y = scalar(a, source, store)?;
    member(source.alloc, rows, long_of(&y)?, *at)
}

// Whether what an expression gives is among the rows of a list.
#[inline(never)]
#[cycle(eval)]
fn contained(
    list_name: &Name,
    a: &Expr,
    at: &Span,
    source: &Source,
    store: &Store,
) -> Result<Scalar, Stop>
    ensures { GivesBy values.One result (contained_in list_name.now (expression a.now) (world source.now) store.now) }
{
    let list = list_held(store, source.numbers.at(*at), list_name)?;
    let y = scalar(a, source, store)?;
    has_scalar(source.alloc, list, y)
}

// The rows that an expression gives, each at its first place.
#[inline(never)]
#[cycle(eval)]
fn distinct<'a>(a: &Expr, source: &Source, store: &Store) -> Result<Held<'a>, Stop>
    ensures { GivesBy value_in result (distinct_in (expression a.now) (world source.now) store.now) }
{
    let list = list_in(eval(a, source, store)?)?;
    Ok(Held::Many(first_rows(source.alloc, &list)?))
}

// The scalar of an expression that may give anything.
#[inline(never)]
#[cycle(eval)]
fn scalar_given(e: &Expr, source: &Source, store: &Store) -> Result<Scalar, Stop>
    ensures { Gives result (scalar_in (expression e.now) (world source.now) store.now) }
{
    scalar_of(eval(e, source, store)?)
}

/// The scalar that an expression gives. What gives scalars alone makes no other value on the way, so
/// that operators which stand deep in each other take little stack.
#[inline(never)]
#[cycle(eval)]
#[tactic(auto, using(java_ast::proofs::Nodes::nodes))]
pub fn scalar(e: &Expr, source: &Source, store: &Store) -> Result<Scalar, Stop>
    ensures { Gives result (scalar_in (expression e.now) (world source.now) store.now) }
{
    match &e.node {
        ExprNode::Lit(x) => literal(source.alloc, x),
        ExprNode::Var(x) => scalar_held(source.alloc, store, source.numbers.at(e.span), x),
        ExprNode::Field(row, name) => field(row, source, store, name),
        ExprNode::Binary(op, a, b) => {
            let x = scalar(a, source, store)?;
            operated(*op, &e.span, &x, b, source, store)
        }
        ExprNode::Not(a) => opposite(a, source, store),
        _ => scalar_given(e, source, store),
    }
}

/// The value of an expression, or the first fault from left to right.
///
/// It calls itself for the parts of an expression, as deep as the tree is, which the grammar limits.
#[cycle(eval)]
#[tactic(auto, using(java_ast::proofs::Nodes::nodes, crate::proofs::Occurring::query_asked, crate::proofs::Occurring::query_long_asked, crate::proofs::Occurring::query_boolean_asked))]
pub fn eval<'a>(e: &Expr, source: &Source<'a>, store: &Store<'a>) -> Result<Held<'a>, Stop>
    ensures { GivesBy value_in result (meant.value_of (expression e.now) (world source.now) store.now) }
{
    let at = &e.span;
    let x = match &e.node {
        ExprNode::Lit(x) => literal(source.alloc, x),
        ExprNode::Var(x) => return value(source.alloc, store, source.numbers.at(*at), x),
        ExprNode::Field(row, name) => field(row, source, store, name),
        ExprNode::Binary(op, a, b) => {
            let x = scalar(a, source, store)?;
            operated(*op, at, &x, b, source, store)
        }
        ExprNode::Not(a) => opposite(a, source, store),
        ExprNode::Equals(a, b) => {
            let x = scalar(a, source, store)?;
            gives_text(&x, b, source, store)
        }
        ExprNode::Size(x) => size(store, source.numbers.at(*at), x, at),
        ExprNode::Get(x, a) => return member_of(x, a, at, source, store),
        ExprNode::Contains(x, a) => contained(x, a, at, source, store),
        ExprNode::Fetch(table) => return fetched(source, table),
        ExprNode::Query(_, text, args) => return asked(args, source, store, *at, text),
        ExprNode::QueryLong(text, args) => return asked(args, source, store, *at, text),
        ExprNode::QueryBoolean(text, args) => return asked(args, source, store, *at, text),
        ExprNode::NewList => return Ok(Held::Many(List::Lent(&[]))),
        ExprNode::NewSet(None) => return Ok(Held::Many(List::Lent(&[]))),
        ExprNode::NewSet(Some(a)) => return distinct(a, source, store),
    };
    one(x)
}

// The answer of a text's query to the scalars of expressions.
#[inline(never)]
#[cycle(eval)]
fn asked<'a>(
    args: &[Expr],
    source: &Source,
    store: &Store,
    at: Span,
    text: &Text,
) -> Result<Held<'a>, Stop>
    ensures { GivesBy value_in result (asked_in (expressions args.now) (world source.now) store.now at text.now) }
{
    let xs = scalars(args, source, store)?;
    ask(source, at, text, &xs)
}

// The scalars of expressions from left to right.
#[inline(never)]
#[cycle(eval)]
#[tactic(auto, using(crate::proofs::Occurring::scalars_step, crate::proofs::Occurring::scalars_stop, crate::proofs::Occurring::scalars_stuck, crate::proofs::Occurring::scalars_begin))]
fn scalars(es: &[Expr], source: &Source, store: &Store) -> Result<Scalars, Stop>
    ensures { Gives result (meant.scalars_of (expressions es.now) (world source.now) store.now) }
{
    let mut xs = Scalars::new(source.alloc);
    for e in es {
        xs.push(scalar(e, source, store)?)?;
    }
    Ok(xs)
}
