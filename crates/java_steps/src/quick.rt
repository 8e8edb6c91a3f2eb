// Numbers and truth values of expressions, where no fault comes on the way.
//
// They are copied for nothing, and no other value is made: nothing is allocated, and nothing dropped. Where none is given,
// as where a sum is too large, or where a text or a row takes part, `eval` says what comes.
ghost use Rattle.std.specs.Prelude.{◌≡◌, ◌+ℤ◌, ◌-ℤ◌, ◌*ℤ◌, Ok};
ghost use Rattle.qbs_base.specs.declared.scalar.Value.TheVariants as values;
ghost use Rattle.qbs_base.specs.declared.scalar.Scalar.TheVariants as scalars;
ghost use Rattle.qbs_base.specs.Scalar.{scalar_same};
ghost use Rattle.java_ast.specs.Reading.{expression};
ghost use Rattle.java_ast.specs.Tree.{Binary, Field};
ghost use Rattle.java_mean.specs.Expression as meant;
ghost use Rattle.java_steps.specs.Quick.{IfLong, IfTruth, IfScalar, operated_on};
ghost use Rattle.java_steps.specs.Running.{world};
ghost use Rattle.java_steps.specs.Words.{held_at};

use crate::held::Held;
use crate::rows::cell;
use crate::source::Source;
use crate::store::Store;
use java_ast::{Expr, ExprNode, Op};
use qbs_base::{Name, Scalar, Span};

fn long_in(x: &Scalar) -> Option<i64>
    ensures { IfLong result (Ok (values.One x.now)) }
{
    match x {
        Scalar::Long(n) => Some(*n),
        Scalar::Bool(_) => None,
        Scalar::Text(_) => None,
    }
}

fn truth_in(x: &Scalar) -> Option<bool>
    ensures { IfTruth result (Ok (values.One x.now)) }
{
    match x {
        Scalar::Long(_) => None,
        Scalar::Bool(b) => Some(*b),
        Scalar::Text(_) => None,
    }
}

// The scalar that a variable holds, if it holds one.
#[inline(always)]
fn held_scalar<'b>(store: &'b Store, number: usize, name: &Name) -> Option<&'b Scalar>
    ensures { IfScalar result (held_at store.now name.now) }
{
    match store.get(number, name) {
        Some(variable) => match &variable.held {
            Held::One(x) => Some(x),
            Held::Whole(_) => None,
            Held::Lent(_) => None,
            Held::Many(_) => None,
        },
        None => None,
    }
}

// The cell of the row that a variable holds, if the expression is one and it holds a row with such a cell.
#[tactic(auto, using(java_ast::proofs::Nodes::nodes, crate::proofs::Quickly::cell_comes))]
fn cell_of<'b>(
    row: &Expr,
    source: &'b Source,
    store: &'b Store,
    name: &Name,
    at: &Span,
) -> Option<&'b Scalar>
    ensures { IfScalar result (meant.value_of (Field at.now (expression row.now) name.now) (world source.now) store.now) }
{
    let ExprNode::Var(x) = &row.node else {
        return None;
    };
    match store.get(source.numbers.at(row.span), x) {
        Some(variable) => match &variable.held {
            Held::One(_) => None,
            Held::Whole(row) => cell(source.queries.schema(), row, name),
            Held::Lent(row) => cell(source.queries.schema(), row, name),
            Held::Many(_) => None,
        },
        None => None,
    }
}

fn sum(at: &Span, x: i64, y: i64) -> Option<i64>
    ensures { IfLong result (meant.number at.now (x +ℤ y)) }
{
    x.checked_add(y)
}

fn difference(at: &Span, x: i64, y: i64) -> Option<i64>
    ensures { IfLong result (meant.number at.now (x -ℤ y)) }
{
    x.checked_sub(y)
}

fn product(at: &Span, x: i64, y: i64) -> Option<i64>
    ensures { IfLong result (meant.number at.now (x *ℤ y)) }
{
    x.checked_mul(y)
}

fn less(x: i64, y: i64) -> bool
    ensures { result ≡ meant.less x y }
{
    x < y
}

fn same(x: i64, y: i64) -> bool
    ensures { result ≡ scalar_same (scalars.Long x) (scalars.Long y) }
{
    x.cmp(&y).is_eq()
}

// Whether two numbers compare as an operator says, if it compares.
fn compared(op: Op, at: &Span, x: i64, y: i64) -> Option<bool>
    ensures { IfTruth result (operated_on op at.now (scalars.Long x) (scalars.Long y)) }
{
    match op {
        Op::Eq => Some(same(x, y)),
        Op::Ne => Some(!same(x, y)),
        Op::Lt => Some(less(x, y)),
        Op::Le => Some(!less(y, x)),
        Op::Gt => Some(less(y, x)),
        Op::Ge => Some(!less(x, y)),
        _ => None,
    }
}

// The number that an operand gives, where it is made as `long` says. A literal or a variable takes no call.
#[inline(always)]
#[cycle(long)]
fn operand(e: &Expr, source: &Source, store: &Store) -> Option<i64>
    ensures { IfLong result (meant.value_of (expression e.now) (world source.now) store.now) }
{
    match &e.node {
        ExprNode::Lit(x) => long_in(x),
        ExprNode::Var(x) => long_in(held_scalar(store, source.numbers.at(e.span), x)?),
        _ => long(e, source, store),
    }
}

/// The number that an expression gives, where it is made of numbers by sums, differences and products, and no fault comes.
#[cycle(long)]
#[tactic(auto, using(crate::proofs::Quickly::binary_comes))]
pub fn long(e: &Expr, source: &Source, store: &Store) -> Option<i64>
    ensures { IfLong result (meant.value_of (expression e.now) (world source.now) store.now) }
{
    match &e.node {
        ExprNode::Lit(x) => long_in(x),
        ExprNode::Var(x) => long_in(held_scalar(store, source.numbers.at(e.span), x)?),
        ExprNode::Field(row, name) => long_in(cell_of(row, source, store, name, &e.span)?),
        ExprNode::Binary(op, a, b) => match op {
            Op::Add => sum(
                &e.span,
                operand(a, source, store)?,
                operand(b, source, store)?,
            ),
            Op::Sub => difference(
                &e.span,
                operand(a, source, store)?,
                operand(b, source, store)?,
            ),
            Op::Mul => product(
                &e.span,
                operand(a, source, store)?,
                operand(b, source, store)?,
            ),
            _ => None,
        },
        _ => None,
    }
}

// Whether two expressions that give numbers compare as an operator says.
#[tactic(auto, using(crate::proofs::Quickly::binary_comes))]
fn comparison(op: Op, at: &Span, a: &Expr, b: &Expr, source: &Source, store: &Store) -> Option<bool>
    ensures { IfTruth result (meant.value_of (Binary at.now op (expression a.now) (expression b.now)) (world source.now) store.now) }
{
    let x = operand(a, source, store)?;
    let y = operand(b, source, store)?;
    compared(op, at, x, y)
}

/// The truth value that an expression gives, where it is made of numbers and truth values and no fault comes.
#[cycle(truth)]
#[tactic(auto, using(crate::proofs::Quickly::and_settled, crate::proofs::Quickly::and_open, crate::proofs::Quickly::or_settled, crate::proofs::Quickly::or_open))]
pub fn truth(e: &Expr, source: &Source, store: &Store) -> Option<bool>
    ensures { IfTruth result (meant.value_of (expression e.now) (world source.now) store.now) }
{
    match &e.node {
        ExprNode::Lit(x) => truth_in(x),
        ExprNode::Var(x) => truth_in(held_scalar(store, source.numbers.at(e.span), x)?),
        ExprNode::Field(row, name) => truth_in(cell_of(row, source, store, name, &e.span)?),
        ExprNode::Binary(op, a, b) => match op {
            Op::And => {
                if truth(a, source, store)? {
                    return truth(b, source, store);
                }
                Some(false)
            }
            Op::Or => {
                if truth(a, source, store)? {
                    return Some(true);
                }
                truth(b, source, store)
            }
            _ => comparison(*op, &e.span, a, b, source, store),
        },
        ExprNode::Not(a) => Some(!truth(a, source, store)?),
        _ => None,
    }
}
