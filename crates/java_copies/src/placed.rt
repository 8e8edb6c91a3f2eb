// Copies of expressions whose nodes have one place.
ghost use Rattle.std.specs.Prelude.{◌≡◌, IfOk, map};
ghost use Rattle.qbs_base.specs.declared.span.Span.{Span as PlainSpan};
ghost use Rattle.java_ast.specs.Reading.{expression};
ghost use Rattle.java_ast.specs.Tree.{Expression, Expressions};
ghost use Rattle.java_ast.specs.Placed.{placed as placed_at, placed_all};
ghost use Rattle.java_ast.specs.Unplaced.{unplaced, unplaced_all};

use crate::copy::{
    copy_contains, copy_fetch, copy_field, copy_get, copy_literal, copy_query, copy_query_boolean,
    copy_query_long, copy_size, copy_variable,
};
use java_ast::build::binary;
use java_ast::{Expr, ExprNode};
use qbs_base::{NoMemory, Span};
use std::alloc::Global;

/// A copy with this place at each node, at every depth.
#[cycle(copy_placed)]
pub fn copy_placed(alloc: Global, at: Span, e: &Expr) -> Result<Expr, NoMemory>
    ensures { IfOk result (λ c. expression c ≡ placed_at at (expression e.now)) }
{
    match &e.node {
        ExprNode::Lit(value) => copy_literal(at, value),
        ExprNode::Var(name) => copy_variable(at, name),
        ExprNode::Field(row, name) => copy_field(at, placed_boxed(alloc, at, row)?, name),
        ExprNode::Binary(op, a, b) => {
            let a = placed_boxed(alloc, at, a)?;
            let b = placed_boxed(alloc, at, b)?;
            Ok(binary(at, *op, a, b))
        }
        ExprNode::Not(inner) => {
            let node = ExprNode::Not(placed_boxed(alloc, at, inner)?);
            Ok(Expr { span: at, node })
        }
        ExprNode::Equals(a, b) => {
            let a = placed_boxed(alloc, at, a)?;
            let b = placed_boxed(alloc, at, b)?;
            let node = ExprNode::Equals(a, b);
            Ok(Expr { span: at, node })
        }
        ExprNode::Size(name) => copy_size(at, name),
        ExprNode::Get(name, place) => copy_get(at, name, placed_boxed(alloc, at, place)?),
        ExprNode::Contains(name, member) => {
            copy_contains(at, name, placed_boxed(alloc, at, member)?)
        }
        ExprNode::Fetch(table) => copy_fetch(at, table),
        ExprNode::Query(element, text, arguments) => {
            let arguments = placed_list(alloc, at, arguments)?;
            copy_query(alloc, at, element, text, arguments)
        }
        ExprNode::QueryLong(text, arguments) => {
            let arguments = placed_list(alloc, at, arguments)?;
            copy_query_long(at, text, arguments)
        }
        ExprNode::QueryBoolean(text, arguments) => {
            let arguments = placed_list(alloc, at, arguments)?;
            copy_query_boolean(at, text, arguments)
        }
        ExprNode::NewList => {
            let node = ExprNode::NewList;
            Ok(Expr { span: at, node })
        }
        ExprNode::NewSet(of) => match of {
            None => {
                let node = ExprNode::NewSet(None);
                Ok(Expr { span: at, node })
            }
            Some(of) => {
                let of = placed_boxed(alloc, at, of)?;
                let node = ExprNode::NewSet(Some(of));
                Ok(Expr { span: at, node })
            }
        },
    }
}

/// Such a copy in a box of its own.
#[cycle(copy_placed)]
fn placed_boxed(alloc: Global, at: Span, e: &Expr) -> Result<Box<Expr>, NoMemory>
    ensures { IfOk result (λ c. expression c.value ≡ placed_at at (expression e.now)) }
{
    let copy = copy_placed(alloc, at, e)?;
    Ok(Box::new(alloc, copy)?)
}

#[cycle(copy_placed)]
fn placed_list(alloc: Global, at: Span, list: &[Expr]) -> Result<Vec<Expr>, NoMemory>
    ensures { IfOk result (λ c. map expression c.items ≡ map (λ (e : Expr). placed_at at (expression e)) list.now) }
{
    let mut all = Vec::new(alloc);
    for e in list {
        all.push(copy_placed(alloc, at, e)?)?;
    }
    Ok(all)
}

/// An expression whose places are replaced twice has the places of the second time, and one whose places
/// are replaced is the same but for its places.
#[tactic(auto, using(crate::proofs::Places::laws))]
pub fn the_last_place_stays()
    ensures one { (to at : PlainSpan) (e : Expression) → placed_at to (placed_at at e) ≡ placed_at to e }
    ensures all { (to at : PlainSpan) (es : Expressions) → placed_all to (placed_all at es) ≡ placed_all to es }
    ensures same { (at : PlainSpan) (e : Expression) → unplaced (placed_at at e) ≡ unplaced e }
    ensures all_same { (at : PlainSpan) (es : Expressions) → unplaced_all (placed_all at es) ≡ unplaced_all es }
{}
