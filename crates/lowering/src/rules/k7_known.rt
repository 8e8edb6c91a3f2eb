// Known lists: variables that the run gives the answer of a query.
ghost use Rattle.std.specs.Prelude.{◌≡◌, option_copied};
ghost use Rattle.std.specs.Option.{option_map};
ghost use Rattle.sql_ast.specs.Reading.{query};
ghost use Rattle.java_ast.specs.Reading.{expression, statement, statements};
ghost use Rattle.java_loops.specs.Kernel.KernelConditions as specs;
ghost use Rattle.loop_text.specs.Sites.Reading.{asked_in_code};

use java_ast::{Expr, ExprNode, Stmt, StmtNode};
use loop_text::conditions::asked::{Asked, first_setting};
use qbs_base::Name;
use sql_ast::{Query, SqlItem};

fn is_column_item(item: &SqlItem) -> bool
    ensures { result ≡ specs.is_column_item item.now }
{
    match item {
        SqlItem::Column(_) => true,
        _ => false,
    }
}

/// Whether a query is of one column without LIMIT.
pub fn is_column_query(q: Option<&Query>) -> bool
    ensures { result ≡ specs.is_column_query (option_map query (option_copied q.entry)) }
{
    match q {
        Some(Query::Listing(q)) => is_column_item(&q.item) && q.limit.is_none(),
        _ => false,
    }
}

#[tactic(auto, using(java_ast::proofs::Nodes::nodes))]
fn asked_by_query(e: &Expr) -> Option<Asked<'_>>
    ensures { option_map asked_in_code result ≡ specs.asked_by_query (expression e.now) }
{
    match &e.node {
        ExprNode::Query(_, text, arguments) => Some(Asked { text, arguments }),
        _ => None,
    }
}

// `db.query(..)`, also in a `LinkedHashSet`.
#[tactic(auto, using(java_ast::proofs::Nodes::nodes))]
fn asked_by(e: &Expr) -> Option<Asked<'_>>
    ensures { option_map asked_in_code result ≡ specs.asked_by (expression e.now) }
{
    match &e.node {
        ExprNode::NewSet(Some(q)) => asked_by_query(q),
        ExprNode::Query(_, _, _) => asked_by_query(e),
        _ => None,
    }
}

fn asked_in(s: &Stmt) -> Option<Asked<'_>>
    ensures { option_map asked_in_code result ≡ specs.asked_in (statement s.now) }
{
    match &s.node {
        StmtNode::Declare {
            ty: _,
            name: _,
            value,
        } => asked_by(value),
        StmtNode::Assign { name: _, value } => asked_by(value),
        _ => None,
    }
}

fn asked_in_found(s: Option<&Stmt>) -> Option<Asked<'_>>
    ensures { option_map asked_in_code result ≡ specs.asked_in_found (option_map statement (option_copied s.entry)) }
{
    match s {
        None => None,
        Some(s) => asked_in(s),
    }
}

/// The query that a run gives to a variable.
pub fn asked_for<'a>(run: &'a [Stmt], ids: &Name) -> Option<Asked<'a>>
    ensures { option_map asked_in_code result ≡ specs.asked_for (statements run.now) ids.now }
{
    asked_in_found(first_setting(ids, run))
}
