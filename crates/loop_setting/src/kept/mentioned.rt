// The names that a program mentions, put into a list.
ghost use Rattle.std.specs.Prelude.{◌≡◌, ◌∷◌, OnOk};
ghost use Rattle.java_ast.specs.Reading.{expression, expressions, statement, statements};
ghost use Rattle.loop_setting.specs.Listed.{IsListed};
ghost use Rattle.java_ast.specs.Names as specs;
ghost use Rattle.java_ast.specs.Names.{names_lent};

use crate::kept::name_list::NameList;
use java_ast::{Expr, ExprNode, Stmt, StmtNode};
use qbs_base::{Name, NoMemory};

/// Puts the names in an expression behind those of a list.
#[cycle(names)]
#[tactic(auto, using(crate::proofs::Gathered::gathered, java_ast::proofs::Nodes::nodes))]
pub fn put_names<'a>(e: &'a Expr, list: &mut NameList<'a>) -> Result<(), NoMemory>
    requires { IsListed list.old }
    ensures names { OnOk result (names_lent list.new.names ≡ specs.with_names (names_lent list.old.names) (specs.names_in (expression e.now))) }
    ensures listed { OnOk result (IsListed list.new) }
{
    match &e.node {
        ExprNode::Lit(_) => Ok(()),
        ExprNode::Var(x) => list.put(x),
        ExprNode::Field(row, _) => put_names(row, list),
        ExprNode::Binary(_, a, b) => {
            put_names(a, list)?;
            put_names(b, list)
        }
        ExprNode::Not(a) => put_names(a, list),
        ExprNode::Equals(a, b) => {
            put_names(a, list)?;
            put_names(b, list)
        }
        ExprNode::Size(x) => list.put(x),
        ExprNode::Get(x, a) => {
            list.put(x)?;
            put_names(a, list)
        }
        ExprNode::Contains(x, a) => {
            list.put(x)?;
            put_names(a, list)
        }
        ExprNode::Fetch(_) => Ok(()),
        ExprNode::Query(_, _, args) => put_all_names(args, list),
        ExprNode::QueryLong(_, args) => put_all_names(args, list),
        ExprNode::QueryBoolean(_, args) => put_all_names(args, list),
        ExprNode::NewList => Ok(()),
        ExprNode::NewSet(None) => Ok(()),
        ExprNode::NewSet(Some(a)) => put_names(a, list),
    }
}

/// The same of the names in some expressions.
#[cycle(names)]
#[tactic(auto, using(crate::proofs::Gathered::gathered))]
pub fn put_all_names<'a>(es: &'a [Expr], list: &mut NameList<'a>) -> Result<(), NoMemory>
    requires { IsListed list.old }
    ensures names { OnOk result (names_lent list.new.names ≡ specs.with_names (names_lent list.old.names) (specs.names_among (expressions es.now))) }
    ensures listed { OnOk result (IsListed list.new) }
{
    for e in es {
        put_names(e, list)?;
    }
    Ok(())
}

/// Puts the names that a statement mentions, other than to declare them, behind those of a list.
#[cycle(statements)]
#[tactic(auto, using(crate::proofs::Gathered::gathered, java_ast::proofs::Nodes::nodes))]
pub fn put_mentioned<'a>(s: &'a Stmt, list: &mut NameList<'a>) -> Result<(), NoMemory>
    requires { IsListed list.old }
    ensures names { OnOk result (names_lent list.new.names ≡ specs.with_names (names_lent list.old.names) (specs.mentioned_in (statement s.now))) }
    ensures listed { OnOk result (IsListed list.new) }
{
    match &s.node {
        StmtNode::Declare { value, .. } => put_names(value, list),
        StmtNode::Assign { name, value } => put_name_and_names(name, value, list),
        StmtNode::Add { name, value } => put_name_and_names(name, value, list),
        StmtNode::Sort { name, .. } => list.put(name),
        StmtNode::If { cond, yes, other } => match other {
            None => {
                put_names(cond, list)?;
                put_all_mentioned(yes, list)
            }
            Some(other) => {
                put_names(cond, list)?;
                put_all_mentioned(yes, list)?;
                put_all_mentioned(other, list)
            }
        },
        StmtNode::ForEach {
            list: rows,
            body,
            ..
        } => {
            put_names(rows, list)?;
            put_all_mentioned(body, list)
        }
        StmtNode::While { cond, body } => {
            put_names(cond, list)?;
            put_all_mentioned(body, list)
        }
        StmtNode::Print { value } => put_names(value, list),
        StmtNode::Return { value: None } => Ok(()),
        StmtNode::Return { value: Some(value) } => put_names(value, list),
        StmtNode::Break => Ok(()),
    }
}

// Puts a name and those in an expression behind those of a list.
fn put_name_and_names<'a>(x: &'a Name, e: &'a Expr, list: &mut NameList<'a>) -> Result<(), NoMemory>
    requires { IsListed list.old }
    ensures names { OnOk result (names_lent list.new.names ≡ specs.with_names (names_lent list.old.names) (x.now ∷ specs.names_in (expression e.now))) }
    ensures listed { OnOk result (IsListed list.new) }
{
    list.put(x)?;
    put_names(e, list)
}

/// Puts what the statements of a block mention behind the names of a list.
#[cycle(statements)]
#[tactic(auto, using(crate::proofs::Gathered::gathered))]
pub fn put_all_mentioned<'a>(block: &'a [Stmt], list: &mut NameList<'a>) -> Result<(), NoMemory>
    requires { IsListed list.old }
    ensures names { OnOk result (names_lent list.new.names ≡ specs.with_names (names_lent list.old.names) (specs.mentioned_among (statements block.now))) }
    ensures listed { OnOk result (IsListed list.new) }
{
    for s in block {
        put_mentioned(s, list)?;
    }
    Ok(())
}
