// Parts of the class, which stand nowhere.
ghost use Rattle.std.specs.Prelude.{◌≡◌, [], ◌∷◌, ◌++◌, IfOk, OnOk, codes, map};
ghost use Rattle.std.specs.declared.option.Option.TheVariants.{Some};
ghost use Rattle.java_ast.specs.Reading.{spelled, expression, statement, statements, method as plain_method};
ghost use Rattle.java_ast.specs.Path.{and_then};
ghost use Rattle.java_ast.specs.Tree as plain;
ghost use Rattle.sample.specs.Class as specs;
ghost use Rattle.sample.specs.Given.{given_type, given_start};
ghost use Rattle.sample_data.specs.Tables.{User};

use java_ast::{Access, Expr, ExprNode, JTy, Method, Methods, Op, Params, Stmt, StmtNode, Stmts};
use qbs_base::{Name, NoMemory, Scalar, Span};
use std::alloc::Global;

fn nowhere() -> Span
    ensures { result ≡ specs.nowhere }
{
    Span {
        line: 0,
        column: 0,
        start: 0,
        end: 0,
    }
}

// ---- What a method gives

/// What a method collects and gives.
#[derive(Clone, Copy)]
pub enum Given {
    Users,
    Texts,
    DistinctTexts,
    Sum,
}

fn type_of(alloc: Global, given: Given) -> Result<JTy, NoMemory>
    ensures { IfOk result (λ ty. spelled ty ≡ given_type given) }
{
    match given {
        Given::Users => {
            let row = JTy::Table(Name::from_str(alloc, "User")?);
            Ok(JTy::List(Box::new(alloc, row)?))
        }
        Given::Texts => Ok(JTy::List(Box::new(alloc, JTy::String)?)),
        Given::DistinctTexts => Ok(JTy::Set(Box::new(alloc, JTy::String)?)),
        Given::Sum => Ok(JTy::Long),
    }
}

// What it starts from.
fn start_of(given: Given) -> Expr
    ensures { expression result ≡ given_start given }
{
    let span = nowhere();
    let node = match given {
        Given::Users | Given::Texts => ExprNode::NewList,
        Given::DistinctTexts => ExprNode::NewSet(None),
        Given::Sum => ExprNode::Lit(Scalar::Long(0)),
    };
    Expr { span, node }
}

// ---- Expressions

fn boxed(alloc: Global, node: ExprNode) -> Result<Box<Expr>, NoMemory>
    ensures { IfOk result (λ e. expression e.value ≡ expression (record { span = specs.nowhere; node = node })) }
{
    let span = nowhere();
    Ok(Box::new(alloc, Expr { span, node })?)
}

pub fn variable(alloc: Global, name: &str) -> Result<Box<Expr>, NoMemory>
    ensures { IfOk result (λ e. expression e.value ≡ specs.variable name.now) }
{
    boxed(alloc, ExprNode::Var(Name::from_str(alloc, name)?))
}

/// A column of the row in a variable.
pub fn field(alloc: Global, row: &str, column: &str) -> Result<Box<Expr>, NoMemory>
    ensures { IfOk result (λ e. expression e.value ≡ specs.field row.now column.now) }
{
    let row = variable(alloc, row)?;
    let column = Name::from_str(alloc, column)?;
    boxed(alloc, ExprNode::Field(row, column))
}

pub fn binary(
    alloc: Global,
    op: Op,
    left: Box<Expr>,
    right: Box<Expr>,
) -> Result<Box<Expr>, NoMemory>
    ensures { IfOk result (λ e. expression e.value ≡ plain.Binary specs.nowhere op (expression left.value) (expression right.value)) }
{
    boxed(alloc, ExprNode::Binary(op, left, right))
}

// ---- Statements

// Appends a statement to a block.
fn put(block: &mut Vec<Stmt>, node: StmtNode) -> Result<(), NoMemory>
    ensures { OnOk result (statements block.new.items ≡ and_then (statements block.old.items) (specs.one (statement (record { span = specs.nowhere; node = node })))) }
{
    let span = nowhere();
    block.push(Stmt { span, node })?;
    Ok(())
}

// A block of one statement.
fn one(alloc: Global, node: StmtNode) -> Result<Vec<Stmt>, NoMemory>
    ensures { IfOk result (λ ss. statements ss.items ≡ specs.one (statement (record { span = specs.nowhere; node = node }))) }
{
    let mut all = Vec::new(alloc);
    put(&mut all, node)?;
    Ok(all)
}

pub fn assign(alloc: Global, name: &str, value: Box<Expr>) -> Result<Vec<Stmt>, NoMemory>
    ensures { IfOk result (λ ss. statements ss.items ≡ specs.one (plain.Assign specs.nowhere name.now (expression value.value))) }
{
    let name = Name::from_str(alloc, name)?;
    let value = Box::into_inner(value);
    one(alloc, StmtNode::Assign { name, value })
}

/// A value is added to a list or set.
pub fn adding(alloc: Global, name: &str, value: Box<Expr>) -> Result<Vec<Stmt>, NoMemory>
    ensures { IfOk result (λ ss. statements ss.items ≡ specs.one (specs.adding name.now (expression value.value))) }
{
    let name = Name::from_str(alloc, name)?;
    let value = Box::into_inner(value);
    one(alloc, StmtNode::Add { name, value })
}

#[tactic(auto, using(java_ast::proofs::Rows::statements_hidden))]
pub fn where_so(alloc: Global, cond: Box<Expr>, yes: Vec<Stmt>) -> Result<Vec<Stmt>, NoMemory>
    ensures { IfOk result (λ ss. statements ss.items ≡ specs.one (specs.where_so (expression cond.value) (statements yes.items))) }
{
    let cond = Box::into_inner(cond);
    let other = None;
    one(alloc, StmtNode::If { cond, yes, other })
}

/// Appends a walk of all rows of a table to a block.
#[tactic(auto, using(java_ast::proofs::Rows::statements_hidden))]
pub fn put_walk(
    block: &mut Vec<Stmt>,
    alloc: Global,
    table: &str,
    row: &str,
    body: Vec<Stmt>,
) -> Result<(), NoMemory>
    ensures { OnOk result (statements block.new.items ≡ and_then (statements block.old.items) (specs.one (specs.over_rows table.now row.now (statements body.items)))) }
{
    let name = Name::from_str(alloc, row)?;
    let fetched = Name::from_str(alloc, table)?;
    let ty = JTy::Table(Name::from_str(alloc, table)?);
    let span = nowhere();
    let list = Expr {
        span,
        node: ExprNode::Fetch(fetched),
    };
    let node = StmtNode::ForEach {
        ty,
        name,
        list,
        body,
    };
    put(block, node)
}

// ---- Methods

// A variable with its start.
fn declared(alloc: Global, given: Given, x: &str) -> Result<Vec<Stmt>, NoMemory>
    ensures { IfOk result (λ ss. statements ss.items ≡ specs.one (plain.Declare specs.nowhere (given_type given) x.now (given_start given))) }
{
    let name = Name::from_str(alloc, x)?;
    let ty = type_of(alloc, given)?;
    let value = start_of(given);
    one(alloc, StmtNode::Declare { ty, name, value })
}

// A variable is given back.
fn put_return(block: &mut Vec<Stmt>, alloc: Global, x: &str) -> Result<(), NoMemory>
    ensures { OnOk result (statements block.new.items ≡ and_then (statements block.old.items) (specs.one (plain.Return specs.nowhere (Some (specs.variable x.now))))) }
{
    let name = Name::from_str(alloc, x)?;
    let span = nowhere();
    let value = Some(Expr {
        span,
        node: ExprNode::Var(name),
    });
    put(block, StmtNode::Return { value })
}

// A variable with its start, a walk of the users, and the variable is given back.
fn collecting(alloc: Global, given: Given, x: &str, body: Vec<Stmt>) -> Result<Vec<Stmt>, NoMemory>
    ensures { IfOk result (λ ss.
        statements ss.items
        ≡ plain.Then (plain.Declare specs.nowhere (given_type given) x.now (given_start given))
        (plain.Then (specs.over_rows User (codes "u") (statements body.items)) (specs.one (plain.Return specs.nowhere (Some (specs.variable x.now)))))) }
{
    let mut all = declared(alloc, given, x)?;
    put_walk(&mut all, alloc, "User", "u", body)?;
    put_return(&mut all, alloc, x)?;
    Ok(all)
}

/// Appends a method that walks the users once for a variable, which it gives.
pub fn over_users(
    methods: &mut Methods,
    alloc: Global,
    given: Given,
    name: &str,
    x: &str,
    body: Vec<Stmt>,
) -> Result<(), NoMemory>
    ensures { OnOk result (
        map plain_method methods.new
        ≡ map plain_method methods.old ++ specs.over_users (given_type given) name.now x.now (given_start given) (statements body.items) ∷ []) }
{
    let name = Name::from_str(alloc, name)?;
    let body = collecting(alloc, given, x, body)?;
    let result = Some(type_of(alloc, given)?);
    methods.push(Method {
        access: Access::Plain,
        fixed: false,
        result,
        name,
        params: Params::new(alloc),
        body: Stmts::from_vec(body),
        span: nowhere(),
    })
}
