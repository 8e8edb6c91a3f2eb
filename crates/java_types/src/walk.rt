// One pass over a program.
ghost use Rattle.std.specs.Prelude.{◌≡◌, ◌+◌, ◌<◌, ◌++◌, OnOk, IfOk, length, drop, take, map, ◌∷◌};
ghost use Rattle.std.specs.Option.{option_map};
ghost use Rattle.java_ast.specs.Reading.{expression, expressions, statement, statements, spelled, param as plain_param, method as plain_method};
ghost use Rattle.java_mean.specs.Places as places;
ghost use Rattle.java_mean.specs.Places.{around, in_expression, in_expressions, in_statement, in_statements, in_params, in_method};
ghost use Rattle.java_mean.specs.Rules as rules;
ghost use Rattle.java_mean.specs.Visible.{after, declared_in, with_params};
ghost use Rattle.java_mean.specs.WellTyped.{faults_in};
ghost use Rattle.java_mean.specs.Least.{least};
ghost use Rattle.java_types.specs.Texts.{read_by};

use crate::steps::{at_method, at_param, at_step};
use crate::types::type_spelled;
use crate::values::at_value;
use crate::walked::Walked;
use java_ast::{Expr, ExprNode, JTy, Method, Param, Stmt, StmtNode};
use java_mean::{Scope, TypeFault};
use qbs_base::{NoMemory, Span, boxed};
use schema::Schema;
use std::alloc::Global;

/// The faults of an expression and of its parts.
#[cycle(expr)]
#[tactic(auto, using(crate::proofs::Kept::parts, java_ast::proofs::Nodes::nodes))]
pub fn walk_expr(
    e: &Expr,
    alloc: Global,
    schema: &Schema,
    result_type: &Option<JTy>,
    scope: &Scope,
    kept: &mut Option<TypeFault>,
) -> Result<(), NoMemory>
    ensures { OnOk result (
        kept.new
        ≡ least kept.old (
        faults_in schema.now (read_by schema.now) (option_map spelled result_type.now) (in_expression scope.now (expression e.now)))) }
{
    at_value(alloc, e, schema, result_type, scope, kept)?;
    match &e.node {
        ExprNode::Field(a, _) | ExprNode::Not(a) | ExprNode::Get(_, a) | ExprNode::Contains(_, a) =>
            walk_expr(a, alloc, schema, result_type, scope, kept),
        ExprNode::Binary(_, a, b) | ExprNode::Equals(a, b) => {
            walk_expr(a, alloc, schema, result_type, scope, kept)?;
            walk_expr(b, alloc, schema, result_type, scope, kept)
        }
        ExprNode::Query(_, _, args)
        | ExprNode::QueryLong(_, args)
        | ExprNode::QueryBoolean(_, args) => walk_all(
            args,
            alloc,
            schema,
            result_type,
            scope,
            kept,
        ),
        ExprNode::Lit(_)
        | ExprNode::Var(_)
        | ExprNode::Size(_)
        | ExprNode::Fetch(_)
        | ExprNode::NewList => Ok(()),
        ExprNode::NewSet(None) => Ok(()),
        ExprNode::NewSet(Some(a)) => walk_expr(a, alloc, schema, result_type, scope, kept),
    }
}

// The faults of expressions and of their parts.
#[cycle(expr)]
#[tactic(auto, using(crate::proofs::Kept::parts))]
fn walk_all(
    es: &[Expr],
    alloc: Global,
    schema: &Schema,
    result_type: &Option<JTy>,
    scope: &Scope,
    kept: &mut Option<TypeFault>,
) -> Result<(), NoMemory>
    ensures { OnOk result (
        kept.new
        ≡ least kept.old (
        faults_in schema.now (read_by schema.now) (option_map spelled result_type.now) (in_expressions scope.now (expressions es.now)))) }
{
    for e in es {
        walk_expr(e, alloc, schema, result_type, scope, kept)?;
    }
    Ok(())
}

/// Whether there is a `return` among some statements and their parts.
#[cycle(returns)]
pub fn returns(block: &[Stmt]) -> bool
    ensures { result ≡ rules.returns (statements block.now) }
{
    for s in block {
        if returns_in(s) {
            return true;
        }
    }
    false
}

#[cycle(returns)]
#[tactic(auto, using(java_ast::proofs::Nodes::nodes))]
fn returns_in(s: &Stmt) -> bool
    ensures { result ≡ rules.returns_in (statement s.now) }
{
    match &s.node {
        StmtNode::If {
            cond: _,
            yes,
            other,
        } => match other {
            None => returns(yes),
            Some(other) => returns(yes) || returns(other),
        },
        StmtNode::ForEach {
            ty: _,
            name: _,
            list: _,
            body,
        } => returns(body),
        StmtNode::While { cond: _, body } => returns(body),
        StmtNode::Return { value: _ } => true,
        _ => false,
    }
}

/// The faults of a statement and of its parts. The scope is then that after the statement.
#[cycle(walk)]
#[tactic(auto, using(crate::proofs::Kept::parts, crate::proofs::Cut::cuts))]
fn walk_stmt<'a>(
    s: &'a Stmt,
    alloc: Global,
    schema: &Schema,
    result_type: &Option<JTy>,
    scope: &mut Scope<'a>,
    walked: &mut Walked<'a>,
    in_loop: bool,
    end: bool,
    last: bool,
    kept: &mut Option<TypeFault>,
) -> Result<(), NoMemory>
    ensures kept { OnOk result (
        kept.new
        ≡ least kept.old (
        faults_in schema.now (read_by schema.now) (option_map spelled result_type.now) (
        in_statement schema.now scope.old (around walked.old in_loop end) last (statement s.now)))) }
    ensures scope { OnOk result (scope.new ≡ after schema.now scope.old (statement s.now)) }
    ensures walked { OnOk result (walked.new ≡ walked.old) }
{
    at_step(
        s,
        schema,
        result_type,
        scope,
        walked,
        in_loop,
        end,
        last,
        kept,
    );
    match &s.node {
        StmtNode::Declare { ty, name, value } => {
            walk_expr(value, alloc, schema, result_type, scope, kept)?;
            scope.declare(name, type_spelled(schema, ty))
        }
        StmtNode::Assign { name: _, value }
        | StmtNode::Add { name: _, value }
        | StmtNode::Print { value } => walk_expr(value, alloc, schema, result_type, scope, kept),
        StmtNode::Sort {
            name: _,
            keys: _,
            down: _,
        } => Ok(()),
        StmtNode::If { cond, yes, other } => {
            walk_expr(cond, alloc, schema, result_type, scope, kept)?;
            walk_block(
                yes,
                alloc,
                schema,
                result_type,
                scope,
                walked,
                in_loop,
                false,
                kept,
            )?;
            match other {
                None => Ok(()),
                Some(other) => walk_block(
                    other,
                    alloc,
                    schema,
                    result_type,
                    scope,
                    walked,
                    in_loop,
                    false,
                    kept,
                ),
            }
        }
        StmtNode::ForEach {
            ty,
            name,
            list,
            body,
        } => {
            walk_expr(list, alloc, schema, result_type, scope, kept)?;
            let visible = scope.len();
            let walking = walked.len();
            scope.declare(name, type_spelled(schema, ty))?;
            walked.walk(list)?;
            walk_block(
                body,
                alloc,
                schema,
                result_type,
                scope,
                walked,
                true,
                false,
                kept,
            )?;
            scope.cut(visible);
            walked.cut(walking);
            Ok(())
        }
        StmtNode::While { cond, body } => {
            walk_expr(cond, alloc, schema, result_type, scope, kept)?;
            walk_block(
                body,
                alloc,
                schema,
                result_type,
                scope,
                walked,
                true,
                false,
                kept,
            )
        }
        StmtNode::Return { value } => {
            if let Some(value) = value {
                walk_expr(value, alloc, schema, result_type, scope, kept)?;
            }
            Ok(())
        }
        StmtNode::Break => Ok(()),
    }
}

/// The faults of a block. The scope is then as it was.
#[cycle(walk)]
#[tactic(auto, using(crate::proofs::Kept::parts, crate::proofs::Cut::cuts))]
pub fn walk_block<'a>(
    block: &'a [Stmt],
    alloc: Global,
    schema: &Schema,
    result_type: &Option<JTy>,
    scope: &mut Scope<'a>,
    walked: &mut Walked<'a>,
    in_loop: bool,
    end: bool,
    kept: &mut Option<TypeFault>,
) -> Result<(), NoMemory>
    ensures kept { OnOk result (
        kept.new
        ≡ least kept.old (
        faults_in schema.now (read_by schema.now) (option_map spelled result_type.now) (
        in_statements schema.now scope.old (around walked.old in_loop end) (statements block.now)))) }
    ensures scope { OnOk result (scope.new ≡ scope.old) }
    ensures walked { OnOk result (walked.new ≡ walked.old) }
{
    let visible = scope.len();
    for (i, s) in block.iter().enumerate() {
        let last = i + 1 == block.len();
        walk_stmt(
            s,
            alloc,
            schema,
            result_type,
            scope,
            walked,
            in_loop,
            end,
            last,
            kept,
        )?;
    }
    scope.cut(visible);
    Ok(())
}

// The faults of the parameters of a method at this place. They are then visible.
#[tactic(auto, using(crate::proofs::Kept::parts))]
fn walk_params<'a>(
    params: &'a [Param],
    at: Span,
    schema: &Schema,
    result_type: &Option<JTy>,
    scope: &mut Scope<'a>,
    kept: &mut Option<TypeFault>,
) -> Result<(), NoMemory>
    ensures kept { OnOk result (
        kept.new
        ≡ least kept.old (
        faults_in schema.now (read_by schema.now) (option_map spelled result_type.now) (
        in_params schema.now scope.old at (map plain_param params.now)))) }
    ensures scope { OnOk result (scope.new ≡ with_params schema.now scope.old (map plain_param params.now)) }
{
    for p in params {
        at_param(p, at, schema, result_type, scope, kept);
        scope.declare(&p.name, type_spelled(schema, &p.ty))?;
    }
    Ok(())
}

/// The faults of a method; `double` says whether one before it has its name.
#[tactic(auto, using(crate::proofs::Kept::parts))]
pub fn walk_method(
    m: &Method,
    double: bool,
    alloc: Global,
    schema: &Schema,
    kept: &mut Option<TypeFault>,
) -> Result<(), NoMemory>
    ensures { OnOk result (
        kept.new
        ≡ least kept.old (
        faults_in schema.now (read_by schema.now) (option_map spelled m.now.result) (
        places.whole double (plain_method m.now) ∷ in_method schema.now (plain_method m.now)))) }
{
    at_method(m, double, returns(m.body.as_slice()), schema, kept);
    let mut scope = boxed(alloc, Scope::new(alloc))?;
    walk_params(
        m.params.as_slice(),
        m.span,
        schema,
        &m.result,
        &mut *scope,
        kept,
    )?;
    let mut walked = boxed(alloc, Walked::new(alloc))?;
    walk_block(
        m.body.as_slice(),
        alloc,
        schema,
        &m.result,
        &mut *scope,
        &mut *walked,
        false,
        true,
        kept,
    )?;
    Ok(())
}
