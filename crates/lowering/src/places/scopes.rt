// What is visible on the way to a loop.
ghost use Rattle.std.specs.Prelude.{◌≡◌, OnOk, map, option_copied};
ghost use Rattle.java_ast.specs.Reading.{spelled, statement, statements, param as plain_param};
ghost use Rattle.java_loops.specs.Lowering.Placing as specs;

use java_ast::{JTy, Param, Stmt, StmtNode};
use java_mean::{JavaType, Scope};
use java_types::type_spelled;
use qbs_base::NoMemory;
use schema::Schema;

fn type_under(schema: Option<&Schema>, ty: &JTy) -> Option<JavaType>
    ensures { result ≡ specs.type_under (option_copied schema.entry) (spelled ty.now) }
{
    match schema {
        None => None,
        Some(schema) => type_spelled(schema, ty),
    }
}

#[tactic(auto, using(java_ast::proofs::Nodes::nodes))]
fn declare_after<'a>(
    schema: Option<&Schema>,
    s: &'a Stmt,
    scope: &mut Scope<'a>,
) -> Result<(), NoMemory>
    ensures { OnOk result (scope.new ≡ specs.scope_after (option_copied schema.entry) scope.old (statement s.now)) }
{
    match &s.node {
        StmtNode::Declare { ty, name, value: _ } => scope.declare(name, type_under(schema, ty)),
        _ => Ok(()),
    }
}

/// Declares what the statements of a block declare.
pub fn declare_all<'a>(
    schema: Option<&Schema>,
    block: &'a [Stmt],
    scope: &mut Scope<'a>,
) -> Result<(), NoMemory>
    ensures { OnOk result (scope.new ≡ specs.scope_past (option_copied schema.entry) scope.old (statements block.now)) }
{
    for s in block {
        declare_after(schema, s, scope)?;
    }
    Ok(())
}

#[tactic(auto, using(java_ast::proofs::Nodes::nodes))]
fn declare_inside<'a>(
    schema: Option<&Schema>,
    s: &'a Stmt,
    scope: &mut Scope<'a>,
) -> Result<(), NoMemory>
    ensures { OnOk result (scope.new ≡ specs.scope_inside (option_copied schema.entry) scope.old (statement s.now)) }
{
    match &s.node {
        StmtNode::ForEach {
            ty,
            name,
            list: _,
            body: _,
        } => scope.declare(name, type_under(schema, ty)),
        _ => Ok(()),
    }
}

/// Declares what is visible in the branches of a statement that stands behind these in its block.
pub fn declare_within<'a>(
    schema: Option<&Schema>,
    before: &'a [Stmt],
    s: &'a Stmt,
    scope: &mut Scope<'a>,
) -> Result<(), NoMemory>
    ensures { OnOk result (scope.new ≡ specs.scope_within (option_copied schema.entry) scope.old (statements before.now) (statement s.now)) }
{
    declare_all(schema, before, scope)?;
    declare_inside(schema, s, scope)
}

/// Declares the parameters of a method.
pub fn declare_params<'a>(
    schema: Option<&Schema>,
    params: &'a [Param],
    scope: &mut Scope<'a>,
) -> Result<(), NoMemory>
    ensures { OnOk result (scope.new ≡ specs.scope_of_params (option_copied schema.entry) scope.old (map plain_param params.now)) }
{
    for p in params {
        scope.declare(&p.name, type_under(schema, &p.ty))?;
    }
    Ok(())
}
