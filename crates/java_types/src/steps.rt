// The rules at a statement, a parameter and a method.
ghost use Rattle.std.specs.Prelude.{◌≡◌, ◌||◌, not};
ghost use Rattle.std.specs.Option.{option_map};
ghost use Rattle.java_ast.specs.Reading.{expression, statement, statements, spelled, param as plain_param, method as plain_method};
ghost use Rattle.java_mean.specs.Places.{around, step, param, whole};
ghost use Rattle.java_mean.specs.Rules as rules;
ghost use Rattle.java_mean.specs.WellTyped.{faults_at, marked};
ghost use Rattle.java_mean.specs.declared.rule.TypeRule.TheVariants as broken;
ghost use Rattle.java_mean.specs.Least.{least};
ghost use Rattle.java_types.specs.Texts.{read_by};

use crate::types::type_spelled;
use crate::values::{of_bool, place_of, type_of};
use crate::walked::Walked;
use crate::words::{
    element_of, is_many, listed_in, note_keys, unless, unless_both, unless_element, unless_listed,
    unless_many, unless_scalar, unless_single, unless_walked, walked_element,
};
use java_ast::{Expr, ExprNode, JTy, Method, Param, Stmt, StmtNode};
use java_mean::{JavaType, Scope, Single, TypeFault, TypeRule, note_if};
use qbs_base::{Name, Span};
use schema::Schema;

fn is_set_of_rows(ty: &JTy) -> bool
    ensures { result ≡ rules.is_set_of_rows (spelled ty.now) }
{
    match ty {
        JTy::Set(e) => matches!(&**e, JTy::Table(_)),
        _ => false,
    }
}

fn is_row(k: Option<JavaType>) -> bool
    ensures { result ≡ rules.is_row k }
{
    matches!(k, Some(JavaType::Of(Single::RowOf(_))))
}

// A value for a variable of the type.
#[tactic(auto, using(crate::proofs::Kept::parts))]
fn given(
    k: Option<JavaType>,
    e: &Expr,
    schema: &Schema,
    scope: &Scope,
    kept: &mut Option<TypeFault>,
)
    ensures { kept.new ≡ least kept.old (marked broken.Mismatch (rules.given schema.now scope.now k (expression e.now))) }
{
    unless_both(kept, type_of(e, schema, scope), k, place_of(e));
    if let ExprNode::Var(x) = &e.node {
        note_if(
            kept,
            is_row(scope.type_of(x)),
            TypeRule::Mismatch,
            place_of(e),
        );
    }
}

// A name that is visible already, or that no variable may have.
fn taken(scope: &Scope, x: &Name) -> bool
    ensures { result ≡ rules.taken scope.now x.now }
{
    scope.has(x) || x.as_str() == "db"
}

fn has_many(k: Option<JavaType>) -> bool
    ensures { result ≡ rules.has_many k }
{
    match k {
        None => false,
        Some(k) => is_many(k),
    }
}

// A list or a set that is given the value of another variable.
fn aliased(k: Option<JavaType>, x: &Name, e: &Expr, kept: &mut Option<TypeFault>)
    ensures { kept.new ≡ least kept.old (marked broken.ListAlias (rules.aliased k x.now (expression e.now))) }
{
    if let ExprNode::Var(y) = &e.node {
        note_if(
            kept,
            has_many(k) && x.as_slice() != y.as_slice(),
            TypeRule::ListAlias,
            place_of(e),
        );
    }
}

// What a `return` gives.
fn returned(
    result_type: &Option<JTy>,
    value: &Option<Expr>,
    at: Span,
    schema: &Schema,
    scope: &Scope,
    kept: &mut Option<TypeFault>,
)
    ensures { kept.new
        ≡ least kept.old (
        marked broken.Mismatch (rules.returned schema.now scope.now (option_map spelled result_type.now) at (option_map expression value.now))) }
{
    match (result_type, value) {
        (None, None) => {}
        (None, Some(e)) => note_if(kept, true, TypeRule::Mismatch, place_of(e)),
        (Some(_), None) => note_if(kept, true, TypeRule::Mismatch, at),
        (Some(ty), Some(e)) => unless_both(
            kept,
            type_of(e, schema, scope),
            type_spelled(schema, ty),
            place_of(e),
        ),
    }
}

/// The rules at a statement.
#[inline(never)]
#[tactic(auto, using(crate::proofs::Kept::parts))]
pub fn at_step(
    s: &Stmt,
    schema: &Schema,
    result_type: &Option<JTy>,
    scope: &Scope,
    walked: &Walked,
    in_loop: bool,
    end: bool,
    last: bool,
    kept: &mut Option<TypeFault>,
)
    ensures { kept.new
        ≡ least kept.old (
        faults_at schema.now (read_by schema.now) (option_map spelled result_type.now) (
        step scope.now (around walked.now in_loop end) last (statement s.now))) }
{
    let at = s.span;
    match &s.node {
        StmtNode::Declare { ty, name, value } => {
            let k = type_spelled(schema, ty);
            note_if(kept, k.is_none(), TypeRule::Unknown, at);
            note_if(kept, is_set_of_rows(ty), TypeRule::Mismatch, at);
            given(k, value, schema, scope, kept);
            note_if(kept, taken(scope, name), TypeRule::DoubleName, at);
            aliased(k, name, value, kept);
        }
        StmtNode::Assign { name, value } => {
            let k = scope.type_of(name);
            note_if(kept, !scope.has(name), TypeRule::Unknown, at);
            given(k, value, schema, scope, kept);
            aliased(k, name, value, kept);
            note_if(kept, walked.has(name), TypeRule::ModifiedInLoop, at);
        }
        StmtNode::Add { name, value } => {
            let k = scope.type_of(name);
            note_if(kept, !scope.has(name), TypeRule::Unknown, at);
            unless_many(kept, k, at);
            unless_single(
                kept,
                type_of(value, schema, scope),
                element_of(k),
                place_of(value),
            );
            note_if(kept, walked.has(name), TypeRule::ModifiedInLoop, at);
        }
        StmtNode::Sort {
            name,
            keys,
            down: _,
        } => {
            let k = scope.type_of(name);
            note_if(kept, !scope.has(name), TypeRule::Unknown, at);
            note_keys(kept, schema, listed_in(k), keys.as_slice(), at);
            unless_listed(kept, k, at);
            note_if(kept, walked.has(name), TypeRule::ModifiedInLoop, at);
        }
        StmtNode::If {
            cond,
            yes: _,
            other: _,
        } => unless(
            kept,
            type_of(cond, schema, scope),
            of_bool(),
            place_of(cond),
        ),
        StmtNode::ForEach {
            ty,
            name,
            list,
            body: _,
        } => {
            let k = type_spelled(schema, ty);
            let l = type_of(list, schema, scope);
            note_if(kept, k.is_none(), TypeRule::Unknown, at);
            note_if(kept, is_set_of_rows(ty), TypeRule::Mismatch, at);
            unless_walked(kept, l, place_of(list));
            unless_element(kept, walked_element(l), k, place_of(list));
            note_if(kept, taken(scope, name), TypeRule::DoubleName, at);
        }
        StmtNode::While { cond, body: _ } => {
            unless(
                kept,
                type_of(cond, schema, scope),
                of_bool(),
                place_of(cond),
            )
        }
        StmtNode::Print { value } => unless_scalar(
            kept,
            type_of(value, schema, scope),
            place_of(value),
        ),
        StmtNode::Return { value } => {
            returned(result_type, value, at, schema, scope, kept);
            note_if(kept, !(end && last), TypeRule::ReturnPlace, at);
        }
        StmtNode::Break => note_if(kept, !(in_loop && last), TypeRule::BreakPlace, at),
    }
}

/// The rules at a parameter of a method at this place.
#[tactic(auto, using(crate::proofs::Kept::parts))]
pub fn at_param(
    p: &Param,
    at: Span,
    schema: &Schema,
    result_type: &Option<JTy>,
    scope: &Scope,
    kept: &mut Option<TypeFault>,
)
    ensures { kept.new ≡ least kept.old (faults_at schema.now (read_by schema.now) (option_map spelled result_type.now) (param scope.now at (plain_param p.now))) }
{
    let k = type_spelled(schema, &p.ty);
    note_if(kept, k.is_none(), TypeRule::Unknown, at);
    note_if(kept, is_set_of_rows(&p.ty), TypeRule::Mismatch, at);
    note_if(kept, taken(scope, &p.name), TypeRule::DoubleName, at);
}

/// The rules at a method; `double` says whether one before it has its name, `returns` whether a `return`
/// stands somewhere in it.
#[tactic(auto, using(crate::proofs::Kept::parts))]
pub fn at_method(
    m: &Method,
    double: bool,
    returns: bool,
    schema: &Schema,
    kept: &mut Option<TypeFault>,
)
    requires { returns ≡ rules.returns (statements m.now.body) }
    ensures { kept.new ≡ least kept.old (faults_at schema.now (read_by schema.now) (option_map spelled m.now.result) (whole double (plain_method m.now))) }
{
    let at = m.span;
    if let Some(ty) = &m.result {
        note_if(
            kept,
            type_spelled(schema, ty).is_none(),
            TypeRule::Unknown,
            at,
        );
        note_if(kept, is_set_of_rows(ty), TypeRule::Mismatch, at);
    }
    note_if(kept, double, TypeRule::DoubleName, at);
    note_if(
        kept,
        m.result.is_some() && !returns,
        TypeRule::ReturnPlace,
        at,
    );
}
