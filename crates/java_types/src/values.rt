// The rules at an expression.
ghost use Rattle.std.specs.Prelude.{◌≡◌, OnOk, not, option_copied};
ghost use Rattle.std.specs.Option.{option_map};
ghost use Rattle.sql_ast.specs.Reading.{query};
ghost use Rattle.java_ast.specs.Reading.{expression, expressions, spelled};
ghost use Rattle.java_ast.specs.Tree as tree;
ghost use Rattle.java_mean.specs.Places.{value};
ghost use Rattle.java_mean.specs.Rules as rules;
ghost use Rattle.java_mean.specs.WellTyped.{faults_at, marked};
ghost use Rattle.java_mean.specs.declared.rule.TypeRule.TheVariants as broken;
ghost use Rattle.java_mean.specs.Least.{least};
ghost use Rattle.java_types.specs.Texts.{read_by};

use crate::queries::{fits_query, is_number, is_truth, lists, params_of, query_of};
use crate::types::{column_in, single_spelled};
use crate::words::{
    listed_in, note_column, scalar_ty, scalars_of, set_of, unless, unless_alike, unless_listed,
    unless_many, unless_scalar, unless_scalars, unless_set, unless_single,
};
use java_ast::{Expr, ExprNode, JTy, Op};
use java_mean::{JavaType, Kindred, Scope, Single, TypeFault, TypeRule, has_order, note_if};
use qbs_base::{NoMemory, Scalar, Span, Text, Ty};
use schema::Schema;
use sql_ast::Query;
use std::alloc::Global;

pub fn of_long() -> JavaType
    ensures { result ≡ rules.of_long }
{
    JavaType::Of(Single::ScalarOf(Ty::Long))
}

pub fn of_bool() -> JavaType
    ensures { result ≡ rules.of_bool }
{
    JavaType::Of(Single::ScalarOf(Ty::Bool))
}

pub fn of_text() -> JavaType
    ensures { result ≡ rules.of_text }
{
    JavaType::Of(Single::ScalarOf(Ty::Text))
}

fn ty_of(x: &Scalar) -> Ty
    ensures { result ≡ rules.ty_of x.now }
{
    match x {
        Scalar::Long(_) => Ty::Long,
        Scalar::Bool(_) => Ty::Bool,
        Scalar::Text(_) => Ty::Text,
    }
}

fn type_of_op(op: Op) -> JavaType
    ensures { result ≡ rules.type_of_op op }
{
    match op {
        Op::Add => of_long(),
        Op::Sub => of_long(),
        Op::Mul => of_long(),
        _ => of_bool(),
    }
}

/// The type of an expression, by its head: none where a variable, a table or a column isn't known.
pub fn type_of(e: &Expr, schema: &Schema, scope: &Scope) -> Option<Kindred>
    ensures { result ≡ rules.type_of schema.now scope.now (expression e.now) }
{
    match &e.node {
        ExprNode::Lit(x) => Some(Kindred::Only(JavaType::Of(Single::ScalarOf(ty_of(x))))),
        ExprNode::Var(x) => match scope.type_of(x) {
            Some(k) => Some(Kindred::Only(k)),
            None => None,
        },
        ExprNode::Field(row, f) => match column_in(schema, type_of(row, schema, scope), f) {
            Some(ty) => Some(Kindred::Only(JavaType::Of(Single::ScalarOf(ty)))),
            None => None,
        },
        ExprNode::Binary(op, _, _) => Some(Kindred::Only(type_of_op(*op))),
        ExprNode::Not(_) => Some(Kindred::Only(of_bool())),
        ExprNode::Equals(_, _) => Some(Kindred::Only(of_bool())),
        ExprNode::Size(_) => Some(Kindred::Only(of_long())),
        ExprNode::Get(x, _) => match listed_in(scope.type_of(x)) {
            Some(a) => Some(Kindred::Only(JavaType::Of(a))),
            None => None,
        },
        ExprNode::Contains(_, _) => Some(Kindred::Only(of_bool())),
        ExprNode::Fetch(t) => match schema.table(t) {
            Some(n) => Some(Kindred::Only(JavaType::Listed(Single::RowOf(n)))),
            None => None,
        },
        ExprNode::Query(ty, _, _) => match single_spelled(schema, ty) {
            Some(a) => Some(Kindred::Only(JavaType::Listed(a))),
            None => None,
        },
        ExprNode::QueryLong(_, _) => Some(Kindred::Only(of_long())),
        ExprNode::QueryBoolean(_, _) => Some(Kindred::Only(of_bool())),
        ExprNode::NewList => Some(Kindred::AnyList),
        ExprNode::NewSet(None) => Some(Kindred::AnySet),
        ExprNode::NewSet(Some(q)) => set_of(type_of(q, schema, scope)),
    }
}

/// Where an expression stands.
#[tactic(auto, using(crate::proofs::Nodes::place_is))]
pub fn place_of(e: &Expr) -> Span
    ensures { result ≡ rules.at_of (expression e.now) }
{
    e.span
}

// Two operands of one type.
#[tactic(auto, using(crate::proofs::Kept::parts))]
fn both_operands(
    a: &Expr,
    b: &Expr,
    k: JavaType,
    schema: &Schema,
    scope: &Scope,
    kept: &mut Option<TypeFault>,
)
    ensures { kept.new ≡ least kept.old (marked broken.Mismatch (rules.both_operands schema.now scope.now k (expression a.now) (expression b.now))) }
{
    unless(kept, type_of(a, schema, scope), k, place_of(a));
    unless(kept, type_of(b, schema, scope), k, place_of(b));
}

// Two scalars that are compared.
#[tactic(auto, using(crate::proofs::Kept::parts))]
fn compared(
    a: &Expr,
    b: &Expr,
    at: Span,
    schema: &Schema,
    scope: &Scope,
    kept: &mut Option<TypeFault>,
)
    ensures { kept.new ≡ least kept.old (marked broken.Mismatch (rules.compared schema.now scope.now at (expression a.now) (expression b.now))) }
{
    let k = type_of(a, schema, scope);
    let j = type_of(b, schema, scope);
    unless_scalar(kept, k, place_of(a));
    unless_scalar(kept, j, place_of(b));
    unless_alike(kept, scalar_ty(k), scalar_ty(j), at);
}

// The operands of an operator.
fn operands(
    op: Op,
    a: &Expr,
    b: &Expr,
    at: Span,
    schema: &Schema,
    scope: &Scope,
    kept: &mut Option<TypeFault>,
)
    ensures { kept.new ≡ least kept.old (marked broken.Mismatch (rules.operands schema.now scope.now at op (expression a.now) (expression b.now))) }
{
    match op {
        Op::Or => both_operands(a, b, of_bool(), schema, scope, kept),
        Op::And => both_operands(a, b, of_bool(), schema, scope, kept),
        Op::Eq => compared(a, b, at, schema, scope, kept),
        Op::Ne => compared(a, b, at, schema, scope, kept),
        _ => both_operands(a, b, of_long(), schema, scope, kept),
    }
}

fn is_text(ty: Option<Ty>) -> bool
    ensures { result ≡ rules.is_text ty }
{
    matches!(ty, Some(Ty::Text))
}

fn two_texts(a: &Expr, b: &Expr, schema: &Schema, scope: &Scope) -> bool
    ensures { result ≡ rules.two_texts schema.now scope.now (expression a.now) (expression b.now) }
{
    is_text(scalar_ty(type_of(a, schema, scope))) && is_text(scalar_ty(type_of(b, schema, scope)))
}

// Two texts that are compared by identity.
fn identity(
    op: Op,
    a: &Expr,
    b: &Expr,
    at: Span,
    schema: &Schema,
    scope: &Scope,
    kept: &mut Option<TypeFault>,
)
    ensures { kept.new
        ≡ least kept.old (
        marked broken.TextIdentity (rules.text_identity schema.now (value scope.now (tree.Binary at op (expression a.now) (expression b.now))))) }
{
    match op {
        Op::Eq => note_if(
            kept,
            two_texts(a, b, schema, scope),
            TypeRule::TextIdentity,
            at,
        ),
        Op::Ne => note_if(
            kept,
            two_texts(a, b, schema, scope),
            TypeRule::TextIdentity,
            at,
        ),
        _ => {}
    }
}

// Arguments of these types, as far as there are both.
fn arguments(
    types: &[Ty],
    args: &[Expr],
    schema: &Schema,
    scope: &Scope,
    kept: &mut Option<TypeFault>,
)
    ensures { kept.new ≡ least kept.old (marked broken.Mismatch (rules.arguments schema.now scope.now types.now (expressions args.now))) }
{
    for (ty, e) in types.iter().zip(args) {
        unless(
            kept,
            type_of(e, schema, scope),
            JavaType::Of(Single::ScalarOf(*ty)),
            place_of(e),
        );
    }
}

// The rules at a query, where the text has one or not.
fn note_query(
    q: Option<&Query>,
    fits: bool,
    ordered: bool,
    args: &[Expr],
    at: Span,
    schema: &Schema,
    scope: &Scope,
    kept: &mut Option<TypeFault>,
)
    ensures { kept.new
        ≡ least (least (least (least kept.old (marked broken.Mismatch (rules.arguments schema.now scope.now (rules.params_of (option_map query (option_copied q.entry))) (expressions args.now)))) (marked broken.BadQuery (rules.only_if (not fits) at))) (marked broken.UnorderedQuery (rules.only_if (not ordered) at))) (marked broken.Arity (rules.only_if (not (rules.fits_query (option_map query (option_copied q.entry)) (expressions args.now))) at)) }
{
    arguments(params_of(q), args, schema, scope, kept);
    note_if(kept, !fits, TypeRule::BadQuery, at);
    note_if(kept, !ordered, TypeRule::UnorderedQuery, at);
    note_if(kept, !fits_query(q, args), TypeRule::Arity, at);
}

// A query for a list.
#[tactic(auto, using(crate::proofs::Kept::parts))]
fn at_listing(
    alloc: Global,
    ty: &JTy,
    text: &Text,
    args: &[Expr],
    at: Span,
    result_type: &Option<JTy>,
    schema: &Schema,
    scope: &Scope,
    kept: &mut Option<TypeFault>,
) -> Result<(), NoMemory>
    ensures { OnOk result (
        kept.new
        ≡ least kept.old (
        faults_at schema.now (read_by schema.now) (option_map spelled result_type.now) (
        value scope.now (tree.Query at (spelled ty.now) text.now (expressions args.now))))) }
{
    let a = single_spelled(schema, ty);
    let read = query_of(alloc, schema, text)?;
    let q = read.as_deref();
    note_if(kept, a.is_none(), TypeRule::Unknown, at);
    let fits = lists(schema, a, q);
    note_query(q, fits, has_order(q), args, at, schema, scope, kept);
    Ok(())
}

// A query for a number.
#[tactic(auto, using(crate::proofs::Kept::parts))]
fn at_number(
    alloc: Global,
    text: &Text,
    args: &[Expr],
    at: Span,
    result_type: &Option<JTy>,
    schema: &Schema,
    scope: &Scope,
    kept: &mut Option<TypeFault>,
) -> Result<(), NoMemory>
    ensures { OnOk result (
        kept.new
        ≡ least kept.old (
        faults_at schema.now (read_by schema.now) (option_map spelled result_type.now) (
        value scope.now (tree.QueryLong at text.now (expressions args.now))))) }
{
    let read = query_of(alloc, schema, text)?;
    let q = read.as_deref();
    note_query(q, is_number(q), true, args, at, schema, scope, kept);
    Ok(())
}

// A query for a truth value.
#[tactic(auto, using(crate::proofs::Kept::parts))]
fn at_truth(
    alloc: Global,
    text: &Text,
    args: &[Expr],
    at: Span,
    result_type: &Option<JTy>,
    schema: &Schema,
    scope: &Scope,
    kept: &mut Option<TypeFault>,
) -> Result<(), NoMemory>
    ensures { OnOk result (
        kept.new
        ≡ least kept.old (
        faults_at schema.now (read_by schema.now) (option_map spelled result_type.now) (
        value scope.now (tree.QueryBoolean at text.now (expressions args.now))))) }
{
    let read = query_of(alloc, schema, text)?;
    let q = read.as_deref();
    note_query(q, is_truth(q), true, args, at, schema, scope, kept);
    Ok(())
}

/// The rules at an expression.
#[inline(never)]
#[tactic(auto, using(crate::proofs::Kept::parts, java_ast::proofs::Nodes::nodes))]
pub fn at_value(
    alloc: Global,
    e: &Expr,
    schema: &Schema,
    result_type: &Option<JTy>,
    scope: &Scope,
    kept: &mut Option<TypeFault>,
) -> Result<(), NoMemory>
    ensures { OnOk result (
        kept.new
        ≡ least kept.old (faults_at schema.now (read_by schema.now) (option_map spelled result_type.now) (value scope.now (expression e.now)))) }
{
    let at = e.span;
    match &e.node {
        ExprNode::Lit(_) => {}
        ExprNode::Var(x) => note_if(kept, !scope.has(x), TypeRule::Unknown, at),
        ExprNode::Field(row, f) => {
            let k = type_of(row, schema, scope);
            note_column(kept, schema, k, f, at);
        }
        ExprNode::Binary(op, a, b) => {
            operands(*op, a, b, at, schema, scope, kept);
            identity(*op, a, b, at, schema, scope, kept);
        }
        ExprNode::Not(a) => unless(kept, type_of(a, schema, scope), of_bool(), place_of(a)),
        ExprNode::Equals(a, b) => both_operands(a, b, of_text(), schema, scope, kept),
        ExprNode::Size(x) => {
            note_if(kept, !scope.has(x), TypeRule::Unknown, at);
            unless_many(kept, scope.type_of(x), at);
        }
        ExprNode::Get(x, i) => {
            note_if(kept, !scope.has(x), TypeRule::Unknown, at);
            unless_listed(kept, scope.type_of(x), at);
            unless(kept, type_of(i, schema, scope), of_long(), place_of(i));
        }
        ExprNode::Contains(x, a) => {
            let k = scope.type_of(x);
            note_if(kept, !scope.has(x), TypeRule::Unknown, at);
            unless_scalars(kept, k, at);
            unless_single(kept, type_of(a, schema, scope), scalars_of(k), place_of(a));
        }
        ExprNode::Fetch(t) => note_if(kept, schema.table(t).is_none(), TypeRule::Unknown, at),
        ExprNode::Query(ty, text, args) => {
            at_listing(alloc, ty, text, args, at, result_type, schema, scope, kept)?;
        }
        ExprNode::QueryLong(text, args) => {
            at_number(alloc, text, args, at, result_type, schema, scope, kept)?;
        }
        ExprNode::QueryBoolean(text, args) => {
            at_truth(alloc, text, args, at, result_type, schema, scope, kept)?;
        }
        ExprNode::NewList => {}
        ExprNode::NewSet(None) => {}
        ExprNode::NewSet(Some(q)) => unless_set(kept, type_of(q, schema, scope), at),
    }
    Ok(())
}
