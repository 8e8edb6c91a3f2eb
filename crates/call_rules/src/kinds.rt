// Kinds of types, names and bodies, as the rules ask for them.
ghost use Rattle.std.specs.Prelude.{◌≡◌};
ghost use Rattle.std.specs.List.{list_all};
ghost use Rattle.qbs_base.specs.Bytes.{is_name_part as is_name_part_of};
ghost use Rattle.java_ast.specs.Reading.{spelled, statement, statements};
ghost use Rattle.java_mean.specs.Rules as rules;
ghost use Rattle.call_parts.specs.Called.{is_single_name as is_single_name_of};
ghost use Rattle.call_parts.specs.Kinds.{is_scalar_type, are_one_type, is_unreadable as is_unreadable_of};
ghost use Rattle.call_rules.specs.Noted.{ends_well as ends_well_of, has_value as has_value_of};

use java_ast::{JTy, Stmt, StmtNode};
use qbs_base::{Name, Text, is_name_part, is_name_start};

/// Whether a type is a scalar's.
pub fn is_scalar(ty: &JTy) -> bool
    ensures { result ≡ is_scalar_type (spelled ty.now) }
{
    match ty {
        JTy::Int => true,
        JTy::Long => true,
        JTy::Boolean => true,
        JTy::String => true,
        _ => false,
    }
}

/// Whether two types are one, where `int` and `long` are, and `Integer` and `Long`.
#[cycle(types)]
pub fn is_one_type(a: &JTy, b: &JTy) -> bool
    ensures { result ≡ are_one_type (spelled a.now) (spelled b.now) }
{
    match a {
        JTy::Int => matches!(b, JTy::Int | JTy::Long),
        JTy::Long => matches!(b, JTy::Int | JTy::Long),
        JTy::Boolean => matches!(b, JTy::Boolean),
        JTy::String => matches!(b, JTy::String),
        JTy::BoxedInteger => matches!(b, JTy::BoxedInteger | JTy::BoxedLong),
        JTy::BoxedLong => matches!(b, JTy::BoxedInteger | JTy::BoxedLong),
        JTy::BoxedBoolean => matches!(b, JTy::BoxedBoolean),
        JTy::Table(x) => match b {
            JTy::Table(y) => x == y,
            _ => false,
        },
        JTy::List(x) => match b {
            JTy::List(y) => is_one_type(x, y),
            _ => false,
        },
        JTy::Set(x) => match b {
            JTy::Set(y) => is_one_type(x, y),
            _ => false,
        },
    }
}

/// Whether no expression reads a variable of this name.
pub fn is_unreadable(x: &Name) -> bool
    ensures { result ≡ is_unreadable_of x.now }
{
    x.as_str() == "Long" || x.as_str() == "Integer"
}

fn all_parts(bytes: &[u8]) -> bool
    ensures { result ≡ list_all is_name_part_of bytes.now }
{
    for b in bytes {
        if !is_name_part(*b) {
            return false;
        }
    }
    true
}

/// Whether a text is a single name, and so that of a called method.
pub fn is_single_name(text: &Text) -> bool
    ensures { result ≡ is_single_name_of text.now }
{
    match text.as_slice().split_first() {
        None => false,
        Some((first, rest)) => is_name_start(*first) && all_parts(rest),
    }
}

/// Whether there is a `return` among some statements and their parts.
#[cycle(returns)]
pub fn returns(block: &[Stmt]) -> bool
    ensures { result ≡ rules.returns (statements block.now) }
{
    for s in block {
        if returns_in(s) {
            return true;
        }
    }
    false
}

#[cycle(returns)]
#[tactic(auto, using(java_ast::proofs::Nodes::nodes))]
fn returns_in(s: &Stmt) -> bool
    ensures { result ≡ rules.returns_in (statement s.now) }
{
    match &s.node {
        StmtNode::If {
            cond: _,
            yes,
            other,
        } => match other {
            None => returns(yes),
            Some(other) => returns(yes) || returns(other),
        },
        StmtNode::ForEach {
            ty: _,
            name: _,
            list: _,
            body,
        } => returns(body),
        StmtNode::While { cond: _, body } => returns(body),
        StmtNode::Return { value: _ } => true,
        _ => false,
    }
}

fn has_value(s: &Stmt) -> bool
    ensures { result ≡ has_value_of (statement s.now) }
{
    match &s.node {
        StmtNode::Return { value: Some(_) } => true,
        _ => false,
    }
}

/// Whether the last statement of a body returns a value, and no other returns.
#[tactic(auto, using(crate::proofs::Ends::ends))]
pub fn ends_well(body: &[Stmt]) -> bool
    ensures { result ≡ ends_well_of (statements body.now) }
{
    match body.split_last() {
        None => false,
        Some((last, before)) => has_value(last) && !returns(before),
    }
}
