// Types: which are the same, and those that are spelled.
ghost use Rattle.std.specs.Prelude.{◌≡◌};
ghost use Rattle.java_ast.specs.Reading.{spelled};
ghost use Rattle.java_mean.specs.Rules as rules;
ghost use Rattle.java_mean.specs.Types as types;

use java_ast::JTy;
use java_mean::{JavaType, Kindred, Single};
use qbs_base::{Column, Name, Ty, columns_at, same_ty};
use schema::Schema;

pub fn same_single(a: Single, b: Single) -> bool
    ensures { result ≡ rules.same_single a b }
{
    match (a, b) {
        (Single::ScalarOf(a), Single::ScalarOf(b)) => same_ty(a, b),
        (Single::RowOf(m), Single::RowOf(n)) => m == n,
        _ => false,
    }
}

pub fn same_type(a: JavaType, b: JavaType) -> bool
    ensures { result ≡ rules.same_type a b }
{
    match (a, b) {
        (JavaType::Of(a), JavaType::Of(b)) => same_single(a, b),
        (JavaType::Listed(a), JavaType::Listed(b)) => same_single(a, b),
        (JavaType::Distinct(a), JavaType::Distinct(b)) => same_single(a, b),
        _ => false,
    }
}

/// Whether what is of a kindred may be of a type.
pub fn may_be(k: Kindred, j: JavaType) -> bool
    ensures { result ≡ rules.may_be k j }
{
    match (k, j) {
        (Kindred::Only(k), j) => same_type(k, j),
        (Kindred::AnyList, JavaType::Listed(_)) => true,
        (Kindred::AnySet, JavaType::Distinct(_)) => true,
        _ => false,
    }
}

/// What a member of this spelled type is, and none where its table isn't known.
pub fn single_spelled(schema: &Schema, ty: &JTy) -> Option<Single>
    ensures { result ≡ types.single_spelled schema.now (spelled ty.now) }
{
    match ty {
        JTy::Int => Some(Single::ScalarOf(Ty::Long)),
        JTy::Long => Some(Single::ScalarOf(Ty::Long)),
        JTy::Boolean => Some(Single::ScalarOf(Ty::Bool)),
        JTy::String => Some(Single::ScalarOf(Ty::Text)),
        JTy::BoxedInteger => Some(Single::ScalarOf(Ty::Long)),
        JTy::BoxedLong => Some(Single::ScalarOf(Ty::Long)),
        JTy::BoxedBoolean => Some(Single::ScalarOf(Ty::Bool)),
        JTy::Table(name) => match schema.table(name) {
            Some(n) => Some(Single::RowOf(n)),
            None => None,
        },
        JTy::List(_) => None,
        JTy::Set(_) => None,
    }
}

/// The type that is spelled so, and none where its table isn't known.
pub fn type_spelled(schema: &Schema, ty: &JTy) -> Option<JavaType>
    ensures { result ≡ types.type_spelled schema.now (spelled ty.now) }
{
    match ty {
        JTy::List(e) => match single_spelled(schema, e) {
            Some(a) => Some(JavaType::Listed(a)),
            None => None,
        },
        JTy::Set(e) => match single_spelled(schema, e) {
            Some(a) => Some(JavaType::Distinct(a)),
            None => None,
        },
        other => match single_spelled(schema, other) {
            Some(a) => Some(JavaType::Of(a)),
            None => None,
        },
    }
}

fn type_at_number(columns: &[Column], place: Option<u32>) -> Option<Ty>
    ensures { result ≡ rules.type_at_number columns.now place }
{
    match place {
        None => None,
        Some(place) => match columns.get(place as usize) {
            Some(column) => Some(column.ty),
            None => None,
        },
    }
}

/// The type of a row's column, and none where it is no row or has no such column.
pub fn column_in(schema: &Schema, k: Option<Kindred>, name: &Name) -> Option<Ty>
    ensures { result ≡ rules.column_in schema.now k name.now }
{
    match k {
        Some(Kindred::Only(JavaType::Of(Single::RowOf(n)))) => {
            type_at_number(columns_at(schema.tables(), n), schema.column(n, name))
        }
        _ => None,
    }
}
