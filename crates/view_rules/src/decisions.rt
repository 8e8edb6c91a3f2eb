// What Java's types decide.
ghost use Rattle.std.specs.Prelude.{◌≡◌};
ghost use Rattle.view_rules.specs.Decisions as specs;

use crate::JavaType;
use view_map::{ScalarKind, ScalarType};

// ---- Kinds

pub fn same_kind(a: ScalarKind, b: ScalarKind) -> bool
    ensures { result ≡ specs.same_kind a b }
{
    match (a, b) {
        (ScalarKind::Int, ScalarKind::Int) => true,
        (ScalarKind::Long, ScalarKind::Long) => true,
        (ScalarKind::Boolean, ScalarKind::Boolean) => true,
        (ScalarKind::Text, ScalarKind::Text) => true,
        _ => false,
    }
}

pub fn is_number_kind(kind: ScalarKind) -> bool
    ensures { result ≡ specs.is_number_kind kind }
{
    matches!(kind, ScalarKind::Int | ScalarKind::Long)
}

pub fn is_text_kind(kind: ScalarKind) -> bool
    ensures { result ≡ specs.is_text_kind kind }
{
    matches!(kind, ScalarKind::Text)
}

fn is_boolean_kind(kind: ScalarKind) -> bool
    ensures { result ≡ specs.is_boolean_kind kind }
{
    matches!(kind, ScalarKind::Boolean)
}

fn is_int_kind(kind: ScalarKind) -> bool
    ensures { result ≡ specs.is_int_kind kind }
{
    matches!(kind, ScalarKind::Int)
}

fn is_long_kind(kind: ScalarKind) -> bool
    ensures { result ≡ specs.is_long_kind kind }
{
    matches!(kind, ScalarKind::Long)
}

/// The type of a literal or a constant of a kind: primitive, but for texts, which are objects.
pub fn unboxed_type(kind: ScalarKind) -> JavaType
    ensures { result ≡ specs.unboxed_type kind }
{
    JavaType::Scalar(ScalarType {
        kind,
        boxed: is_text_kind(kind),
    })
}

/// The type of an element of a kind of a list or set.
pub fn boxed_type(kind: ScalarKind) -> JavaType
    ensures { result ≡ specs.boxed_type kind }
{
    JavaType::Scalar(ScalarType { kind, boxed: true })
}

/// `boolean`.
pub fn truth() -> JavaType
    ensures { result ≡ specs.truth }
{
    unboxed_type(ScalarKind::Boolean)
}

fn same_boxing(a: bool, b: bool) -> bool
    ensures { result ≡ specs.same_boxing a b }
{
    (a && b) || (!a && !b)
}

/// Whether two types are one.
pub fn same_type(a: JavaType, b: JavaType) -> bool
    ensures { result ≡ specs.same_type a b }
{
    match (a, b) {
        (JavaType::Scalar(a), JavaType::Scalar(b)) => {
            same_kind(a.kind, b.kind) && same_boxing(a.boxed, b.boxed)
        }
        (JavaType::Row(a), JavaType::Row(b)) => a == b,
        (JavaType::Rows(a), JavaType::Rows(b)) => a == b,
        (JavaType::Scalars(a), JavaType::Scalars(b)) => same_kind(a, b),
        (JavaType::Distinct(a), JavaType::Distinct(b)) => same_kind(a, b),
        _ => false,
    }
}

/// Whether a type is of numbers, boxed or not.
pub fn is_number(java: JavaType) -> bool
    ensures { result ≡ specs.is_number java }
{
    match java {
        JavaType::Scalar(t) => is_number_kind(t.kind),
        _ => false,
    }
}

/// Whether a type is of truth values, boxed or not.
pub fn is_boolean(java: JavaType) -> bool
    ensures { result ≡ specs.is_boolean java }
{
    match java {
        JavaType::Scalar(t) => is_boolean_kind(t.kind),
        _ => false,
    }
}

/// Whether a type is of texts.
pub fn is_text(java: JavaType) -> bool
    ensures { result ≡ specs.is_text java }
{
    match java {
        JavaType::Scalar(t) => is_text_kind(t.kind),
        _ => false,
    }
}

/// Whether a type is of one value.
pub fn is_scalar(java: JavaType) -> bool
    ensures { result ≡ specs.is_scalar java }
{
    matches!(java, JavaType::Scalar(_))
}

/// Whether a type is `int` or `Integer`.
pub fn is_int(java: JavaType) -> bool
    ensures { result ≡ specs.is_int java }
{
    match java {
        JavaType::Scalar(t) => is_int_kind(t.kind),
        _ => false,
    }
}

// ---- Operators

fn arithmetic_kind(a: ScalarKind, b: ScalarKind) -> Option<ScalarKind>
    ensures { result ≡ specs.arithmetic_kind a b }
{
    match (a, b) {
        (ScalarKind::Int, ScalarKind::Int) => Some(ScalarKind::Int),
        (ScalarKind::Int, ScalarKind::Long) => Some(ScalarKind::Long),
        (ScalarKind::Long, ScalarKind::Int) => Some(ScalarKind::Long),
        (ScalarKind::Long, ScalarKind::Long) => Some(ScalarKind::Long),
        _ => None,
    }
}

/// The type of a sum, a difference or a product: `int` where both are, else `long`. None where one is no number.
pub fn arithmetic(a: JavaType, b: JavaType) -> Option<JavaType>
    ensures { result ≡ specs.arithmetic a b }
{
    match (a, b) {
        (JavaType::Scalar(a), JavaType::Scalar(b)) => {
            Some(unboxed_type(arithmetic_kind(a.kind, b.kind)?))
        }
        _ => None,
    }
}

/// Whether `==` and `!=` compare values: two numbers or two truth values, one of them at least primitive.
pub fn may_compare(a: JavaType, b: JavaType) -> bool
    ensures { result ≡ specs.may_compare a b }
{
    match (a, b) {
        (JavaType::Scalar(a), JavaType::Scalar(b)) => {
            ((is_number_kind(a.kind) && is_number_kind(b.kind))
                || (is_boolean_kind(a.kind) && is_boolean_kind(b.kind)))
                && (!a.boxed || !b.boxed)
        }
        _ => false,
    }
}

// ---- Equality of objects

fn are_texts(binary: bool, a: ScalarType, b: ScalarType) -> bool
    ensures { result ≡ specs.are_texts binary a b }
{
    binary && (is_text_kind(a.kind) && is_text_kind(b.kind))
}

fn are_boxes(a: ScalarType, b: ScalarType) -> bool
    ensures { result ≡ specs.are_boxes a b }
{
    !is_text_kind(a.kind) && (a.boxed && same_kind(a.kind, b.kind))
}

fn are_primitives(a: ScalarType, b: ScalarType) -> bool
    ensures { result ≡ specs.are_primitives a b }
{
    !is_text_kind(a.kind) && ((!a.boxed && !b.boxed) && same_kind(a.kind, b.kind))
}

/// Whether `a.equals(b)` compares values: a boxed, and b of the same boxed type or its primitive, or two texts where the database compares
/// them by their bytes.
pub fn may_equal(binary: bool, a: JavaType, b: JavaType) -> bool
    ensures { result ≡ specs.may_equal binary a b }
{
    match (a, b) {
        (JavaType::Scalar(a), JavaType::Scalar(b)) => are_texts(binary, a, b) || are_boxes(a, b),
        _ => false,
    }
}

/// The same of `Objects.equals(a, b)`, which also compares two of one primitive type.
pub fn may_equal_objects(binary: bool, a: JavaType, b: JavaType) -> bool
    ensures { result ≡ specs.may_equal_objects binary a b }
{
    match (a, b) {
        (JavaType::Scalar(a), JavaType::Scalar(b)) => {
            (are_texts(binary, a, b) || are_boxes(a, b)) || are_primitives(a, b)
        }
        _ => false,
    }
}

fn unboxed_scalar(method: &[u8], t: ScalarType) -> Option<JavaType>
    ensures { result ≡ specs.unboxed_scalar method.now t }
{
    if !t.boxed {
        None
    } else if method == b"longValue".as_slice() && is_number_kind(t.kind) {
        Some(unboxed_type(ScalarKind::Long))
    } else if method == b"intValue".as_slice() && is_int_kind(t.kind) {
        Some(unboxed_type(ScalarKind::Int))
    } else if method == b"booleanValue".as_slice() && is_boolean_kind(t.kind) {
        Some(unboxed_type(ScalarKind::Boolean))
    } else {
        None
    }
}

/// The primitive type that a method gives of a boxed value: `longValue`, `intValue`, `booleanValue`.
pub fn unboxed(method: &[u8], java: JavaType) -> Option<JavaType>
    ensures { result ≡ specs.unboxed method.now java }
{
    match java {
        JavaType::Scalar(t) => unboxed_scalar(method, t),
        _ => None,
    }
}

// ---- Assignment

fn scalar_may_be_assigned(target: ScalarType, value: ScalarType) -> bool
    ensures { result ≡ specs.scalar_may_be_assigned target value }
{
    same_kind(target.kind, value.kind)
        || (!target.boxed && (is_long_kind(target.kind) && is_int_kind(value.kind)))
}

/// Whether a value may be assigned to a variable of the first type: Java boxes and unboxes to the very type, and widens to a primitive
/// `long`.
pub fn may_be_assigned(target: JavaType, value: JavaType) -> bool
    ensures { result ≡ specs.may_be_assigned target value }
{
    match (target, value) {
        (JavaType::Scalar(target), JavaType::Scalar(value)) => {
            scalar_may_be_assigned(target, value)
        }
        (target, value) => same_type(target, value),
    }
}

// ---- Lists and sets

/// What a list or set holds.
pub fn element_of(java: JavaType) -> Option<JavaType>
    ensures { result ≡ specs.element_of java }
{
    match java {
        JavaType::Rows(class) => Some(JavaType::Row(class)),
        JavaType::Scalars(kind) | JavaType::Distinct(kind) => Some(boxed_type(kind)),
        _ => None,
    }
}

/// Whether a value is of the type of what a list or set holds, or its primitive.
pub fn is_element(xs: JavaType, value: JavaType) -> bool
    ensures { result ≡ specs.is_element xs value }
{
    match (xs, value) {
        (JavaType::Rows(a), JavaType::Row(b)) => a == b,
        (JavaType::Scalars(kind), JavaType::Scalar(t)) => same_kind(kind, t.kind),
        (JavaType::Distinct(kind), JavaType::Scalar(t)) => same_kind(kind, t.kind),
        _ => false,
    }
}

/// Whether a value may be added to a list or set: it has the element type or its primitive.
pub fn may_be_added(xs: JavaType, value: JavaType) -> bool
    ensures { result ≡ specs.may_be_added xs value }
{
    is_element(xs, value)
}

/// Whether a for-each over a list or set may have a variable of this type: the element type or its primitive.
pub fn may_be_walked(xs: JavaType, java: JavaType) -> bool
    ensures { result ≡ specs.may_be_walked xs java }
{
    is_element(xs, java)
}

fn contains_kind(binary: bool, kind: ScalarKind, value: JavaType) -> bool
    ensures { result ≡ specs.contains_kind binary kind value }
{
    match value {
        JavaType::Scalar(t) => same_kind(kind, t.kind) && (binary || !is_text_kind(kind)),
        _ => false,
    }
}

/// Whether `contains` looks for a value by its value: of scalars, one of the element type or its primitive, of texts only where the database
/// compares them by their bytes.
pub fn contains(binary: bool, xs: JavaType, value: JavaType) -> bool
    ensures { result ≡ specs.contains binary xs value }
{
    match xs {
        JavaType::Scalars(kind) | JavaType::Distinct(kind) => contains_kind(binary, kind, value),
        _ => false,
    }
}
