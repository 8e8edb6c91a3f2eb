// What types decide, with the reason where they don't fit.
ghost use Rattle.std.specs.Prelude.{◌<◌};

use crate::reason::Reason;
use view_rules::{
    JavaType, Operator, arithmetic, contains, is_boolean, is_number, is_text_kind, may_compare,
    may_equal, may_equal_objects, truth,
};

pub fn operator_of(sign: &[u8]) -> Option<Operator> {
    match sign {
        b"||" => Some(Operator::Or),
        b"&&" => Some(Operator::And),
        b"==" => Some(Operator::Same),
        b"!=" => Some(Operator::Other),
        b"<" => Some(Operator::Less),
        b"<=" => Some(Operator::LessOrSame),
        b">" => Some(Operator::Greater),
        b">=" => Some(Operator::GreaterOrSame),
        b"+" => Some(Operator::Plus),
        b"-" => Some(Operator::Minus),
        b"*" => Some(Operator::Times),
        _ => None,
    }
}

/// How tightly an operator binds.
pub fn binding(operator: Operator) -> u8
    ensures { result < 7 }
{
    match operator {
        Operator::Or => 1,
        Operator::And => 2,
        Operator::Same | Operator::Other => 3,
        Operator::Less | Operator::LessOrSame | Operator::Greater | Operator::GreaterOrSame => 4,
        Operator::Plus | Operator::Minus => 5,
        Operator::Times => 6,
    }
}

fn truth_where(test: bool, reason: Reason) -> Result<JavaType, Reason> {
    if test { Ok(truth()) } else { Err(reason) }
}

/// The type of what an operator gives.
pub fn operated(operator: Operator, a: JavaType, b: JavaType) -> Result<JavaType, Reason> {
    match operator {
        Operator::Or | Operator::And => {
            truth_where(is_boolean(a) && is_boolean(b), Reason::Expression)
        }
        Operator::Same | Operator::Other => truth_where(may_compare(a, b), Reason::Boxed),
        Operator::Less | Operator::LessOrSame | Operator::Greater | Operator::GreaterOrSame =>
            truth_where(is_number(a) && is_number(b), Reason::Expression),
        Operator::Plus | Operator::Minus | Operator::Times => match arithmetic(a, b) {
            Some(java) => Ok(java),
            None => Err(Reason::Expression),
        },
    }
}

pub fn is_text(java: JavaType) -> bool {
    match java {
        JavaType::Scalar(t) => is_text_kind(t.kind),
        _ => false,
    }
}

/// Why two values aren't compared: as texts, or as boxes.
fn unequal(a: JavaType, b: JavaType) -> Reason {
    if is_text(a) && is_text(b) {
        Reason::Texts
    } else {
        Reason::Boxed
    }
}

/// Whether `a.equals(b)` compares values, or `Objects.equals(a, b)`.
pub fn equalled(binary: bool, objects: bool, a: JavaType, b: JavaType) -> Result<(), Reason> {
    let may = if objects {
        may_equal_objects(binary, a, b)
    } else {
        may_equal(binary, a, b)
    };
    if may { Ok(()) } else { Err(unequal(a, b)) }
}

fn holds_texts(xs: JavaType) -> bool {
    match xs {
        JavaType::Scalars(kind) | JavaType::Distinct(kind) => is_text_kind(kind),
        _ => false,
    }
}

/// Whether `xs.contains(e)` looks for a value by its value.
pub fn contained(binary: bool, xs: JavaType, value: JavaType) -> Result<(), Reason> {
    if contains(binary, xs, value) {
        Ok(())
    } else if holds_texts(xs) && is_text(value) {
        Err(Reason::Texts)
    } else {
        Err(Reason::Boxed)
    }
}
