// Which items are seen as an expression.
ghost use Rattle.std.specs.Prelude.{◌≡◌};
ghost use Rattle.view_rules.specs.Reading.{expression, arguments_of as arguments_in};
ghost use Rattle.view_rules.specs.Seen as specs;
ghost use Rattle.view_rules.specs.Setting.{within_of};

use crate::constants::{class_constant_at, literal_at, map_constant_at, negative_at};
use crate::levels::level_of;
use crate::lists::{
    contained, got, is_empty_at, is_many, is_query, many_at, new_list, new_set, past_contains,
    past_get, past_new, set_of_query, set_word, size_at,
};
use crate::names::{named_column_at, outer_column_at, own_variable_at, parameter_at};
use crate::nulls::{has_some, past_tests_before, past_tests_behind};
use crate::operators::{
    binary, closed, column_at, equalled, equalled_objects, negated, opened, operator_sign,
    past_equals, past_objects, past_sign, tested_before, tested_behind, unboxed_at,
};
use crate::queries::{before_argument, fetch_at, passed, past_query, queried, template_of};
use crate::steps::{here, next};
use crate::{Arguments, Expression, JavaType, Sighted, Within};
use view_map::Part;

/// Whether the items from a number on are seen as a tree says: the number of the item behind them, and the type that Java has there. None
/// where a rule is broken.
#[cycle(check)]
pub fn check_expression(
    w: &Within,
    sight: &[Sighted],
    e: &Expression,
    i: usize,
) -> Option<(usize, JavaType)>
    ensures { result ≡ specs.expression_of (within_of w.now) sight.now (expression e.now) i }
{
    match e {
        Expression::Literal { at } => literal_at(w, *at, i),
        Expression::Negative { at, digits } => negative_at(w, *at, *digits, i),
        Expression::Variable { at } => own_variable_at(w, sight, *at, i),
        Expression::Parameter { at, number } => parameter_at(w, sight, *at, *number, i),
        Expression::NamedColumn {
            at,
            row,
            class,
            member,
        } => named_column_at(w, sight, *at, *row, *class, *member, i),
        Expression::ClassConstant { at, number } => class_constant_at(w, *at, *number, i),
        Expression::MapConstant { at, number } => map_constant_at(w, *at, *number, i),
        Expression::Column {
            row,
            dot,
            class,
            member,
        } => {
            let e = check_expression(w, sight, row, i)?;
            column_at(w, *dot, *class, *member, level_of(row), e)
        }
        Expression::OuterColumn {
            at,
            class,
            member,
            number,
        } => outer_column_at(w, sight, *at, *class, *member, *number, i),
        Expression::Fetch { at, number } => fetch_at(w, *number, *at, i),
        Expression::Group { at, inner, close } => {
            let j = opened(w, *at, i)?;
            let e = check_expression(w, sight, inner, j)?;
            closed(w, *close, e)
        }
        Expression::Not { at, of } => {
            let j = past_sign(w, b"!", *at, i)?;
            let e = check_expression(w, sight, of, j)?;
            negated(level_of(of), e)
        }
        Expression::Binary {
            operator,
            left,
            at,
            right,
        } => {
            let a = check_expression(w, sight, left, i)?;
            let j = past_sign(w, operator_sign(*operator), *at, a.0)?;
            let b = check_expression(w, sight, right, j)?;
            binary(*operator, level_of(left), a.1, level_of(right), b)
        }
        Expression::Equals {
            at,
            texts,
            left,
            dot,
            right,
            close,
        } => {
            let h = here(*at, i)?;
            let a = check_expression(w, sight, left, h)?;
            let j = past_equals(w, *dot, a.0)?;
            let b = check_expression(w, sight, right, j)?;
            let e = equalled(w, *texts, level_of(left), a.1, b)?;
            closed(w, *close, e)
        }
        Expression::ObjectsEquals {
            at,
            texts,
            left,
            comma,
            right,
            close,
        } => {
            let h = past_objects(w, *at, i)?;
            let a = check_expression(w, sight, left, h)?;
            let j = past_sign(w, b",", *comma, a.0)?;
            let b = check_expression(w, sight, right, j)?;
            let e = equalled_objects(w, *texts, level_of(left), a.1, b)?;
            closed(w, *close, e)
        }
        Expression::Unboxed { of, dot } => {
            let e = check_expression(w, sight, of, i)?;
            unboxed_at(w, *dot, level_of(of), e)
        }
        Expression::TestedBefore { all, tests, kept } => {
            if !has_some(tests.as_slice()) {
                return None;
            }
            let j = past_tests_before(w, sight, *all, tests.as_slice(), i)?;
            let e = check_expression(w, sight, kept, j)?;
            tested_before(*all, level_of(kept), e)
        }
        Expression::TestedBehind { all, kept, tests } => {
            if !has_some(tests.as_slice()) {
                return None;
            }
            let e = check_expression(w, sight, kept, i)?;
            let j = past_tests_behind(w, sight, *all, tests.as_slice(), e.0)?;
            tested_behind(*all, level_of(kept), e.1, j)
        }
        Expression::Size { at } => size_at(w, sight, *at, i),
        Expression::IsEmpty { at } => is_empty_at(w, sight, *at, i),
        Expression::Get { at, place, close } => {
            let xs = past_get(w, sight, *at, i)?;
            let e = check_expression(w, sight, place, xs.0)?;
            let f = got(xs.1, e)?;
            closed(w, *close, f)
        }
        Expression::Contains { at, value, close } => {
            let xs = past_contains(w, sight, *at, i)?;
            let e = check_expression(w, sight, value, xs.0)?;
            let f = contained(w, xs.1, e)?;
            closed(w, *close, f)
        }
        Expression::NewList { at, java } => new_list(w, *java, *at, i),
        Expression::NewSet { at, hashed, java } => new_set(w, *hashed, *java, *at, i),
        Expression::Query {
            at,
            cast,
            number,
            text,
            java,
            arguments,
        } => {
            let t = template_of(w, *number)?;
            let j = past_query(w, t, *cast, *text, *java, *at, i)?;
            let k = check_arguments(w, sight, t.each.as_slice(), arguments, 1, j)?;
            queried(w, t, *cast, *text, *java, k)
        }
        Expression::NewSetOf {
            at,
            hashed,
            java,
            query,
            close,
        } => {
            let j = past_new(w, set_word(*hashed), *java, *at, i)?;
            let e = check_expression(w, sight, query, j)?;
            let f = set_of_query(w, *java, is_query(query), e)?;
            closed(w, *close, f)
        }
    }
}

#[cycle(check)]
fn check_arguments(
    w: &Within,
    sight: &[Sighted],
    each: &[Part],
    arguments: &Arguments,
    n: u8,
    i: usize,
) -> Option<usize>
    ensures { result ≡ specs.arguments_of (within_of w.now) sight.now each.now (arguments_in arguments.now) n i }
{
    match arguments {
        Arguments::End => Some(i),
        Arguments::Next { value, rest } => {
            let j = before_argument(w, n, each, i)?;
            let e = check_expression(w, sight, value, j)?;
            let k = passed(w, n, each, j, level_of(value), e)?;
            check_arguments(w, sight, each, rest, n + 1, k)
        }
    }
}

/// The same of what a for-each walks: a list or set of the slice's own, or a fresh one.
pub fn check_walked(
    w: &Within,
    sight: &[Sighted],
    e: &Expression,
    i: usize,
) -> Option<(usize, JavaType)>
    ensures { result ≡ specs.walked_of (within_of w.now) sight.now (expression e.now) i }
{
    match e {
        Expression::Variable { at } => {
            let h = here(*at, i)?;
            let java = many_at(w, sight, h)?;
            let j = next(w, h)?;
            Some((j, java))
        }
        e => {
            let seen = check_expression(w, sight, e, i)?;
            if is_many(seen.1) { Some(seen) } else { None }
        }
    }
}
