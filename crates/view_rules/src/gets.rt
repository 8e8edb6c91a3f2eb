// Which expressions hold `get`.
ghost use Rattle.std.specs.Prelude.{◌≡◌};
ghost use Rattle.view_rules.specs.Gets as specs;
ghost use Rattle.view_rules.specs.Reading.{expression, arguments_of};

use crate::{Arguments, Expression};

/// Whether an expression holds `get`, which may fault.
#[cycle(gets)]
pub fn holds_get(e: &Expression) -> bool
    ensures { result ≡ specs.holds_get (expression e.now) }
{
    match e {
        Expression::Column { row: e, .. }
        | Expression::Group { inner: e, .. }
        | Expression::Not { of: e, .. }
        | Expression::Unboxed { of: e, .. }
        | Expression::TestedBefore { kept: e, .. }
        | Expression::TestedBehind { kept: e, .. }
        | Expression::Contains { value: e, .. }
        | Expression::NewSetOf { query: e, .. } => holds_get(e),
        Expression::Binary { left, right, .. }
        | Expression::Equals { left, right, .. }
        | Expression::ObjectsEquals { left, right, .. } => holds_get(left) || holds_get(right),
        Expression::Get { .. } => true,
        Expression::Query { arguments, .. } => some_holds_get(arguments),
        _ => false,
    }
}

#[cycle(gets)]
fn some_holds_get(arguments: &Arguments) -> bool
    ensures { result ≡ specs.some_holds_get (arguments_of arguments.now) }
{
    match arguments {
        Arguments::End => false,
        Arguments::Next { value, rest } => holds_get(value) || some_holds_get(rest),
    }
}
