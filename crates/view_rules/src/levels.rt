// How tightly expressions bind.
ghost use Rattle.std.specs.Prelude.{◌≡◌};
ghost use Rattle.view_rules.specs.Levels as specs;
ghost use Rattle.view_rules.specs.Reading.{expression};

use crate::{Expression, Operator};

pub fn operator_level(operator: Operator) -> u8
    ensures { result ≡ specs.operator_level operator }
{
    match operator {
        Operator::Or => 1,
        Operator::And => 2,
        Operator::Same | Operator::Other => 3,
        Operator::Less | Operator::LessOrSame | Operator::Greater | Operator::GreaterOrSame => 4,
        Operator::Plus | Operator::Minus => 5,
        Operator::Times => 6,
    }
}

pub fn joined_level(all: bool) -> u8
    ensures { result ≡ specs.joined_level all }
{
    if all { 2 } else { 1 }
}

/// How tightly an expression binds in the file: 8 what stands alone, 7 `!`, a minus sign, fetches and queries, then the operators, down to 1
/// for `||`.
pub fn level_of(e: &Expression) -> u8
    ensures { result ≡ specs.level_of (expression e.now) }
{
    match e {
        Expression::Negative { .. }
        | Expression::Fetch { .. }
        | Expression::Not { .. }
        | Expression::Query { .. } => 7,
        Expression::Binary { operator, .. } => operator_level(*operator),
        Expression::TestedBefore { all, .. } | Expression::TestedBehind { all, .. } => {
            joined_level(*all)
        }
        _ => 8,
    }
}
