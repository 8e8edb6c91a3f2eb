// The rule that a text without a query breaks.
ghost use Rattle.sql_parse.specs.Answers.{IsBroken};

use qbs_base::Fail;
use sql_ast::SqlRule;
use thiserror::Error;

/// The first rule that a query text breaks.
#[derive(Clone, Copy, Debug, Error)]
#[error("the query text breaks a rule")]
pub struct SqlFault {
    pub rule: SqlRule,
}

/// The refusal by a rule.
pub fn broken(rule: SqlRule) -> Fail<SqlFault>
    ensures { IsBroken rule result }
{
    Fail::Fault(SqlFault { rule })
}
