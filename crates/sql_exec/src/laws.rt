//! Laws of answers, for the crates above. They do nothing.
ghost use Rattle.std.specs.Prelude.{◌≡◌};
ghost use Rattle.qbs_base.specs.Values.{Schema};
ghost use Rattle.sql_ast.specs.Tree.{PlainQuery};
ghost use Rattle.sql_ast.specs.Valid.{IsQueryOf};
ghost use Rattle.sql_exec.specs.Answered.{IsAnswerable};
ghost use Rattle.sql_exec.specs.Worked.{Worked};

/// Every query that some text has under a schema is answered.
#[tactic(auto, using(crate::proofs::Judged::is_answerable))]
pub fn queries_of_a_schema_are_answered()
    ensures { (schema : Schema) (q : PlainQuery) → IsQueryOf schema q → IsAnswerable q }
{}

/// Queries on small tables have these answers: ties, groups, inner SELECTs, products and sums.
#[tactic(auto, using(crate::proofs::Computed::worked))]
pub fn worked_queries_have_their_answers()
    ensures { Worked }
{}
