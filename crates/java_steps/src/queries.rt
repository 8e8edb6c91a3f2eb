// Queries of texts and their answers.
ghost use Rattle.std.specs.Prelude.{◌≡◌, IfOk, IfSome};
ghost use Rattle.std.specs.Option.{option_map};
ghost use Rattle.sql_ast.specs.Reading.{query};
ghost use Rattle.sql_exec.specs.Answered.{IsAnswerable, answered};
ghost use Rattle.java_mean.specs.Expression as meant;
ghost use Rattle.java_types.specs.Texts.{read_by};
ghost use Rattle.java_steps.specs.Gives.{GivesBy};
ghost use Rattle.java_steps.specs.Held.{value_in};
ghost use Rattle.java_steps.specs.IsRead.{IsRead};
ghost use Rattle.java_steps.specs.Running.{world};

use crate::held::{Held, list_of};
use crate::known::read_query;
use crate::source::Source;
use crate::stop::Stop;
use java_mean::{Ending, RunFault};
use qbs_base::{Scalars, Span, Text};
use sql_ast::Query;
use sql_exec::Answer;
use std::alloc::Global;

fn value_of<'a>(alloc: Global, answer: Answer, at: Span) -> Result<Held<'a>, Stop>
    ensures { GivesBy value_in result (meant.answered at (Some (answered answer))) }
{
    match answer {
        Answer::Rows(rows) => Ok(Held::Many(list_of(alloc, rows)?)),
        Answer::One(x) => Ok(Held::One(x)),
        Answer::SumTooLarge => Err(Stop::Ends(Ending::Faulted(RunFault::SumTooLarge, at))),
    }
}

// The answer of a query that a text has.
#[tactic(auto, using(crate::proofs::Readings::answer_is))]
fn answer_of<'a>(
    source: &Source,
    at: Span,
    text: &Text,
    q: &Query,
    args: &Scalars,
    is_repeated: bool,
) -> Result<Held<'a>, Stop>
    requires { IsRead source.now.queries.schema text.now (query q.now) }
    ensures { GivesBy value_in result (meant.answered at ((world source.now).ask text.now args.now)) }
{
    value_of(
        source.alloc,
        source.tables.answer(q, args, is_repeated)?,
        at,
    )
}

/// The answer of a text's query to these arguments.
#[tactic(auto, using(crate::proofs::Readings::no_answer))]
pub fn ask<'a>(source: &Source, at: Span, text: &Text, args: &Scalars) -> Result<Held<'a>, Stop>
    ensures { GivesBy value_in result (meant.answered at ((world source.now).ask text.now args.now)) }
{
    let number = source.numbers.at(at);
    if let Some(q) = source.queries.find(number, text) {
        return answer_of(
            source,
            at,
            text,
            q,
            args,
            source.queries.is_repeated(number),
        );
    }
    match read_query(source.alloc, source.queries.schema(), text)? {
        Some(q) => answer_of(source, at, text, &q, args, false),
        None => Err(Stop::Ends(Ending::Stuck)),
    }
}
