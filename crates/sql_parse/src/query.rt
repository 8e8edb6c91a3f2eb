// The query that a text has under a schema.
ghost use Rattle.std.specs.Prelude.{◌≡◌, ◌<◌, ◌^◌, length, Ok, Err, IfOk, IfErr};
ghost use Rattle.sql_ast.specs.Canonical.{canonical};
ghost use Rattle.sql_ast.specs.Names.{named_query as named_query_of};
ghost use Rattle.sql_ast.specs.Reader.{written_in, query_of_text};
ghost use Rattle.sql_ast.specs.Reading.{query as plain_query};
ghost use Rattle.sql_ast.specs.Texts.{judged, HasQuery, BreaksRule};
ghost use Rattle.sql_ast.specs.Tree.{PlainQuery};
ghost use Rattle.sql_ast.specs.Valid.{IsQueryOf};
ghost use Rattle.sql_ast.specs.declared.rule.SqlRule.{SqlRule as Rule};
ghost use Rattle.sql_parse.specs.Answers.{Answers, IfRule};
ghost use Rattle.sql_parse.specs.Said.{query_of};
ghost use Rattle.sql_parse.specs.Seen.{Gives};

use crate::bounds::fits_stack;
use crate::fault::Stop;
use crate::judging::judge;
use crate::lexing::lex;
use crate::naming::named_query;
use crate::queries::read;
use crate::raw::RawQuery;
use crate::refusal::{SqlFault, broken};
use qbs_base::{Fail, Table, Text};
use schema::Schema;
use sql_ast::{Query, SqlRule};
use std::alloc::Global;

/// What a text says. A text whose reading might not fit the stack is want of memory.
fn say(alloc: Global, text: &Text) -> Result<Box<RawQuery>, Stop>
    ensures { Gives (λ q. query_of q.value) result (written_in text.now) }
{
    let tokens = lex(alloc, text.as_str())?;
    if !fits_stack(&tokens) {
        return Err(Stop::NoMemory);
    }
    read(alloc, &tokens)
}

/// The query of what is written.
fn judge_written(alloc: Global, schema: &[Table], raw: &RawQuery) -> Result<Query, Fail<SqlFault>>
    ensures { Answers plain_query result (judged schema.now (query_of raw.now)) }
{
    match named_query(alloc, schema, raw) {
        Ok(query) => judge(alloc, schema, query),
        Err(Stop::Broken) => Err(broken(SqlRule::Unknown)),
        Err(Stop::NoMemory) => Err(Fail::NoMemory),
    }
}

/// The query of a text, as reading from left to right finds it.
fn find(alloc: Global, schema: &[Table], text: &Text) -> Result<Query, Fail<SqlFault>>
    ensures { Answers plain_query result (query_of_text schema.now text.now) }
{
    match say(alloc, text) {
        Ok(raw) => judge_written(alloc, schema, &raw),
        Err(Stop::Broken) => Err(broken(SqlRule::BadToken)),
        Err(Stop::NoMemory) => Err(Fail::NoMemory),
    }
}

/// Reads the length of a text: that of any that is held has 64 bits. It changes nothing.
pub fn read_length(text: &Text)
    ensures { length text.now < 2 ^ 64 }
{
    let _length = text.as_str().len();
}

/// Reads the query that a text has under a schema. The fault is the smallest rule that the text
/// breaks: `BadToken` where it isn't in the grammar, and of a text in the grammar `Unknown`,
/// `Mismatch`, `BadGroup` or `BadParameter`, whichever comes first. The time that it takes grows
/// with the text, times the logarithm of how many FROM items there are. A text that weighs more than 7,500 is answered by want of memory, where a
/// parenthesis weighs five while it is open, and each AND, OR, NOT and comma between FROM items one. So a stack of 8 MB is enough for all others.
pub fn parse_query(alloc: Global, schema: &Schema, text: &Text) -> Result<Query, Fail<SqlFault>>
    // It answers what reading the text from left to right gives.
    ensures exact { Answers plain_query result (query_of_text schema.now text.now) }
    // What is read is a query that the text has, and what it has is read.
    ensures found { IfOk result (λ q. HasQuery schema.now text.now (plain_query q)) }
    ensures only { (q : PlainQuery) → HasQuery schema.now text.now q → Answers plain_query result (Ok q) }
    // It is a query of the schema: its names are known, and its types, group and parameters fit.
    ensures valid { IfOk result (λ q. IsQueryOf schema.now (plain_query q)) }
    // A fault is the first rule that the text breaks, and a text that breaks a rule is refused by it.
    ensures fault { IfErr result (IfRule (BreaksRule schema.now text.now)) }
    ensures refused { (rule : Rule) → BreaksRule schema.now text.now rule → Answers plain_query result (Err rule) }
    // The canonical text of a query is read as that query.
    ensures again { (q : PlainQuery) → IsQueryOf schema.now q → text.now ≡ canonical q → Answers plain_query result (Ok q) }
{
    read_length(text);
    find(alloc, schema.tables(), text)
}
