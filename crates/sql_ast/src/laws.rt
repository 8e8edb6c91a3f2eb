//! Laws of queries, for the crates above. They do nothing.
ghost use Rattle.std.specs.Prelude.{◌≡◌, ◌↔◌, ◌<◌, ◌^◌, ℕ, List, length, Ok, Err};
ghost use Rattle.std.specs.Str.{IsUtf8};
ghost use Rattle.qbs_base.specs.Values.{Database, Schema};
ghost use Rattle.qbs_base.specs.declared.scalar.Scalar.{Scalar};
ghost use Rattle.sql_ast.specs.Answers.{IsOrderComplete, HasOneAnswer};
ghost use Rattle.sql_ast.specs.Canonical.{canonical};
ghost use Rattle.sql_ast.specs.declared.rule.SqlRule.{SqlRule};
ghost use Rattle.sql_ast.specs.Reader.{query_of_text};
ghost use Rattle.sql_ast.specs.Texts.{HasQuery, BreaksRule};
ghost use Rattle.sql_ast.specs.Tree.{PlainListing, PlainQuery, Listing};
ghost use Rattle.sql_ast.specs.Utf8.{LiteralsAreUtf8};
ghost use Rattle.sql_ast.specs.Valid.{IsQueryOf};

/// An order complete query for a list has exactly one answer, that of its meaning.
pub fn order_complete_has_one_answer()
    ensures { (q : PlainListing) (db : Database) (params : List Scalar) → IsOrderComplete (Listing q) → HasOneAnswer q db params }
{}

/// A text has at most one query under a schema.
pub fn a_text_has_one_query_at_most()
    ensures { (schema : Schema) (text : List ℕ) (q other : PlainQuery) → HasQuery schema text q → HasQuery schema text other → q ≡ other }
{}

/// A query is one that some text has exactly where its names are known and its types, group and
/// parameters fit, and then its canonical text has it. Texts are shorter than 2^64 bytes, as all
/// that fit in memory: more FROM items than that have no aliases of their own.
pub fn a_canonical_text_has_its_query()
    ensures valid { (schema : Schema) (text : List ℕ) (q : PlainQuery) → length text < 2 ^ 64 → HasQuery schema text q → IsQueryOf schema q }
    ensures has { (schema : Schema) (q : PlainQuery) → IsQueryOf schema q → HasQuery schema (canonical q) q }
    ensures again { (schema : Schema) (text : List ℕ) (q : PlainQuery) → length text < 2 ^ 64 → HasQuery schema text q → HasQuery schema (canonical q) q }
{}

/// The canonical text of a query of the schema is UTF-8 where the query's text literals are. Its
/// names are ASCII.
pub fn canonical_texts_are_utf8()
    ensures { (schema : Schema) (q : PlainQuery) → IsQueryOf schema q → LiteralsAreUtf8 q → IsUtf8 (canonical q) }
{}

/// Reading a text from left to right gives the query that it has by the grammar, or else the first
/// rule that it breaks.
pub fn a_text_is_read_by_the_grammar()
    ensures query { (schema : Schema) (text : List ℕ) (q : PlainQuery) → HasQuery schema text q ↔ (query_of_text schema text ≡ Ok q) }
    ensures rule { (schema : Schema) (text : List ℕ) (rule : SqlRule) → BreaksRule schema text rule ↔ (query_of_text schema text ≡ Err rule) }
{}
