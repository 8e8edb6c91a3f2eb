//! Laws of the text of a schema, for the crates above. They do nothing.
ghost use Rattle.std.specs.Prelude.{◌≡◌, List, Ok};
ghost use Rattle.schema.specs.Grammar.{HasSchema};
ghost use Rattle.schema.specs.Schemas.{schema_of};
ghost use Rattle.schema.specs.Tokens.{tokens_of, kinds_of};
ghost use Rattle.dump_text.specs.declared.entry.Entry.{Entry as PlainEntry};
ghost use Rattle.dump_text.specs.Entries.{tables_of, AreSound};
ghost use Rattle.dump_text.specs.Text.{text_of};
ghost use Rattle.dump_text.specs.Worked.{worked_entries, worked_text};

/// The text of sound entries declares their tables by the grammar, whatever their comments hold.
pub fn written_tables_are_declared()
    ensures { (entries : List PlainEntry) → AreSound entries → HasSchema (kinds_of (tokens_of (text_of entries))) (tables_of entries) }
{}

/// The text of sound entries is read as exactly their tables.
pub fn written_tables_are_read_back()
    ensures { (entries : List PlainEntry) → AreSound entries → schema_of (text_of entries) ≡ Ok (tables_of entries) }
{}

/// There are sound entries with line feeds in their comments, and what they are written as.
#[tactic(auto, unfolding(crate::specs::Text::text_of))]
pub fn a_schema_with_comments()
    ensures sound { AreSound worked_entries }
    ensures text { text_of worked_entries ≡ worked_text }
{}
