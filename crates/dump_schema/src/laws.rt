//! Laws of what is drawn of a dump, for the crates above. They do nothing.
ghost use Rattle.std.specs.Prelude.{List};
ghost use Rattle.dump_tables.specs.declared.table.DumpTable.{DumpTable as PlainTable};
ghost use Rattle.dump_text.specs.Entries.{AreSound};
ghost use Rattle.dump_schema.specs.declared.choice.Choice.{Choice as PlainChoice};
ghost use Rattle.dump_schema.specs.Entries.{entries_of};

/// Whatever tables a dump declares and whatever the options choose, what is drawn is sound, so that its text is read back.
pub fn what_is_drawn_is_sound()
    ensures { (choice : PlainChoice) (tables : List PlainTable) → AreSound (entries_of choice tables) }
{}
