//! Laws of that with which fragments end, for the crates above. They do nothing.
ghost use Rattle.std.specs.Prelude.{◌≡◌, ℕ, List, Some};
ghost use Rattle.std.specs.List.{AllByRecursion};
ghost use Rattle.qbs_base.specs.declared.scalar.Row.{Row as PlainRow};
ghost use Rattle.qbs_base.specs.declared.scalar.Value.{Value as PlainValue};
ghost use Rattle.qbs_base.specs.declared.scalar.Value.TheVariants as values;
ghost use Rattle.qbs_base.specs.Values.{Schema, Database, IsDatabaseOf};
ghost use Rattle.tor_terms.specs.declared.term.Elem.TheVariants as elems;
ghost use Rattle.tor_terms.specs.Truth.{World};
ghost use Rattle.kernel_lang.specs.declared.parts.Entry.{Entry as PlainEntry};
ghost use Rattle.kernel_lang.specs.declared.parts.Update.TheVariants as updates;
ghost use Rattle.kernel_lang.specs.Ends.{ValueFits, StartFits, StartsFit, AreDistinct};
ghost use Rattle.kernel_lang.specs.Given.{world_given};
ghost use Rattle.kernel_lang.specs.Plain.{Accumulator, Fragment};
ghost use Rattle.kernel_lang.specs.Running.{ends_as, fragment_end};

/// A fragment that ends on a database of a schema ends with numbers of 64 bits alone, where it
/// starts with such: its counts, sums and best numbers, and those in the rows that it collects.
pub fn fragments_end_with_64_bits()
    ensures all { (schema : Schema) (f : Fragment) (db : Database) (entry : PlainEntry) (ends : List PlainValue)
        → IsDatabaseOf schema db
        → StartsFit f
        → fragment_end f db entry ≡ Some ends
        → AllByRecursion ValueFits ends }
    ensures each { (schema : Schema) (f : Fragment) (db : Database) (entry : PlainEntry) (a : Accumulator) (end : PlainValue)
        → IsDatabaseOf schema db
        → StartFits a.start
        → ends_as f (world_given f db entry) a ≡ Some end
        → ValueFits end }
{}

/// The members of a set that collects a column are distinct, in whatever world it is filled.
pub fn sets_have_distinct_members()
    ensures { (f : Fragment) (w : World) (a : Accumulator) (j c : ℕ) (rows : List PlainRow)
        → a.update ≡ updates.PushNew (elems.Field j c)
        → ends_as f w a ≡ Some (values.Many rows)
        → AreDistinct rows }
{}
