//! Laws of emitted queries, for the crates above. They do nothing.
ghost use Rattle.std.specs.Prelude.{◌≡◌, ℕ, List, Some, None, true, slice_get};
ghost use Rattle.std.specs.List.{AllByRecursion};
ghost use Rattle.qbs_base.specs.Values.{Schema};
ghost use Rattle.schema.specs.Rules.{IsSchema, AreNamed};
ghost use Rattle.kernel_lang.specs.Plain.{Fragment};
ghost use Rattle.kernel_lang.specs.Pools.{Member, members};
ghost use Rattle.kernel_lang.specs.Typed.{is_typed};
ghost use Rattle.kernel_lang.specs.Validity.{broken};
ghost use Rattle.sql_ast.specs.Answers.{IsOrderComplete};
ghost use Rattle.sql_ast.specs.Tree.{PlainQuery};
ghost use Rattle.sql_ast.specs.Valid.{IsQueryOf};
ghost use Rattle.sql_parts.specs.Emitted.{query_of};
ghost use Rattle.sql_parts.specs.Given.{AreKnownTo, IsHeld, QueryIsCounted, SaysWhatIsClaimed, EntriesAreThere, TextsAreUtf8, QueriesAreUtf8};
ghost use Rattle.sql_parts.specs.Numbered.{in_order};
ghost use Rattle.sql_parts.specs.Scopes.{ground};
ghost use Rattle.sql_parts.specs.Worked.{WorkedQueries};

/// Worked fragments have these queries, byte for byte.
pub fn worked_fragments_have_their_queries()
    ensures { WorkedQueries }
{}

/// The query of an accumulator that stands outside all loops answers what the postcondition claims
/// of it, on every database of the schema with the values of its entries: for lists with chains of
/// any length, for sets, numbers and truth values. The fragment is valid and fits the schema.
pub fn emitted_queries_say_what_is_claimed()
    ensures { (schema : Schema) (f : Fragment) (cand : List ℕ) (known : List PlainQuery) (args : List (List ℕ)) (acc : ℕ) (m : Member)
        → broken f ≡ None
        → is_typed schema f ≡ true
        → AreKnownTo schema f known args
        → slice_get (members f cand) acc ≡ Some m
        → m.0.base ≡ 0
        → SaysWhatIsClaimed schema f cand known args m (in_order f.entries (query_of (ground schema f cand known args) m)) }
{}

/// The queries of a valid fragment have one answer each: a list query is grouped as it has to be,
/// or its keys name the position of each FROM item.
pub fn emitted_lists_have_one_answer()
    ensures { (schema : Schema) (f : Fragment) (cand : List ℕ) (known : List PlainQuery) (args : List (List ℕ)) (acc : ℕ) (m : Member)
        → broken f ≡ None
        → slice_get (members f cand) acc ≡ Some m
        → IsOrderComplete (in_order f.entries (query_of (ground schema f cand known args) m)).query }
{}

/// The queries of a valid fragment that fits the schema are of the grammar of queries under it: some
/// text has them, their canonical text. The numbers of the fragment are of 64 bits, and the FROM
/// items of known queries can be counted, as all that code can hold.
pub fn emitted_queries_are_of_the_grammar()
    ensures { (schema : Schema) (f : Fragment) (cand : List ℕ) (known : List PlainQuery) (args : List (List ℕ)) (acc : ℕ) (m : Member)
        → IsSchema schema
        → AreNamed schema
        → broken f ≡ None
        → is_typed schema f ≡ true
        → AreKnownTo schema f known args
        → AllByRecursion QueryIsCounted known
        → IsHeld f
        → slice_get (members f cand) acc ≡ Some m
        → m.0.base ≡ 0
        → IsQueryOf schema (in_order f.entries (query_of (ground schema f cand known args) m)).query }
{}

/// Each parameter of the query of an accumulator takes the value of an entry of the fragment, of its
/// type.
pub fn emitted_parameters_are_entries()
    ensures { (schema : Schema) (f : Fragment) (known : List PlainQuery) (args : List (List ℕ))
        → broken f ≡ None
        → AreKnownTo schema f known args
        → EntriesAreThere schema f known args }
{}

/// Where the text literals of a fragment and of its known queries are UTF-8, so are those of the
/// query of each accumulator, and its canonical text where it is a query of the schema.
pub fn emitted_texts_are_utf8()
    ensures { (schema : Schema) (f : Fragment) (known : List PlainQuery) (args : List (List ℕ))
        → broken f ≡ None
        → TextsAreUtf8 f known
        → QueriesAreUtf8 schema f known args }
{}
