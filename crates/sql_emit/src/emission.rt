// The query of an accumulator, with the entries of its parameters.
ghost use Rattle.std.specs.Prelude.{◌≡◌, ◌<◌, ◌≤◌, true, length, map, IfOk, Some, slice_get};
ghost use Rattle.std.specs.Str.{IsUtf8};
ghost use Rattle.tor_terms.specs.Plain.{forms_of};
ghost use Rattle.kernel_lang.specs.Plain.{accumulator};
ghost use Rattle.kernel_lang.specs.Pools.{chosen};
ghost use Rattle.kernel_lang.specs.Typed.{is_typed};
ghost use Rattle.kernel_lang.specs.Whole.{fragment_of};
ghost use Rattle.sql_ast.specs.Answers.{IsOrderComplete};
ghost use Rattle.sql_ast.specs.Canonical.{canonical};
ghost use Rattle.sql_ast.specs.Reading.{query};
ghost use Rattle.sql_ast.specs.Valid.{IsQueryOf};
ghost use Rattle.sql_parts.specs.Emitted.{query_of};
ghost use Rattle.sql_parts.specs.Given.{AreKnownTo, IsOutermost, AnswersWhatIsClaimed, HasEntries};
ghost use Rattle.sql_parts.specs.Numbered.{emitted, in_order};
ghost use Rattle.sql_parts.specs.Reading.{ground_of, AreShort};
ghost use Rattle.sql_emit.specs.Reading.{emission_of};
ghost use Rattle.sql_parts.specs.Scopes.{ground as plain_ground};

use crate::filter::{accumulator_filter, first_number};
use crate::query::query_by;
use kernel_lang::{Acc, Candidate, KFragment};
use qbs_base::{NoMemory, NumberLists, Numbers, Ty};
use schema::Schema;
use sql_ast::{Queries, Query};
use sql_build::types::types_in;
use sql_parts::counted::count_queries;
use sql_parts::ground::Ground;
use sql_parts::held::read_numbers;
use sql_parts::numbered::{order_of, renumbered_filter};
use sql_parts::texts::read_texts;
use std::alloc::Global;

/// A query, and for each of its parameters in order the number of the entry whose value it takes.
#[derive(Drop)]
pub struct Emitted {
    pub query: Query,
    pub entries: Numbers,
}

/// What a query is emitted from.
fn ground<'a>(
    schema: &'a Schema,
    frag: &'a KFragment,
    cand: &'a Candidate,
    known: &'a Queries,
    args: &'a NumberLists,
) -> Ground<'a>
    ensures value { ground_of result ≡ plain_ground schema.now (fragment_of frag.now) cand.now (map query known.now) args.now }
    ensures short { AreShort result }
    ensures cand { result.cand.now ≡ cand.now }
{
    Ground {
        schema: schema.tables(),
        lists: frag.lists.as_slice(),
        atoms: frag.atoms.as_slice(),
        accs: frag.accs.as_slice(),
        cand: cand.as_slice(),
        known: known.as_slice(),
        args: args.as_slice(),
    }
}

/// The accumulator of this number.
fn accumulator_at(frag: &KFragment, acc: u32) -> &Acc
    requires { IsOutermost (fragment_of frag.now) acc }
    ensures { slice_get frag.now.accs acc ≡ Some result.now }
{
    &frag.accs.as_slice()[acc as usize]
}

/// The query of an accumulator whose first formula has the number `first`; entries have these types.
fn emission(
    alloc: Global,
    g: Ground,
    types: &[Ty],
    acc: &Acc,
    first: u32,
) -> Result<Emitted, NoMemory>
    requires some { 0 < length acc.now.chain }
    requires few { length acc.now.chain ≤ 3 }
    requires short { AreShort g }
    ensures { IfOk result (λ e.
        emission_of e
        ≡ in_order types.now (query_of (ground_of g.entry) (accumulator acc.now, chosen g.entry.cand.now first (forms_of acc.now.pool)))) }
{
    let filter = accumulator_filter(alloc, g, acc, first)?;
    let order = order_of(alloc, &filter)?;
    let filter = renumbered_filter(alloc, order.as_slice(), &filter)?;
    let params = types_in(alloc, types, order.as_slice())?;
    let query = query_by(alloc, g, acc, filter, params)?;
    Ok(Emitted {
        query,
        entries: order,
    })
}

/// The query of an accumulator outside all loops, as it is defined for any schema and known queries.
pub fn emit_exactly(
    alloc: Global,
    schema: &Schema,
    frag: &KFragment,
    cand: &Candidate,
    acc: u32,
    known: &Queries,
    known_args: &NumberLists,
) -> Result<Emitted, NoMemory>
    requires { IsOutermost (fragment_of frag.now) acc }
    ensures { IfOk result (λ e. Some (emission_of e) ≡ emitted schema.now (fragment_of frag.now) cand.now acc (map query known.now) known_args.now) }
{
    let g = ground(schema, frag, cand, known, known_args);
    let first = first_number(0, frag.accs.as_slice(), acc as usize)?;
    emission(
        alloc,
        g,
        frag.entries.as_slice(),
        accumulator_at(frag, acc),
        first,
    )
}

/// The query that answers what the postcondition of a candidate claims of the accumulator `acc`, one
/// that stands outside all loops. The fragment fits the schema, and `known` has for each of its known
/// lists the query of one column and without LIMIT that answers it, of the type of what is tested
/// against it, with the numbers of the entries that are the query's arguments in `known_args`.
///
/// The query is of the grammar of queries, and a list query has one answer. On every database of the
/// schema, with the values of its entries, it answers what is claimed: a number is too large exactly
/// where it isn't in 64 bits, and a set is the list of first occurrences. Its parameters are numbered
/// by first occurrence, and each takes the value of an entry of the fragment, of its type. Its
/// canonical text is UTF-8. `NoMemory` comes where memory runs out, and where a FROM item of a known
/// query has a number past 32 bits.
pub fn emit(
    alloc: Global,
    schema: &Schema,
    frag: &KFragment,
    cand: &Candidate,
    acc: u32,
    known: &Queries,
    known_args: &NumberLists,
) -> Result<Emitted, NoMemory>
    requires outermost { IsOutermost (fragment_of frag.now) acc }
    requires typed { is_typed schema.now (fragment_of frag.now) ≡ true }
    requires known { AreKnownTo schema.now (fragment_of frag.now) (map query known.now) known_args.now }
    ensures exact { IfOk result (λ e. Some (emission_of e) ≡ emitted schema.now (fragment_of frag.now) cand.now acc (map query known.now) known_args.now) }
    ensures grammar { IfOk result (λ e. IsQueryOf schema.now (query e.query)) }
    ensures order { IfOk result (λ e. IsOrderComplete (query e.query)) }
    ensures entries { IfOk result (λ e. HasEntries (fragment_of frag.now) (emission_of e)) }
    ensures utf8 { IfOk result (λ e. IsUtf8 (canonical (query e.query))) }
    ensures meaning { IfOk result (λ e. AnswersWhatIsClaimed schema.now (fragment_of frag.now) cand.now acc (map query known.now) known_args.now (emission_of e)) }
{
    read_numbers(frag);
    let queries = known.as_slice();
    count_queries(queries)?;
    read_texts(frag, queries);
    // Whose names are those of a schema, as the grammar asks.
    let _tables = schema.tables();
    emit_exactly(alloc, schema, frag, cand, acc, known, known_args)
}
