// The eight small databases of a fragment.
ghost use Rattle.std.specs.Prelude.{◌≡◌, ◌++◌, ◌∷◌, ◌<◌, [], true, IfOk, OnOk};
ghost use Rattle.std.specs.List.{AllByRecursion};
ghost use Rattle.qbs_base.specs.Values.{IsDatabaseOf};
ghost use Rattle.kernel_lang.specs.Fitting.{PartsFit};
ghost use Rattle.kernel_lang.specs.Typed.{is_typed};
ghost use Rattle.kernel_lang.specs.Whole.{fragment_of};
ghost use Rattle.small_dbs.specs.Held.{held};
ghost use Rattle.small_dbs.specs.Literals as literals;
ghost use Rattle.small_dbs.specs.Small as spec;

use crate::choice::Values;
use crate::entries::{known_lists, push_entries};
use crate::small::{SmallDb, SmallDbs};
use crate::tables::small_db;
use crate::values::values_of;
use kernel_lang::{Entry, KFragment};
use kernel_steps::small_numbers;
use qbs_base::{Items, NoMemory};
use schema::Schema;
use std::alloc::Global;

// Small database number d.
fn small_of(
    alloc: Global,
    schema: &Schema,
    frag: &KFragment,
    values: &Values,
    d: usize,
) -> Result<SmallDb, NoMemory>
    requires low { d < 8 }
    requires own { held values.now ≡ literals.values (fragment_of frag.now) }
    ensures { IfOk result (λ small. small ≡ spec.small schema.now (fragment_of frag.now) d) }
{
    let db = small_db(alloc, values, d, schema)?;
    let mut own = Items::new(alloc);
    push_entries(alloc, values, d, frag.entries.as_slice(), &mut own)?;
    let known = known_lists(alloc, schema.tables(), frag, values, d)?;
    Ok(SmallDb {
        db,
        entry: Entry { values: own, known },
    })
}

/// Small database number `d` alone, as `small_dbs` has it. It fails only by want of memory.
pub fn small_db_at(
    alloc: Global,
    schema: &Schema,
    frag: &KFragment,
    d: usize,
) -> Result<SmallDb, NoMemory>
    requires { d < 8 }
    ensures { IfOk result (λ small. small ≡ spec.small schema.now (fragment_of frag.now) d) }
{
    let values = values_of(alloc, frag)?;
    small_of(alloc, schema, frag, &values, d)
}

fn push_small(
    alloc: Global,
    schema: &Schema,
    frag: &KFragment,
    values: &Values,
    d: usize,
    all: &mut SmallDbs,
) -> Result<(), NoMemory>
    requires low { d < 8 }
    requires own { held values.now ≡ literals.values (fragment_of frag.now) }
    ensures { OnOk result (all.new ≡ all.old ++ spec.small schema.now (fragment_of frag.now) d ∷ []) }
{
    all.push(small_of(alloc, schema, frag, values, d)?)
}

fn push_smalls(
    alloc: Global,
    schema: &Schema,
    frag: &KFragment,
    values: &Values,
    all: &mut SmallDbs,
) -> Result<(), NoMemory>
    requires { held values.now ≡ literals.values (fragment_of frag.now) }
    ensures { OnOk result (all.new ≡ all.old ++ spec.smalls schema.now (fragment_of frag.now)) }
{
    let numbers = small_numbers();
    push_small(alloc, schema, frag, values, numbers[0], &mut *all)?;
    push_small(alloc, schema, frag, values, numbers[1], &mut *all)?;
    push_small(alloc, schema, frag, values, numbers[2], &mut *all)?;
    push_small(alloc, schema, frag, values, numbers[3], &mut *all)?;
    push_small(alloc, schema, frag, values, numbers[4], &mut *all)?;
    push_small(alloc, schema, frag, values, numbers[5], &mut *all)?;
    push_small(alloc, schema, frag, values, numbers[6], &mut *all)?;
    push_small(alloc, schema, frag, values, numbers[7], all)
}

/// The eight small databases of a fragment that fits the schema, each with entry values and known
/// lists. Number d has `d mod 4` rows in each table and `d mod 3` members in each known list. Values
/// are taken round lists in ascending order: of numbers 0, 1, and each literal of atoms and starts
/// with its neighbours; of texts the empty one, `a` and the literals of atoms; of truth values both.
/// Column c of row r of table t has the value at place d + 3t + 5r + c, entry value e that at d + 2e,
/// member r of known list q that at d + q + r. It fails only by want of memory.
pub fn small_dbs(alloc: Global, schema: &Schema, frag: &KFragment) -> Result<SmallDbs, NoMemory>
    requires { is_typed schema.now (fragment_of frag.now) ≡ true }
    ensures exact { IfOk result (λ all. all ≡ spec.smalls schema.now (fragment_of frag.now)) }
    // They are databases of the schema.
    ensures databases { IfOk result (λ all. AllByRecursion (λ small. IsDatabaseOf schema.now small.db) all) }
    // The parts of the fragment fit them.
    ensures fit { IfOk result (λ all. AllByRecursion (λ small. PartsFit (fragment_of frag.now) small.db small.entry) all) }
{
    made(alloc, schema, frag)
}

fn made(alloc: Global, schema: &Schema, frag: &KFragment) -> Result<SmallDbs, NoMemory>
    ensures { IfOk result (λ all. all ≡ spec.smalls schema.now (fragment_of frag.now)) }
{
    let values = values_of(alloc, frag)?;
    let mut all = Items::new(alloc);
    push_smalls(alloc, schema, frag, &values, &mut all)?;
    Ok(all)
}
