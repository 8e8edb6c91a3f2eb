// The command `check` by a view.
ghost use Rattle.std.specs.Prelude.{◌≡◌, ◌∷◌, [], IfOk};
ghost use Rattle.java_ast.specs.Reading.{program as plain_program};
ghost use Rattle.java_mean.specs.WellTyped.{IsWellTyped};
ghost use Rattle.java_types.specs.Texts.{read_by};
ghost use Rattle.deriv_check.specs.Bundles.{entries_of};
ghost use Rattle.deliveries.specs.Code.{OrMemory};
ghost use Rattle.deliveries.specs.Plan.{given};
ghost use Rattle.deliveries.specs.Reads.{looks, OnlyReads};
ghost use Rattle.plans.specs.Opening.{has_bundle};
ghost use Rattle.qbs.specs.Check.{checks};
ghost use Rattle.qbs.specs.CheckByView.{nothing_program, seen_program, check_by_view_of, check_by_view};
ghost use Rattle.qbs.specs.Seen.{HasSeen, seen_by};

use crate::check::{plan_bundle, plan_check};
use crate::opened_by_view::{SeenBy, see_source};
use crate::seen::{Seen, Viewed};
use deliveries::Plan;
use deliveries::fetch::{MOST_MAP, Stop, fetch};
use deriv_check::Bundle;
use files_sinks::Files;
use java_ast::{Methods, Program};
use java_types::Typed;
use plans::opening::open_bundle;
use qbs_base::{Name, NoMemory, Text, Texts};
use schema::Schema;
use std::alloc::Global;

/// What is due for the files of a map, a schema, a source and a bundle.
pub fn plan_check_by_view<F: Files>(
    alloc: Global,
    files: &mut F,
    map: &Text,
    schema: &Text,
    source: &Text,
    bundle: &Text,
) -> Result<Plan, Stop>
    ensures reads { OnlyReads (looks F.told F.faults F.may_fail F.by_read) (map.now ∷ schema.now ∷ source.now ∷ bundle.now ∷ []) files.old files.new }
    ensures due { OrMemory result (check_by_view (given F.told F.faults F.may_fail files.old files.new) map.now schema.now source.now bundle.now) }
{
    let map = fetch(alloc, files, map, MOST_MAP, "map")?;
    plan_check(alloc, files, &Some(map), schema, source, bundle)
}

/// What is due for the bytes of a map and of files.
pub fn plan_source_by_view(
    alloc: Global,
    map: &[u8],
    schema: &[u8],
    source: &[u8],
    bundle: &[u8],
) -> Result<Plan, Stop>
    ensures { OrMemory result (check_by_view_of map.now schema.now source.now bundle.now) }
{
    let by = see_source(alloc, map, schema, source)?;
    plan_opened(alloc, &by, source, bundle)
}

// What is due for what is seen by them.
fn plan_opened(alloc: Global, by: &SeenBy, source: &[u8], bundle: &[u8]) -> Result<Plan, Stop>
    requires { HasSeen by.now.map by.now.schema source.now by.now.seen }
    ensures { OrMemory result (has_bundle bundle.now (λ entries. checks by.now.schema (seen_program (seen_by by.now.seen)) entries)) }
{
    let bundle = open_bundle(alloc, bundle)?;
    plan_seen(alloc, &by.schema, &by.seen, &bundle)
}

// What is due for what is seen.
fn plan_seen(alloc: Global, schema: &Schema, seen: &Seen, bundle: &Bundle) -> Result<Plan, Stop>
    requires { IsWellTyped schema.now (read_by schema.now) (seen_program (seen_by seen.now)) }
    ensures { OrMemory result (checks schema.now (seen_program (seen_by seen.now)) (entries_of bundle.now)) }
{
    match seen {
        Seen::Methods { viewed, .. } => plan_viewed(alloc, schema, viewed, bundle),
        Seen::Nothing { .. } => plan_nothing(alloc, schema, bundle),
    }
}

// The program of a view is checked.
fn plan_viewed(
    alloc: Global,
    schema: &Schema,
    viewed: &Viewed,
    bundle: &Bundle,
) -> Result<Plan, Stop>
    requires { IsWellTyped schema.now (read_by schema.now) (plain_program viewed.now.typed.value.program) }
    ensures { OrMemory result (checks schema.now (plain_program viewed.now.typed.value.program) (entries_of bundle.now)) }
{
    plan_bundle(alloc, schema, &viewed.typed, bundle)
}

/// A class without methods.
fn nothing(alloc: Global) -> Result<Program, NoMemory>
    ensures { IfOk result (λ p. plain_program p ≡ nothing_program) }
{
    Ok(Program {
        package: None,
        imports: Texts::new(alloc),
        public: false,
        name: Name::from_str(alloc, "View")?,
        methods: Methods::new(alloc),
    })
}

// Where nothing is seen, a class without methods is checked, which is well typed.
fn plan_nothing(alloc: Global, schema: &Schema, bundle: &Bundle) -> Result<Plan, Stop>
    ensures { OrMemory result (checks schema.now nothing_program (entries_of bundle.now)) }
{
    let typed = Typed::of(nothing(alloc)?);
    plan_bundle(alloc, schema, &typed, bundle)
}
