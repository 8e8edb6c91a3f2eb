// The command `map`.
ghost use Rattle.std.specs.Prelude.{◌∷◌, [], Some, None};
ghost use Rattle.deliveries.specs.Code.{OrMemory};
ghost use Rattle.deliveries.specs.Plan.{given};
ghost use Rattle.deliveries.specs.Reads.{looks, OnlyReads};
ghost use Rattle.qbs.specs.Maps.{IsText, draws, source_names, checks_of, checks_map};

use deliveries::Plan;
use deliveries::fetch::{MOST_ENTITIES, MOST_MAP, Stop, fetch, fetch_schema, fetch_source};
use deliveries::named::fetch_named;
use files_sinks::Files;
use plans::opening::{open_map, open_schema};
use qbs_base::{Bytes, Items, NoMemory, Status, Text, Words};
use std::alloc::Global;
use view_maps::{draw_map, draw_schema, print_check};

/// What is drawn of entities.
#[derive(Clone, Copy)]
pub enum Drawn {
    Map,
    Schema,
}

// A text without a report.
fn text_plan(alloc: Global, text: Bytes) -> Plan
    ensures { IsText result }
{
    Plan {
        status: Status::Ok,
        out: text,
        rep: Bytes::from_vec(Vec::new(alloc)),
    }
}

fn draw(alloc: Global, drawn: Drawn, texts: &[Bytes]) -> Result<Bytes, NoMemory> {
    match drawn {
        Drawn::Map => draw_map(alloc, texts),
        Drawn::Schema => draw_schema(alloc, texts),
    }
}

/// What is due for files of entities, which are read in order: what is drawn of them. All together have 32 MiB at
/// most.
pub fn plan_map<F: Files>(
    alloc: Global,
    files: &mut F,
    drawn: Drawn,
    entities: &Words,
) -> Result<Plan, Stop>
    ensures reads { OnlyReads (looks F.told F.faults F.may_fail F.by_read) entities.now files.old files.new }
    ensures due { OrMemory result (draws (given F.told F.faults F.may_fail files.old files.new) entities.now) }
{
    let mut texts = Items::new(alloc);
    fetch_named(
        alloc,
        files,
        entities.as_slice(),
        MOST_ENTITIES,
        "entities",
        &mut texts,
    )?;
    let text = draw(alloc, drawn, texts.as_slice())?;
    Ok(text_plan(alloc, text))
}

/// What is due for the files of a map and a schema, and of a source where one is named: Java that compiles only where
/// the map is true, a class of its own or the source with the checks in its class.
pub fn plan_check_map<F: Files>(
    alloc: Global,
    files: &mut F,
    map: &Text,
    schema: &Text,
    source: &Option<Text>,
) -> Result<Plan, Stop>
    ensures reads { OnlyReads (looks F.told F.faults F.may_fail F.by_read) (map.now ∷ schema.now ∷ source_names source.now) files.old files.new }
    ensures due { OrMemory result (checks_map (given F.told F.faults F.may_fail files.old files.new) map.now schema.now source.now) }
{
    match source {
        Some(source) => plan_with_source(alloc, files, map, schema, source),
        None => plan_alone(alloc, files, map, schema),
    }
}

fn plan_alone<F: Files>(
    alloc: Global,
    files: &mut F,
    map: &Text,
    schema: &Text,
) -> Result<Plan, Stop>
    ensures reads { OnlyReads (looks F.told F.faults F.may_fail F.by_read) (map.now ∷ schema.now ∷ []) files.old files.new }
    ensures due { OrMemory result (checks_map (given F.told F.faults F.may_fail files.old files.new) map.now schema.now None) }
{
    let map = fetch(alloc, files, map, MOST_MAP, "map")?;
    let schema = fetch_schema(alloc, files, schema)?;
    plan_checks(alloc, map.as_slice(), schema.as_slice(), None)
}

fn plan_with_source<F: Files>(
    alloc: Global,
    files: &mut F,
    map: &Text,
    schema: &Text,
    source: &Text,
) -> Result<Plan, Stop>
    ensures reads { OnlyReads (looks F.told F.faults F.may_fail F.by_read) (map.now ∷ schema.now ∷ source.now ∷ []) files.old files.new }
    ensures due { OrMemory result (checks_map (given F.told F.faults F.may_fail files.old files.new) map.now schema.now (Some source.now)) }
{
    let map = fetch(alloc, files, map, MOST_MAP, "map")?;
    let schema = fetch_schema(alloc, files, schema)?;
    let source = fetch_source(alloc, files, source)?;
    plan_checks(
        alloc,
        map.as_slice(),
        schema.as_slice(),
        Some(source.as_slice()),
    )
}

// What is due for their bytes.
fn plan_checks(
    alloc: Global,
    map: &[u8],
    schema: &[u8],
    source: Option<&[u8]>,
) -> Result<Plan, Stop>
    ensures { OrMemory result (checks_of map.now schema.now) }
{
    let tables = open_schema(alloc, schema)?;
    let map = open_map(alloc, &tables, map)?;
    let text = print_check(alloc, &map, source)?;
    Ok(text_plan(alloc, text))
}
