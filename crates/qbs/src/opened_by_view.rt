// What commands by a view begin with: a schema, a map by it, and what is seen of a source.
ghost use Rattle.deliveries.specs.Code.{Goes};
ghost use Rattle.qbs.specs.OpenedByView.{sees_by};
ghost use Rattle.qbs.specs.SeenBy.{IsSeenBy, none_seen};

use crate::seen::{Seen, see};
use deliveries::fetch::Stop;
use plans::opening::{open_map, open_schema};
use schema::Schema;
use std::alloc::Global;
use view_map::ViewMap;

/// A schema, a map by it, and what is seen of a source by the map.
#[derive(Drop)]
pub struct SeenBy {
    pub schema: Schema,
    pub map: ViewMap,
    pub seen: Seen,
}

/// What is seen of a source by the bytes of a map and a schema, or the refusal of what one of them lacks.
pub fn see_source(
    alloc: Global,
    map: &[u8],
    schema: &[u8],
    source: &[u8],
) -> Result<Box<SeenBy>, Stop>
    ensures { Goes result (λ s. IsSeenBy map.now schema.now source.now s.value) (sees_by map.now schema.now source.now none_seen) }
{
    let tables = open_schema(alloc, schema)?;
    let map = open_map(alloc, &tables, map)?;
    let seen = see(alloc, &map, &tables, source)?;
    Ok(Box::new(
        alloc,
        SeenBy {
            schema: tables,
            map,
            seen,
        },
    )?)
}
