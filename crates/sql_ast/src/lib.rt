//! Queries as trees, with their grammar and their canonical text as definitions; and FROM items in sight, found by their aliases.
#![tactic(auto)]

mod complete;
mod known;
pub mod laws;
mod limit;
mod places;
mod quoted;
mod rule;
mod sight;
mod tree;

pub use complete::{is_grouped, order_complete};
pub use known::Known;
pub use limit::limit_within;
pub use places::Places;
pub use quoted::put_doubled;
pub use rule::SqlRule;
pub use sight::Sight;
pub use tree::{
    Cmp, Cond, FromItem, FromItems, ListQuery, NumberKind, NumberQuery, Queries, Query, SqlCol,
    SqlColumn, SqlItem, SqlKey, SqlKeys, SqlOpnd, TruthQuery,
};
