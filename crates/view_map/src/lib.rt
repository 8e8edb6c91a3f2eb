//! The map by which the classes of a Java file are seen as the tables of a schema: what it holds, its text, and its first fault.
#![tactic(auto)]

mod constants;
mod draft;
mod fault;
mod fetches;
mod keys;
pub mod laws;
mod maps;
mod model;
mod patterns;
mod reading;
mod tables;
mod templates;
mod words;

pub use fault::{MapFault, MapRule};
pub use maps::parse_map;
pub use model::{
    Constant, FetchPattern, Literal, Member, Part, PatternItem, QueryKind, RowClass, ScalarKind,
    ScalarType, Template, ViewMap,
};
