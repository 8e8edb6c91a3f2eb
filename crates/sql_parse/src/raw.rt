// What a query text says, with names and aliases as they are written.
use qbs_base::{Items, Name, Scalar};
use sql_ast::Cmp;

/// A column, with or without an alias.
#[derive(Drop)]
pub struct RawCol {
    pub alias: Option<Name>,
    pub name: Name,
}

/// A table in FROM, with or without an alias.
#[derive(Drop)]
pub struct RawPart {
    pub table: Name,
    pub alias: Option<Name>,
}

pub type RawParts = Items<RawPart>;

#[derive(Drop)]
pub enum RawOpnd {
    Column(RawCol),
    Lit(Scalar),
    Param(u32),
}

#[derive(Drop)]
pub enum RawCond {
    Both(Box<RawCond>, Box<RawCond>),
    Either(Box<RawCond>, Box<RawCond>),
    Not(Box<RawCond>),
    Compare(Cmp, RawOpnd, RawOpnd),
    Bare(RawCol),
    Exists {
        parts: RawParts,
        filter: Option<Box<RawCond>>,
    },
    Within {
        opnd: RawOpnd,
        negated: bool,
        col: RawCol,
        parts: RawParts,
        filter: Option<Box<RawCond>>,
    },
}

/// FROM and WHERE.
#[derive(Drop)]
pub struct RawSource {
    pub parts: RawParts,
    pub filter: Option<Box<RawCond>>,
}

/// `*` with or without an alias, or a column.
#[derive(Drop)]
pub enum RawItem {
    Whole(Option<Name>),
    Column(RawCol),
}

#[derive(Drop)]
pub struct RawKey {
    pub least: bool,
    pub col: RawCol,
    pub down: bool,
}

pub type RawKeys = Items<RawKey>;

#[derive(Drop)]
pub enum RawKind {
    Count,
    Sum(RawCol, i64),
    Max(RawCol, i64),
    Min(RawCol, i64),
}

#[derive(Drop)]
pub struct RawListing {
    pub item: RawItem,
    pub source: RawSource,
    pub group: Option<RawCol>,
    pub keys: RawKeys,
    pub limit: Option<u64>,
}

#[derive(Drop)]
pub struct RawNumber {
    pub kind: RawKind,
    pub source: RawSource,
}

#[derive(Drop)]
pub struct RawTruth {
    pub negated: bool,
    pub source: RawSource,
}

#[derive(Drop)]
pub enum RawQuery {
    Listing(RawListing),
    Number(RawNumber),
    Truth(RawTruth),
}
