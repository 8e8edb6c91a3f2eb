// The tree of a query. FROM items are numbered from 1, on through inner SELECTs, parameters from 1.
ghost use Rattle.std.specs.Prelude.{◌≡◌};
ghost use Rattle.sql_ast.specs.Reading.{query};
ghost use Rattle.sql_ast.specs.Valid.{params_in};

use qbs_base::{Items, Name, Scalar, Ty, Tys};

/// A query: a list of rows or scalars, a number, or a truth value.
#[derive(Drop)]
pub enum Query {
    Listing(ListQuery),
    Number(NumberQuery),
    Truth(TruthQuery),
}

pub type Queries = Items<Query>;

impl Query {
    /// The types of its parameters in order.
    pub fn params(&self) -> &[Ty]
        ensures { result.now ≡ params_in (query self.now) }
    {
        match self {
            Query::Listing(q) => q.params.as_slice(),
            Query::Number(q) => q.params.as_slice(),
            Query::Truth(q) => q.params.as_slice(),
        }
    }
}

/// A table in FROM, by its name and its number in the schema.
#[derive(Clone, Drop)]
pub struct FromItem {
    pub name: Name,
    pub table: u32,
}

pub type FromItems = Items<FromItem>;

/// A column of a row: `_pos`, or one of the schema's by its name and its number.
#[derive(Clone, Drop)]
pub enum SqlColumn {
    Pos,
    Named { name: Name, number: u32 },
}

/// A column of a FROM item.
#[derive(Clone, Drop)]
pub struct SqlCol {
    pub item: u32,
    pub column: SqlColumn,
}

/// What a list query takes of each combination of rows: the row of a FROM item, or a column.
#[derive(Clone, Drop)]
pub enum SqlItem {
    Whole(u32),
    Column(SqlCol),
}

/// An operand of a comparison.
#[derive(Clone, Drop)]
pub enum SqlOpnd {
    Column(SqlCol),
    Lit(Scalar),
    Param(u32),
}

/// A comparison.
#[derive(Clone, Copy, PartialEq, Eq)]
pub enum Cmp {
    Eq,
    Ne,
    Lt,
    Le,
    Gt,
    Ge,
}

/// A condition. `Exists` and `Within` have the FROM and the WHERE of an inner SELECT.
#[derive(Drop)]
pub enum Cond {
    Both(Box<Cond>, Box<Cond>),
    Either(Box<Cond>, Box<Cond>),
    Not(Box<Cond>),
    Compare(Cmp, SqlOpnd, SqlOpnd),
    /// A column of type Bool.
    Bare(SqlCol),
    Exists {
        from: FromItems,
        filter: Option<Box<Cond>>,
    },
    /// `IN`, or `NOT IN` where `negated`.
    Within {
        opnd: SqlOpnd,
        negated: bool,
        col: SqlCol,
        from: FromItems,
        filter: Option<Box<Cond>>,
    },
}

/// A key of ORDER BY. `least` is true for `MIN(col)`, whose `down` is false.
#[derive(Clone, Drop)]
pub struct SqlKey {
    pub least: bool,
    pub col: SqlCol,
    pub down: bool,
}

pub type SqlKeys = Items<SqlKey>;

/// A query for a list. `params` has the type of every parameter in order.
#[derive(Drop)]
pub struct ListQuery {
    pub item: SqlItem,
    pub from: FromItems,
    pub filter: Option<Cond>,
    pub group: Option<SqlCol>,
    pub keys: SqlKeys,
    pub limit: Option<u64>,
    pub params: Tys,
}

/// What a number query counts: combinations, or a column's sum, greatest or least value, with the
/// second argument of COALESCE.
#[derive(Clone, Drop)]
pub enum NumberKind {
    Count,
    Sum(SqlCol, i64),
    Max(SqlCol, i64),
    Min(SqlCol, i64),
}

/// A query for a number. COUNT and SUM have one FROM item.
#[derive(Drop)]
pub struct NumberQuery {
    pub kind: NumberKind,
    pub from: FromItems,
    pub filter: Option<Cond>,
    pub params: Tys,
}

/// A query for whether some combination meets the condition, or none where `negated`.
#[derive(Drop)]
pub struct TruthQuery {
    pub negated: bool,
    pub from: FromItems,
    pub filter: Option<Cond>,
    pub params: Tys,
}
