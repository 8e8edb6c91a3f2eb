// The parts of a fragment.
use qbs_base::{Items, Scalar, ScalarLists, Scalars, Tys};
use tor_terms::{Atoms, Elem, Formula, Formulas, Loops, Way};

/// A key of a sort: a column, and whether it goes down.
#[derive(Clone, Copy, PartialEq, Eq)]
pub struct Col {
    pub column: u32,
    pub down: bool,
}

pub type Cols = Items<Col>;

/// The list of a loop: the rows of a table, sorted stably by the keys and cut to the limit.
#[derive(Drop)]
pub struct ListDef {
    pub table: u32,
    pub keys: Cols,
    pub limit: Option<u64>,
}

pub type ListDefs = Items<ListDef>;

/// What an accumulator's loop does at each turn: append, append what isn't there yet, count, add,
/// keep the greatest or the least, or set a flag.
#[derive(Clone, Copy, Debug)]
pub enum Update {
    Push(Elem),
    PushNew(Elem),
    Tick,
    Plus(Elem),
    Best(Way, Elem),
    Mark,
}

/// A guard for each loop of a chain, and none where all turns go on.
pub type Guards = Items<Option<Formula>>;

/// An accumulator or a flag: the loops round its update, the outermost first, of which the first
/// `base` stand round its declaration; the guard of what stands in each loop; its update and what
/// it starts with; whether the source keeps the opposite; and the formulas of which its
/// postcondition may be made.
#[derive(Drop)]
pub struct Acc {
    pub chain: Loops,
    pub base: u32,
    pub guards: Guards,
    pub update: Update,
    pub start: Option<Scalar>,
    pub opposite: bool,
    pub pool: Formulas,
}

pub type Accs = Items<Acc>;

/// What a fragment is given besides a database: entry values and known lists.
#[derive(Drop)]
pub struct Entry {
    pub values: Scalars,
    pub known: ScalarLists,
}

/// Numbers of formulas in the combined pool of a fragment, strictly increasing.
pub type Candidate = Items<u32>;

/// The parts of a fragment, before anything is known of them.
#[derive(Drop)]
pub struct Parts {
    pub lists: ListDefs,
    pub atoms: Atoms,
    pub accs: Accs,
    pub entries: Tys,
    pub known: u32,
}
