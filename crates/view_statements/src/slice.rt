// Slices: sequences of statements of a block that are seen as methods.
use crate::Statement;
use qbs_base::{Bytes, Items};
use view_map::ScalarKind;
use view_rules::{ClassConstant, JavaType, Param, Sighted};
use view_shapes::{Method, Stretch};

/// A variable that is printed at the end of what is seen.
#[derive(Drop)]
pub struct Printed {
    pub name: Bytes,
    pub java: JavaType,
}

/// The last two statements of a block that return whether something is found: the for-each, in which `return` of the truth value stands, and the
/// `return` of the other one behind it. They are seen as a variable that is set.
#[derive(Drop)]
pub struct Group {
    pub variable: Bytes,
    pub value: bool,
    pub walk: Statement,
}

/// What stands behind the statements of a slice.
#[derive(Drop)]
pub enum Ending {
    Open,
    Grouped(Group),
    /// `return x;` of a truth value of the slice's own, as it stands behind a group that gave way.
    Returned(Bytes),
}

/// What may be read in the method round a slice: by their numbers in the map classes, fetch patterns, templates and constants; the constants
/// of the class; and names of classes that nothing obscures.
#[derive(Drop)]
pub struct Words {
    pub classes: Items<u32>,
    pub fetches: Items<u32>,
    pub templates: Items<u32>,
    pub map_constants: Items<u32>,
    pub constants: Items<ClassConstant>,
    pub clear: Items<Bytes>,
}

/// A slice: the items of its statements and of its block; the variables in sight before it, with the item of each one's name where it is
/// declared; its parameters and the type of each; names from outside that may be null; whether `get` is read; what is printed, and the
/// name of what goes through a list there; how its statements are seen; and what stands behind them.
#[derive(Drop)]
pub struct Slice {
    pub from: usize,
    pub to: usize,
    pub block: Stretch,
    pub outside: Items<Sighted>,
    pub declared: Items<usize>,
    pub params: Items<Param>,
    pub kinds: Items<ScalarKind>,
    pub tested: Items<Bytes>,
    pub gets: bool,
    pub prints: Items<Printed>,
    pub each: Bytes,
    pub statements: Items<Statement>,
    pub ending: Ending,
}

/// A method, and what may be read in it.
#[derive(Drop)]
pub struct Read {
    pub method: Method,
    pub words: Words,
}

/// A method, and its slices in text order.
#[derive(Drop)]
pub struct Sliced {
    pub read: Read,
    pub slices: Items<Slice>,
}
