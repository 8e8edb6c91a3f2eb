// The machine on which a method runs.
use crate::held::Held;
use crate::store::Store;
use qbs_base::Texts;

/// What the lines that a run prints may take, 64 MiB: each its bytes and eight more. A run that prints more wants memory, long before there
/// is none: all that it prints is kept to its end.
pub const MOST_PRINTED: u64 = 67_108_864;

/// The variables, the printed lines, what more lines may take, the turns that are left, and what the method returned.
#[derive(Drop)]
pub struct Machine<'a> {
    pub store: Store<'a>,
    pub lines: Texts,
    pub room: u64,
    pub turns: u64,
    pub returned: Option<Held<'a>>,
}
