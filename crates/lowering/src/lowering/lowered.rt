// What is given for a loop of the kernel form.

use java_ast::Exprs;
use kernel_lang::KFragment;
use qbs_base::{Names, NumberLists, Numbers};
use sql_ast::Queries;

/// A loop of the kernel form: its lowered fragment; the source variable of each accumulator and flag; the
/// expression of each entry value by its number; the queries of the known lists, and for each the entry numbers of its
/// arguments; the number in its block of the first statement of the run, or of the loop where the run is empty; and the
/// numbers of the statements of the run that a rewrite keeps.
#[derive(Drop)]
pub struct Lowered {
    pub frag: KFragment,
    pub names: Names,
    pub entries: Exprs,
    pub known: Queries,
    pub known_args: NumberLists,
    pub first: u64,
    pub kept: Numbers,
}
