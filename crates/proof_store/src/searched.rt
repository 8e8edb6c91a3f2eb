// A fragment that was searched.
ghost use Rattle.std.specs.Prelude.{◌≡◌, ◌≤◌, true, map};
ghost use Rattle.kernel_lang.specs.Typed.{is_typed};
ghost use Rattle.kernel_lang.specs.Whole.{fragment_of};
ghost use Rattle.small_dbs.specs.Endings.{ending};
ghost use Rattle.small_dbs.specs.Small.{smalls as smalls_of};

use kernel_lang::KFragment;
use qbs_base::Values;
use schema::Schema;
use small_dbs::SmallDb;
use std::alloc::Global;

/// A fragment that was searched up to a size, with its eight small databases, and what it ends with on each.
#[derive(Clone, Copy)]
pub struct Searched<'a> {
    pub alloc: Global,
    pub schema: &'a Schema,
    pub frag: &'a KFragment,
    pub size: u32,
    pub smalls: &'a [SmallDb],
    pub ends: &'a [Option<Values>],
    ghost low: { size ≤ 8 },
    ghost typed: { is_typed schema.now (fragment_of frag.now) ≡ true },
    ghost own: { smalls.now ≡ smalls_of schema.now (fragment_of frag.now) },
    ghost ended: { ends.now ≡ map (ending (fragment_of frag.now)) smalls.now },
}
