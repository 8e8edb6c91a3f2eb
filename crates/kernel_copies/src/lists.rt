// The lists of loops: whether two are one, and copies.
ghost use Rattle.std.specs.Prelude.{◌≡◌, IfOk};
ghost use Rattle.kernel_copies.specs.Same as spec;

use kernel_lang::{Col, Cols, ListDef, ListDefs};
use qbs_base::{Items, NoMemory, Ty, Tys, same_ty};
use std::alloc::Global;
use tor_terms::same_flag;

fn same_key(a: Col, b: Col) -> bool
    ensures { result ≡ spec.same_key a b }
{
    a.column == b.column && same_flag(a.down, b.down)
}

fn same_keys(a: &[Col], b: &[Col]) -> bool
    ensures { result ≡ spec.same_all spec.same_key a.now b.now }
{
    match (a.split_first(), b.split_first()) {
        (None, None) => true,
        (Some((x, rest)), Some((y, others))) => same_key(*x, *y) && same_keys(rest, others),
        _ => false,
    }
}

fn same_limit(a: Option<u64>, b: Option<u64>) -> bool
    ensures { result ≡ spec.same_limit a b }
{
    match (a, b) {
        (None, None) => true,
        (Some(m), Some(n)) => m == n,
        _ => false,
    }
}

fn same_list(a: &ListDef, b: &ListDef) -> bool
    ensures { result ≡ spec.same_list a.now b.now }
{
    a.table == b.table
        && same_limit(a.limit, b.limit)
        && same_keys(a.keys.as_slice(), b.keys.as_slice())
}

/// Whether the lists of loops are one.
pub fn same_lists(a: &[ListDef], b: &[ListDef]) -> bool
    ensures { result ≡ spec.same_all spec.same_list a.now b.now }
{
    match (a.split_first(), b.split_first()) {
        (None, None) => true,
        (Some((x, rest)), Some((y, others))) => same_list(x, y) && same_lists(rest, others),
        _ => false,
    }
}

/// Whether the types of entry values are one.
pub fn same_types(a: &[Ty], b: &[Ty]) -> bool
    ensures { result ≡ spec.same_types a.now b.now }
{
    match (a.split_first(), b.split_first()) {
        (None, None) => true,
        (Some((x, rest)), Some((y, others))) => same_ty(*x, *y) && same_types(rest, others),
        _ => false,
    }
}

fn copy_keys(alloc: Global, keys: &[Col]) -> Result<Cols, NoMemory>
    ensures { IfOk result (λ copies. copies ≡ keys.now) }
{
    Ok(Items::from_vec(keys.to_vec(alloc)?))
}

fn copy_list(alloc: Global, list: &ListDef) -> Result<ListDef, NoMemory>
    ensures { IfOk result (λ copy. copy ≡ list.now) }
{
    Ok(ListDef {
        table: list.table,
        keys: copy_keys(alloc, list.keys.as_slice())?,
        limit: list.limit,
    })
}

/// A copy of the lists of loops.
pub fn copy_lists(alloc: Global, lists: &[ListDef]) -> Result<ListDefs, NoMemory>
    ensures { IfOk result (λ copies. copies ≡ lists.now) }
{
    let mut copies = Items::new(alloc);
    for list in lists {
        copies.push(copy_list(alloc, list)?)?;
    }
    Ok(copies)
}

/// A copy of the types of entry values.
pub fn copy_types(alloc: Global, types: &[Ty]) -> Result<Tys, NoMemory>
    ensures { IfOk result (λ copies. copies ≡ types.now) }
{
    Ok(Items::from_vec(types.to_vec(alloc)?))
}
