// Entry values and known lists.
ghost use Rattle.std.specs.Prelude.{◌≡◌, ◌++◌, ◌∷◌, ◌+◌, ◌*◌, ◌≤◌, ◌<◌, ◌%◌, ◌^◌, [], IfOk, OnOk, length};
ghost use Rattle.kernel_lang.specs.Whole.{fragment_of};
ghost use Rattle.small_dbs.specs.Chosen as spec;
ghost use Rattle.small_dbs.specs.Held.{held};

use crate::cells::{of_type, push_value};
use crate::choice::Values;
use crate::fitting::operand_type;
use kernel_lang::KFragment;
use qbs_base::{Items, NoMemory, Scalar, ScalarLists, Scalars, Table, Ty};
use std::alloc::Global;
use tor_terms::Atom;

/// Pushes values of types, each two places behind the last.
pub fn push_entries(
    alloc: Global,
    values: &Values,
    k: usize,
    types: &[Ty],
    all: &mut Scalars,
) -> Result<(), NoMemory>
    requires { k + 2 * length types.now ≤ 1000 }
    ensures { OnOk result (all.new ≡ all.old ++ spec.entries (held values.now) k types.now) }
{
    match types.split_first() {
        None => Ok(()),
        Some((ty, rest)) => {
            push_value(alloc, of_type(values, *ty), k, &mut *all)?;
            push_entries(alloc, values, k + 2, rest, all)
        }
    }
}

fn type_or_long(ty: Option<Ty>) -> Ty
    ensures { result ≡ spec.type_or_long ty }
{
    match ty {
        Some(ty) => ty,
        None => Ty::Long,
    }
}

// The type of what is looked up in a known list.
fn member_type(tables: &[Table], frag: &KFragment, q: u32, atoms: &[Atom]) -> Ty
    ensures { result ≡ spec.member_type tables.now (fragment_of frag.now) q atoms.now }
{
    match atoms.split_first() {
        None => Ty::Long,
        Some((atom, rest)) => match atom {
            Atom::Member(a, k) => {
                if *k == q {
                    type_or_long(operand_type(tables, frag, a))
                } else {
                    member_type(tables, frag, q, rest)
                }
            }
            _ => member_type(tables, frag, q, rest),
        },
    }
}

fn push_members(
    alloc: Global,
    values: &[Scalar],
    k: usize,
    count: usize,
    all: &mut Scalars,
) -> Result<(), NoMemory>
    requires { k + count < 2 ^ 33 }
    ensures { OnOk result (all.new ≡ all.old ++ spec.members values.now k count) }
{
    if count == 0 {
        return Ok(());
    }
    push_value(alloc, values, k, &mut *all)?;
    push_members(alloc, values, k + 1, count - 1, all)
}

fn push_known(
    alloc: Global,
    tables: &[Table],
    frag: &KFragment,
    values: &Values,
    d: usize,
    q: u32,
    all: &mut ScalarLists,
) -> Result<(), NoMemory>
    requires { d < 8 }
    ensures { OnOk result (all.new ≡ all.old ++ spec.members (held values.now (spec.member_type tables.now (fragment_of frag.now) q (fragment_of frag.now).atoms)) (d + q) (d % 3) ∷ []) }
{
    let ty = member_type(tables, frag, q, frag.atoms.as_slice());
    let mut members = Items::new(alloc);
    push_members(
        alloc,
        of_type(values, ty),
        d + q as usize,
        d % 3,
        &mut members,
    )?;
    all.push(members)
}

/// The known lists of a small database.
pub fn known_lists(
    alloc: Global,
    tables: &[Table],
    frag: &KFragment,
    values: &Values,
    d: usize,
) -> Result<ScalarLists, NoMemory>
    requires { d < 8 }
    ensures { IfOk result (λ all. all ≡ spec.known tables.now (fragment_of frag.now) (held values.now) d 0 frag.now.known) }
{
    let mut all = Items::new(alloc);
    for q in 0..frag.known {
        push_known(alloc, tables, frag, values, d, q, &mut all)?;
    }
    Ok(all)
}
