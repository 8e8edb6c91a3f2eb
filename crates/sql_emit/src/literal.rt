// Atoms as conditions.
ghost use Rattle.std.specs.Prelude.{◌≡◌, IfOk, Some, slice_get};
ghost use Rattle.sql_ast.specs.Reading.{condition, query};
ghost use Rattle.tor_terms.specs.Plain.{form_of};
ghost use Rattle.sql_parts.specs.Emitted as spec;
ghost use Rattle.sql_parts.specs.Reading.{ground_of, scope_of, IsSmall};

use qbs_base::NoMemory;
use sql_ast::{Cond, ListQuery, Query};
use sql_build::conditions::{both, either, membership};
use sql_build::scope::Scope;
use sql_parts::comparisons::{compared, fixed, less, same_test, side, signed, truth};
use sql_parts::ground::{Ground, count};
use sql_parts::within::{item_col, moved_col, moved_filter};
use std::alloc::Global;
use tor_terms::{Atom, Formula, Operand};

fn within_listing(
    alloc: Global,
    g: Ground,
    s: Scope,
    a: &Operand,
    args: &[u64],
    q: &ListQuery,
    holds: bool,
) -> Result<Box<Cond>, NoMemory>
    requires { IsSmall s }
    ensures { IfOk result (λ c. condition c.value ≡ spec.within_query (ground_of g.entry) (scope_of s.entry) a.now args.now (Some (query (Query.Listing q.now))) holds) }
{
    let opnd = side(alloc, g, s, a)?;
    let col = moved_col(count(s), &item_col(&q.item)?)?;
    let from = q.from.clone()?;
    let filter = moved_filter(alloc, count(s), args, &q.filter)?;
    membership(alloc, opnd, holds, col, from, filter)
}

/// The operand is in the list of a known query.
#[tactic(auto, using(sql_parts::proofs::Also::get_mapped))]
fn member(
    alloc: Global,
    g: Ground,
    s: Scope,
    a: &Operand,
    number: u32,
    holds: bool,
) -> Result<Box<Cond>, NoMemory>
    requires { IsSmall s }
    ensures { IfOk result (λ c.
        condition c.value
        ≡ spec.within_query (ground_of g.entry) (scope_of s.entry) a.now (spec.args_of (slice_get g.entry.args.now number)) (slice_get (ground_of g.entry).known number) holds) }
{
    let args: &[u64] = match g.args.get(number as usize) {
        Some(args) => args.as_slice(),
        None => &[],
    };
    match g.known.get(number as usize) {
        Some(Query::Listing(q)) => within_listing(alloc, g, s, a, args, q, holds),
        Some(_) => fixed(alloc, !holds),
        None => fixed(alloc, !holds),
    }
}

/// An atom where no flag is read.
pub fn quiet_atom(
    alloc: Global,
    g: Ground,
    s: Scope,
    atom: &Atom,
    holds: bool,
) -> Result<Box<Cond>, NoMemory>
    requires { IsSmall s }
    ensures { IfOk result (λ c. condition c.value ≡ spec.literal spec.no_flag (ground_of g.entry) (scope_of s.entry) (Some atom.now) holds) }
{
    match atom {
        Atom::Less(a, b) => less(alloc, g, s, a, b, holds),
        Atom::Same(a, b) => compared(alloc, g, s, same_test(holds), a, b),
        Atom::Truth(a) => truth(alloc, g, s, a, holds),
        Atom::Member(a, number) => member(alloc, g, s, a, *number, holds),
        Atom::Flag(_, _) => {
            let c = fixed(alloc, false)?;
            signed(alloc, holds, c)
        }
    }
}

/// An atom by its number, where no flag is read.
fn quiet_literal(
    alloc: Global,
    g: Ground,
    s: Scope,
    k: u32,
    holds: bool,
) -> Result<Box<Cond>, NoMemory>
    requires { IsSmall s }
    ensures { IfOk result (λ c. condition c.value ≡ spec.literal spec.no_flag (ground_of g.entry) (scope_of s.entry) (slice_get g.entry.atoms.now k) holds) }
{
    match g.atoms.get(k as usize) {
        Some(atom) => quiet_atom(alloc, g, s, atom, holds),
        None => fixed(alloc, !holds),
    }
}

/// A formula that reads no flag.
pub fn quiet_formula(alloc: Global, g: Ground, s: Scope, f: &Formula) -> Result<Box<Cond>, NoMemory>
    requires { IsSmall s }
    ensures { IfOk result (λ c. condition c.value ≡ spec.formula spec.no_flag (ground_of g.entry) (scope_of s.entry) (form_of f.now)) }
{
    match f {
        Formula::Is(k, holds) => quiet_literal(alloc, g, s, *k, *holds),
        Formula::Both(a, b) => {
            let a = quiet_formula(alloc, g, s, a)?;
            let b = quiet_formula(alloc, g, s, b)?;
            both(alloc, a, b)
        }
        Formula::Either(a, b) => {
            let a = quiet_formula(alloc, g, s, a)?;
            let b = quiet_formula(alloc, g, s, b)?;
            either(alloc, a, b)
        }
    }
}
