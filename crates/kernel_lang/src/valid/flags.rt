// Flags, and where they are read.
ghost use Rattle.std.specs.Prelude.{◌≡◌, ◌+◌, ◌<◌, ◌^◌, length, map, slice_get, take};
ghost use Rattle.std.specs.List.{list_all};
ghost use Rattle.std.specs.Option.{option_copied, option_map};
ghost use Rattle.kernel_lang.specs.Parts.{parts_of};
ghost use Rattle.kernel_lang.specs.Plain.{accumulator, guard_of};
ghost use Rattle.kernel_lang.specs.Validity as spec;
ghost use Rattle.tor_terms.specs.Plain.{form_of, forms_of};
ghost use Rattle.tor_terms.specs.Same as same;

use super::starts::is_mark;
use crate::parts::{Acc, Parts};
use tor_terms::{Atom, Formula, first_loops, same_formula, same_numbers};

// The accumulator with that number.
#[tactic(auto, using(crate::proofs::Mapped::mapped))]
fn accumulator_at(accs: &[Acc], k: u32) -> Option<&Acc>
    ensures { option_map accumulator (option_copied result) ≡ slice_get (map accumulator accs.now) k }
{
    accs.get(k as usize)
}

fn is_flag(accs: &[Acc], k: u32, loops: &[u32]) -> bool
    ensures { result ≡ spec.is_flag loops.now (slice_get (map accumulator accs.now) k) }
{
    match accumulator_at(accs, k) {
        None => false,
        Some(a) => {
            is_mark(a.update)
                && 0 < a.base
                && same_numbers(loops, first_loops(a.chain.as_slice(), a.base as usize))
        }
    }
}

fn names_a_flag(p: &Parts, atom: &Atom) -> bool
    ensures { result ≡ spec.names_a_flag (parts_of p.now) atom.now }
{
    match atom {
        Atom::Flag(k, loops) => is_flag(p.accs.as_slice(), *k, loops.as_slice()),
        _ => true,
    }
}

/// Whether each flag that is read is declared inside the loops at which it is read.
#[tactic(auto, unfolding(crate::specs::Validity::flags_are_flags))]
pub fn flags_are_flags(p: &Parts) -> bool
    ensures { result ≡ spec.flags_are_flags (parts_of p.now) }
{
    p.atoms.as_slice().iter().all(|atom| names_a_flag(p, atom))
}

fn is_no_flag(atoms: &[Atom], k: u32) -> bool
    ensures { result ≡ spec.is_no_flag (slice_get atoms.now k) }
{
    match atoms.get(k as usize) {
        Some(Atom::Flag(_, _)) => false,
        _ => true,
    }
}

/// Whether a formula reads no flag.
pub fn reads_no_flag(atoms: &[Atom], f: &Formula) -> bool
    ensures { result ≡ spec.reads_no_flag atoms.now (form_of f.now) }
{
    match f {
        Formula::Is(k, _) => is_no_flag(atoms, *k),
        Formula::Both(f, g) => reads_no_flag(atoms, f) && reads_no_flag(atoms, g),
        Formula::Either(f, g) => reads_no_flag(atoms, f) && reads_no_flag(atoms, g),
    }
}

fn guard_is_quiet(atoms: &[Atom], guard: &Option<Formula>) -> bool
    ensures { result ≡ spec.guard_all (spec.reads_no_flag atoms.now) (guard_of guard.now) }
{
    match guard {
        None => true,
        Some(f) => reads_no_flag(atoms, f),
    }
}

fn guards_are_quiet(atoms: &[Atom], guards: &[Option<Formula>]) -> bool
    ensures { result ≡ list_all (spec.guard_all (spec.reads_no_flag atoms.now)) (map guard_of guards.now) }
{
    match guards.split_first() {
        None => true,
        Some((g, rest)) => guard_is_quiet(atoms, g) && guards_are_quiet(atoms, rest),
    }
}

fn pool_is_quiet(atoms: &[Atom], pool: &[Formula]) -> bool
    ensures { result ≡ list_all (spec.reads_no_flag atoms.now) (forms_of pool.now) }
{
    match pool.split_first() {
        None => true,
        Some((f, rest)) => reads_no_flag(atoms, f) && pool_is_quiet(atoms, rest),
    }
}

/// Whether an accumulator that is declared inside a loop reads no flag.
#[tactic(auto, unfolding(crate::specs::Validity::flag_is_quiet))]
pub fn flag_is_quiet(p: &Parts, a: &Acc) -> bool
    ensures { result ≡ spec.flag_is_quiet p.now.atoms (accumulator a.now) }
{
    let atoms = p.atoms.as_slice();
    a.base == 0
        || (guards_are_quiet(atoms, a.guards.as_slice()) && pool_is_quiet(atoms, a.pool.as_slice()))
}

// Whether f is q, or stands down the left parts of q.
fn on_spine(q: &Formula, f: &Formula) -> bool
    ensures { result ≡ spec.on_spine (form_of f.now) (form_of q.now) }
{
    match q {
        Formula::Is(_, _) => same_formula(f, q),
        Formula::Both(left, _) => same_formula(f, q) || on_spine(left, f),
        Formula::Either(_, _) => same_formula(f, q),
    }
}

// The guard of a level.
#[tactic(auto, using(crate::proofs::Mapped::mapped))]
fn guard_at(guards: &[Option<Formula>], n: usize) -> Option<&Option<Formula>>
    ensures { option_map guard_of (option_copied result) ≡ slice_get (map guard_of guards.now) n }
{
    guards.get(n)
}

fn guard_on_spine(guards: &[Option<Formula>], n: usize, q: &Formula) -> bool
    ensures { result ≡ spec.guard_on_spine (slice_get (map guard_of guards.now) n) (form_of q.now) }
{
    match guard_at(guards, n) {
        None => true,
        Some(None) => true,
        Some(Some(f)) => on_spine(q, f),
    }
}

fn same_guard(a: &Option<Formula>, b: &Option<Formula>) -> bool
    ensures { result ≡ spec.same_guard (guard_of a.now) (guard_of b.now) }
{
    match (a, b) {
        (None, None) => true,
        (Some(f), Some(g)) => same_formula(f, g),
        _ => false,
    }
}

fn same_guards(a: &[Option<Formula>], b: &[Option<Formula>]) -> bool
    ensures { result ≡ spec.same_guards (map guard_of a.now) (map guard_of b.now) }
{
    match (a.split_first(), b.split_first()) {
        (None, None) => true,
        (Some((g, rest)), Some((h, others))) => same_guard(g, h) && same_guards(rest, others),
        _ => false,
    }
}

/// The guards before a level.
#[tactic(auto, using(crate::proofs::Mapped::mapped))]
pub fn first_guards(guards: &[Option<Formula>], n: usize) -> &[Option<Formula>]
    ensures { map guard_of result.now ≡ take n (map guard_of guards.now) }
{
    if n < guards.len() {
        &guards[..n]
    } else {
        guards
    }
}

fn flag_may_be_read(accs: &[Acc], k: u32, a: &Acc, n: usize, q: &Formula) -> bool
    requires { n < 2 ^ 63 }
    ensures { result ≡ spec.flag_may_be_read (accumulator a.now) n (form_of q.now) (slice_get (map accumulator accs.now) k) }
{
    match accumulator_at(accs, k) {
        None => false,
        Some(b) => {
            b.base as usize == n + 1
                && same_numbers(
                    first_loops(a.chain.as_slice(), n + 1),
                    first_loops(b.chain.as_slice(), n + 1),
                )
                && same_guards(
                    first_guards(a.guards.as_slice(), n),
                    first_guards(b.guards.as_slice(), n),
                )
                && guard_on_spine(b.guards.as_slice(), n, q)
        }
    }
}

fn atom_may_be_read(p: &Parts, k: u32, a: &Acc, n: usize, q: &Formula) -> bool
    requires { n < 2 ^ 63 }
    ensures { result ≡ spec.atom_may_be_read (parts_of p.now) (accumulator a.now) n (form_of q.now) (slice_get p.now.atoms k) }
{
    match p.atoms.as_slice().get(k as usize) {
        Some(Atom::Flag(flag, _)) => flag_may_be_read(p.accs.as_slice(), *flag, a, n, q),
        _ => true,
    }
}

fn part_may_be_read(part: &Formula, p: &Parts, a: &Acc, n: usize, q: &Formula) -> bool
    requires { n < 2 ^ 63 }
    ensures { result ≡ spec.part_may_be_read (parts_of p.now) (accumulator a.now) n (form_of q.now) (form_of part.now) }
{
    match part {
        Formula::Is(k, _) => atom_may_be_read(p, *k, a, n, q),
        Formula::Both(f, g) => part_may_be_read(f, p, a, n, q) && part_may_be_read(g, p, a, n, q),
        Formula::Either(f, g) => {
            part_may_be_read(f, p, a, n, q) && part_may_be_read(g, p, a, n, q)
        }
    }
}

fn guard_may_be_read(p: &Parts, a: &Acc, n: usize, guard: &Option<Formula>) -> bool
    requires { n < 2 ^ 63 }
    ensures { result ≡ spec.guard_may_be_read (parts_of p.now) (accumulator a.now) n (guard_of guard.now) }
{
    match guard {
        None => true,
        Some(q) => part_may_be_read(q, p, a, n, q),
    }
}

fn guards_may_be_read(p: &Parts, a: &Acc, n: usize, guards: &[Option<Formula>]) -> bool
    requires { n + length guards.now < 2 ^ 63 }
    ensures { result ≡ spec.guards_may_be_read (parts_of p.now) (accumulator a.now) n (map guard_of guards.now) }
{
    match guards.split_first() {
        None => true,
        Some((g, rest)) => guard_may_be_read(p, a, n, g) && guards_may_be_read(p, a, n + 1, rest),
    }
}

/// Whether the guards read flags only at the level of their declaration, behind their own guards.
#[tactic(auto, unfolding(crate::specs::Validity::reads_flags_in_place))]
pub fn reads_flags_in_place(p: &Parts, a: &Acc) -> bool
    requires { length a.now.guards < 2 ^ 63 }
    ensures { result ≡ spec.reads_flags_in_place (parts_of p.now) (accumulator a.now) }
{
    guards_may_be_read(p, a, 0, a.guards.as_slice())
}
