// The truth of atoms and formulas at a tuple, and whether their atoms and loops are there.
ghost use Rattle.std.specs.Prelude.{◌≡◌, option_copied, get_or, map, []};
ghost use Rattle.tor_terms.specs.Plain.{form_of, forms_of};
ghost use Rattle.tor_terms.specs.Truth as spec;
ghost use Rattle.tor_terms.specs.Value as values;
ghost use Rattle.tor_terms.specs.Worlds as worlds;
ghost use Rattle.tor_terms.specs.Evaluation as found;

use crate::eval_rows::{cell_at, row_at};
use qbs_base::{Row, Scalar};
use tor_terms::{
    Atom, Env, FlagTable, Formula, Operand, both_less, both_same, is_member, is_no_cell, is_true,
    same_bool, same_operand, same_row,
};

fn operand_at<'a>(env: &'a Env, tuple: &'a [(u32, Row)], a: &'a Operand) -> Option<&'a Scalar>
    ensures { option_copied result ≡ spec.operand_at (worlds.world_of env.now) (spec.row_at (worlds.world_of env.now).current tuple.now) a.now }
{
    match a {
        Operand::Field(j, c) => cell_at(env, tuple, *j, *c),
        Operand::Entry(k) => env.entries.as_slice().get(*k as usize),
        Operand::Lit(x) => Some(x),
    }
}

fn known_list(env: &Env, k: u32) -> &[Scalar]
    ensures { result.now ≡ get_or env.now.known k [] }
{
    match env.known.as_slice().get(k as usize) {
        Some(list) => list.as_slice(),
        None => &[],
    }
}

// Whether a row is the row of a loop.
fn is_row_at(env: &Env, tuple: &[(u32, Row)], j: u32, row: &Row) -> bool
    ensures { result ≡ values.same_row row.now (spec.row_at (worlds.world_of env.now).current tuple.now j) }
{
    match row_at(env, tuple, j) {
        Some(own) => same_row(row, own),
        None => is_no_cell(row),
    }
}

// Whether a choice of rows is that of these loops.
fn is_choice(env: &Env, tuple: &[(u32, Row)], choice: &[Row], loops: &[u32]) -> bool
    ensures { result ≡ worlds.same_rows choice.now (map (spec.row_at (worlds.world_of env.now).current tuple.now) loops.now) }
{
    let mut rest = choice;
    for j in loops {
        match rest.split_first() {
            Some((row, others)) => {
                if !is_row_at(env, tuple, *j, row) {
                    return false;
                }
                rest = others;
            }
            None => return false,
        }
    }
    rest.is_empty()
}

// The truth at the first place of the choice of rows that is that of these loops.
fn listed_truth(env: &Env, tuple: &[(u32, Row)], table: &FlagTable, loops: &[u32]) -> bool
    ensures { result ≡ worlds.listed_truth table.now.rows table.now.truths (map (spec.row_at (worlds.world_of env.now).current tuple.now) loops.now) }
{
    let mut truths = table.truths.as_slice();
    for choice in table.rows.as_slice() {
        match truths.split_first() {
            Some((truth, others)) => {
                if is_choice(env, tuple, choice.as_slice(), loops) {
                    return *truth;
                }
                truths = others;
            }
            None => return false,
        }
    }
    false
}

fn flag_holds(env: &Env, tuple: &[(u32, Row)], k: u32, loops: &[u32]) -> bool
    ensures { result ≡ (worlds.world_of env.now).flags k (map (spec.row_at (worlds.world_of env.now).current tuple.now) loops.now) }
{
    match env.flags.as_slice().get(k as usize) {
        Some(table) => listed_truth(env, tuple, table, loops),
        None => false,
    }
}

fn atom_holds(env: &Env, tuple: &[(u32, Row)], a: &Atom) -> bool
    ensures { result ≡ spec.atom_holds (worlds.world_of env.now) (spec.row_at (worlds.world_of env.now).current tuple.now) a.now }
{
    match a {
        Atom::Less(x, y) => both_less(operand_at(env, tuple, x), operand_at(env, tuple, y)),
        Atom::Same(x, y) => {
            same_operand(x, y) || both_same(operand_at(env, tuple, x), operand_at(env, tuple, y))
        }
        Atom::Truth(x) => is_true(operand_at(env, tuple, x)),
        Atom::Member(x, k) => is_member(operand_at(env, tuple, x), known_list(env, *k)),
        Atom::Flag(k, loops) => flag_holds(env, tuple, *k, loops.as_slice()),
    }
}

// The truth of an atom by its number. One that isn't there is false.
fn truth(env: &Env, atoms: &[Atom], tuple: &[(u32, Row)], k: u32) -> bool
    ensures { result ≡ spec.truth (worlds.world_of env.now) atoms.now (spec.row_at (worlds.world_of env.now).current tuple.now) k }
{
    match atoms.get(k as usize) {
        Some(a) => atom_holds(env, tuple, a),
        None => false,
    }
}

fn holds(env: &Env, atoms: &[Atom], tuple: &[(u32, Row)], f: &Formula) -> bool
    ensures { result ≡ spec.holds (worlds.world_of env.now) atoms.now (spec.row_at (worlds.world_of env.now).current tuple.now) (form_of f.now) }
{
    match f {
        Formula::Is(k, s) => same_bool(truth(env, atoms, tuple, *k), *s),
        Formula::Both(g, h) => holds(env, atoms, tuple, g) && holds(env, atoms, tuple, h),
        Formula::Either(g, h) => holds(env, atoms, tuple, g) || holds(env, atoms, tuple, h),
    }
}

/// Whether all formulas hold at a tuple.
pub fn all_hold(env: &Env, atoms: &[Atom], fs: &[Formula], tuple: &[(u32, Row)]) -> bool
    ensures { result ≡ found.selects env.now atoms.now (forms_of fs.now) tuple.now }
{
    for f in fs {
        if !holds(env, atoms, tuple, f) {
            return false;
        }
    }
    true
}
