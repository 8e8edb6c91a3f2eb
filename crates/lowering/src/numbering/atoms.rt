// The atoms of conditions.
ghost use Rattle.std.specs.Prelude.{◌≡◌, ◌≤◌, IfOk, OnOk, [], length, map, slice_get};
ghost use Rattle.std.specs.List.{list_any};
ghost use Rattle.std.specs.Option.{option_map};
ghost use Rattle.java_ast.specs.Reading.{expression, statement};
ghost use Rattle.lowering.specs.InCode.Numbered.{leaf_in_code, reading_in_code};
ghost use Rattle.java_loops.specs.Lowering.Numbering as specs;
ghost use Rattle.loop_text.specs.Sites.Reading.{exprs_lent};
ghost use Rattle.java_ast.specs.Names.{names_lent};
ghost use Rattle.lowering.specs.InCode.Reading.{setting_in_code};
ghost use Rattle.lowering.specs.InCode.Tallied.{AreCountsOf};
ghost use Rattle.java_loops.specs.Lowering.UpTo.{AreFew, IsUpTo};

use crate::numbering::counts::{Counts, flag_number, loop_number};
use crate::numbering::leaves::Leaf;
use crate::numbering::named_values::{entry_number, known_number};
use crate::numbering::numbers::column_of;
use java_ast::{Expr, ExprNode, Op, Stmt, StmtNode};
use loop_setting::places::setting::Setting;
use loop_text::sites::bindings::{Binding, binding_at, row_column_at};
use loop_text::updates::starts::is_truth_of;
use qbs_base::{Items, Name, NoMemory};
use std::alloc::Global;
use tor_terms::{Atom, Atoms, Loops, Operand, same_numbers, same_operand, scalar_before};

/// An atom, and the truth of it that a leaf says.
#[derive(Drop)]
pub struct Reading {
    pub atom: Atom,
    pub holds: bool,
}

// No fragment has more atoms.
const MOST_ATOMS: usize = 24;

// ---- Operands

fn operand_of_literal(entries: &[&Expr], e: &Expr) -> Result<Operand, NoMemory>
    requires few { length entries.now ≤ 9 }
    ensures { IfOk result (λ o. o ≡ specs.operand_of_literal (exprs_lent entries.now) (expression e.now)) }
{
    match &e.node {
        ExprNode::Lit(value) => Ok(Operand::Lit(value.clone()?)),
        _ => Ok(Operand::Entry(entry_number(entries, e))),
    }
}

fn operand_of(
    w: &Setting,
    c: &Counts,
    entries: &[&Expr],
    n: usize,
    e: &Expr,
) -> Result<Operand, NoMemory>
    requires counted { AreCountsOf (setting_in_code w.now) c.now }
    requires few { length entries.now ≤ 9 }
    ensures { IfOk result (λ o. o ≡ specs.operand_of (setting_in_code w.now) (exprs_lent entries.now) n (expression e.now)) }
{
    match row_column_at(w.sites, n, e) {
        Some(column) => {
            let looped = loop_number(w, c, column.looped);
            Ok(Operand::Field(looped, column_of(w, column)))
        }
        None => operand_of_literal(entries, e),
    }
}

// Fields stand before entries, and those before literals.
fn operand_before(a: &Operand, b: &Operand) -> bool
    ensures { result ≡ specs.operand_before a.now b.now }
{
    match (a, b) {
        (Operand::Field(j, c), Operand::Field(k, d)) => *j < *k || (*j == *k && *c < *d),
        (Operand::Field(_, _), Operand::Entry(_)) => true,
        (Operand::Field(_, _), Operand::Lit(_)) => true,
        (Operand::Entry(j), Operand::Entry(k)) => *j < *k,
        (Operand::Entry(_), Operand::Lit(_)) => true,
        (Operand::Lit(x), Operand::Lit(y)) => scalar_before(x, y),
        _ => false,
    }
}

// ---- Comparisons

fn same_of(a: Operand, b: Operand) -> Atom
    ensures { result ≡ specs.same_of a b }
{
    if operand_before(&b, &a) {
        return Atom::Same(b, a);
    }
    Atom::Same(a, b)
}

fn read_as(atom: Atom, holds: bool) -> Reading
    ensures { reading_in_code result ≡ specs.reading atom holds }
{
    Reading { atom, holds }
}

// `a > b` is `b < a`, `a <= b` is that `b < a` fails, `a != b` that they are the same fails.
fn compared(op: Op, a: Operand, b: Operand) -> Reading
    ensures { reading_in_code result ≡ specs.compared op a b }
{
    match op {
        Op::Lt => read_as(Atom::Less(a, b), true),
        Op::Gt => read_as(Atom::Less(b, a), true),
        Op::Le => read_as(Atom::Less(b, a), false),
        Op::Ge => read_as(Atom::Less(a, b), false),
        Op::Ne => read_as(same_of(a, b), false),
        _ => read_as(same_of(a, b), true),
    }
}

// ---- Flags

fn starts_true(s: &Stmt) -> bool
    ensures { result ≡ specs.starts_true (statement s.now) }
{
    match &s.node {
        StmtNode::Declare {
            ty: _,
            name: _,
            value,
        } => is_truth_of(true, value),
        _ => false,
    }
}

fn flag_loops(alloc: Global, w: &Setting, c: &Counts, loops: &[usize]) -> Result<Loops, NoMemory>
    requires { AreCountsOf (setting_in_code w.now) c.now }
    ensures { IfOk result (λ r. r ≡ map (specs.loop_number (setting_in_code w.now).sites) loops.now) }
{
    let mut numbers = Items::new(alloc);
    for j in loops {
        numbers.push(loop_number(w, c, *j))?;
    }
    Ok(numbers)
}

// A flag that starts true is kept by its opposite.
#[tactic(auto, using(loop_text::proofs::Trees::Rounds::rounds))]
fn flag_reading(alloc: Global, w: &Setting, c: &Counts, d: usize) -> Result<Reading, NoMemory>
    requires { AreCountsOf (setting_in_code w.now) c.now }
    ensures { IfOk result (λ r. reading_in_code r ≡ specs.flag_reading (setting_in_code w.now) d (slice_get (setting_in_code w.now).sites d)) }
{
    let number = flag_number(w, c, d);
    match w.sites.as_slice().get(d) {
        Some(s) => {
            let loops = flag_loops(alloc, w, c, s.round.loops.as_slice())?;
            Ok(read_as(Atom::Flag(number, loops), !starts_true(s.statement)))
        }
        None => Ok(read_as(Atom::Flag(number, Items::new(alloc)), true)),
    }
}

fn bound_reading(alloc: Global, w: &Setting, c: &Counts, b: Binding) -> Result<Reading, NoMemory>
    requires { AreCountsOf (setting_in_code w.now) c.now }
    ensures { IfOk result (λ r. reading_in_code r ≡ specs.bound_reading (setting_in_code w.now) b) }
{
    match b {
        Binding::Local(d) => flag_reading(alloc, w, c, d),
        _ => Ok(read_as(Atom::Flag(0, Items::new(alloc)), true)),
    }
}

// ---- Leaves

/// The atom of a leaf of the `if` with this number.
pub fn reading_of(
    alloc: Global,
    w: &Setting,
    c: &Counts,
    entries: &[&Expr],
    known: &[&Name],
    n: usize,
    e: &Expr,
) -> Result<Reading, NoMemory>
    requires counted { AreCountsOf (setting_in_code w.now) c.now }
    requires few { length entries.now ≤ 9 }
    requires known { length known.now ≤ 24 }
    ensures { IfOk result (λ r. reading_in_code r ≡ specs.reading_of (setting_in_code w.now) (exprs_lent entries.now) (names_lent known.now) n (expression e.now)) }
{
    match &e.node {
        ExprNode::Binary(op, a, b) => {
            let first = operand_of(w, c, entries, n, a)?;
            let second = operand_of(w, c, entries, n, b)?;
            Ok(compared(*op, first, second))
        }
        ExprNode::Equals(a, b) => {
            let first = operand_of(w, c, entries, n, a)?;
            let second = operand_of(w, c, entries, n, b)?;
            Ok(read_as(same_of(first, second), true))
        }
        ExprNode::Var(x) => bound_reading(alloc, w, c, binding_at(w.sites, n, x)),
        ExprNode::Contains(ids, a) => {
            let member = operand_of(w, c, entries, n, a)?;
            Ok(read_as(Atom::Member(member, known_number(known, ids)), true))
        }
        _ => {
            let operand = operand_of(w, c, entries, n, e)?;
            Ok(read_as(Atom::Truth(operand), true))
        }
    }
}

// ---- Lists of atoms

fn same_atom(a: &Atom, b: &Atom) -> bool
    ensures { result ≡ specs.same_atom a.now b.now }
{
    match (a, b) {
        (Atom::Less(x, y), Atom::Less(z, u)) => same_operand(x, z) && same_operand(y, u),
        (Atom::Same(x, y), Atom::Same(z, u)) => same_operand(x, z) && same_operand(y, u),
        (Atom::Truth(x), Atom::Truth(z)) => same_operand(x, z),
        (Atom::Member(x, q), Atom::Member(z, r)) => same_operand(x, z) && *q == *r,
        (Atom::Flag(k, loops), Atom::Flag(j, others)) => {
            *k == *j && same_numbers(loops.as_slice(), others.as_slice())
        }
        _ => false,
    }
}

fn has_atom(atoms: &[Atom], a: &Atom) -> bool
    ensures { result ≡ list_any (specs.same_atom a.now) atoms.now }
{
    for b in atoms {
        if same_atom(a, b) {
            return true;
        }
    }
    false
}

fn put_atom(a: Atom, atoms: &mut Atoms) -> Result<(), NoMemory>
    ensures { OnOk result (atoms.new ≡ specs.with_new specs.same_atom atoms.old a) }
{
    if has_atom(atoms.as_slice(), &a) {
        return Ok(());
    }
    atoms.push(a)
}

// Puts the atoms of leaves behind others, until there are too many.
fn put_atoms(
    alloc: Global,
    w: &Setting,
    c: &Counts,
    entries: &[&Expr],
    known: &[&Name],
    leaves: &[Leaf],
    atoms: &mut Atoms,
) -> Result<(), NoMemory>
    requires counted { AreCountsOf (setting_in_code w.now) c.now }
    requires few { length entries.now ≤ 9 }
    requires known { length known.now ≤ 24 }
    ensures { OnOk result (
        IsUpTo 24 atoms.new (
        specs.atoms_among (setting_in_code w.now) (exprs_lent entries.now) (names_lent known.now) atoms.old (map leaf_in_code leaves.now))) }
{
    for leaf in leaves {
        if atoms.len() > MOST_ATOMS {
            return Ok(());
        }
        let r = reading_of(alloc, w, c, entries, known, leaf.number, leaf.expression)?;
        put_atom(r.atom, atoms)?;
    }
    Ok(())
}

/// The atoms of leaves, each once; none where there are more than 24.
pub fn atoms_among(
    alloc: Global,
    w: &Setting,
    c: &Counts,
    entries: &[&Expr],
    known: &[&Name],
    leaves: &[Leaf],
) -> Result<Option<Atoms>, NoMemory>
    requires counted { AreCountsOf (setting_in_code w.now) c.now }
    requires few { length entries.now ≤ 9 }
    requires known { length known.now ≤ 24 }
    ensures { IfOk result (λ o.
        AreFew 24 (specs.atoms_among (setting_in_code w.now) (exprs_lent entries.now) (names_lent known.now) [] (map leaf_in_code leaves.now)) o) }
{
    let mut atoms = Items::new(alloc);
    put_atoms(alloc, w, c, entries, known, leaves, &mut atoms)?;
    if atoms.len() > MOST_ATOMS {
        return Ok(None);
    }
    Ok(Some(atoms))
}

/// The number of an atom.
pub fn atom_number(atoms: &[Atom], a: &Atom) -> u32
    requires few { length atoms.now ≤ 24 }
    ensures { result ≡ specs.number_where (specs.same_atom a.now) atoms.now }
{
    for (i, b) in atoms.iter().enumerate() {
        if same_atom(a, b) {
            return i as u32;
        }
    }
    atoms.len() as u32
}
