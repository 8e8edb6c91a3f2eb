// The numbers of loops, columns, entry values, known lists and atoms.
ghost use Rattle.std.specs.Prelude.{◌≡◌, ◌≤◌, IfOk, [], length, map, slice_get};
ghost use Rattle.java_ast.specs.Reading.{spelled, statement, statements};
ghost use Rattle.java_ast.specs.Tree.{Then, Statements};
ghost use Rattle.lowering.specs.InCode.Counted.{HasFewLoops, AreNumbersOf, AreFewNumbersOf};
ghost use Rattle.loop_text.specs.Statements.Fragment.{needed_of};
ghost use Rattle.lowering.specs.InCode.Numbered.{leaf_in_code};
ghost use Rattle.java_loops.specs.Lowering.Numbering as specs;
ghost use Rattle.loop_text.specs.Sites.Reading.{column_in_code, exprs_lent};
ghost use Rattle.java_ast.specs.Names.{names_lent};
ghost use Rattle.lowering.specs.InCode.Reading.{setting_in_code};
ghost use Rattle.java_loops.specs.Lowering.UpTo.{AreFew};

use crate::numbering::atoms::atoms_among;
use crate::numbering::counts::counts_of;
pub use crate::numbering::formulas::{both_of, form_counted};
use crate::numbering::leaves::{Leaf, all_leaves};
pub use crate::numbering::named_values::entry_number;
use crate::numbering::named_values::{Entries, entries_among, known_among};
use java_ast::{Expr, JTy, Stmt, StmtNode};
use loop_setting::places::setting::Setting;
use loop_text::sites::bindings::RowColumn;
use qbs_base::{Items, Name, NoMemory};
use schema::Schema;
use std::alloc::Global;
use tor_terms::Atoms;

/// The numbers of a fragment: its entry values, the variables of its known lists, and its atoms, each in the order of the
/// text.
#[derive(Drop)]
pub struct Numbers<'a> {
    pub entries: Items<&'a Expr>,
    pub known: Items<&'a Name>,
    pub atoms: Atoms,
}

// No fragment has more known lists, since each has an atom of its own.
const MOST_KNOWN: usize = 24;

// ---- Loops and columns

fn found_number(n: Option<u32>) -> u32
    ensures { result ≡ specs.found_number n }
{
    match n {
        Some(n) => n,
        None => 0,
    }
}

fn table_spelled(schema: &Schema, ty: &JTy) -> u32
    ensures { result ≡ specs.table_spelled schema.now (spelled ty.now) }
{
    match ty {
        JTy::Table(name) => found_number(schema.table(name)),
        _ => 0,
    }
}

fn table_of_declaration(schema: &Schema, s: &Stmt) -> u32
    ensures { (behind : Statements) → result ≡ specs.table_declared schema.now (Then (statement s.now) behind) }
{
    match &s.node {
        StmtNode::Declare {
            ty,
            name: _,
            value: _,
        } => table_spelled(schema, ty),
        _ => 0,
    }
}

fn table_declared(schema: &Schema, body: &[Stmt]) -> u32
    ensures { result ≡ specs.table_declared schema.now (statements body.now) }
{
    match body.split_first() {
        None => 0,
        Some((s, _)) => table_of_declaration(schema, s),
    }
}

/// The table whose rows a loop goes over.
#[tactic(auto, using(java_ast::proofs::Nodes::nodes))]
pub fn table_of_loop(schema: &Schema, s: &Stmt) -> u32
    ensures { result ≡ specs.table_of_loop schema.now (statement s.now) }
{
    match &s.node {
        StmtNode::ForEach {
            ty,
            name: _,
            list: _,
            body: _,
        } => table_spelled(schema, ty),
        StmtNode::While { cond: _, body } => table_declared(schema, body),
        _ => 0,
    }
}

#[tactic(auto, using(loop_text::proofs::Trees::Rounds::rounds))]
fn table_of_site(w: &Setting, n: usize) -> u32
    ensures { result ≡ specs.table_of_site (setting_in_code w.now).schema (slice_get (setting_in_code w.now).sites n) }
{
    match w.sites.as_slice().get(n) {
        Some(s) => table_of_loop(w.schema, s.statement),
        None => 0,
    }
}

/// The number of a column in the table of its loop.
pub fn column_of(w: &Setting, c: RowColumn) -> u32
    ensures { result ≡ specs.column_of (setting_in_code w.now) (column_in_code c.entry) }
{
    found_number(w.schema.column(table_of_site(w, c.looped), c.column))
}

// ---- All numbers

fn numbers_with<'a>(
    alloc: Global,
    w: &Setting,
    needed: usize,
    leaves: &[Leaf],
    entries: Entries<'a>,
    known: Items<&'a Name>,
) -> Result<Option<Numbers<'a>>, NoMemory>
    requires few { HasFewLoops (setting_in_code w.now) }
    requires needed { needed ≡ length (needed_of (setting_in_code w.now).fragment) }
    requires leaves { map leaf_in_code leaves.now ≡ specs.all_leaves (setting_in_code w.now).sites }
    requires entries { exprs_lent entries ≡ specs.entries_of (setting_in_code w.now) }
    requires known { names_lent known ≡ specs.known_of (setting_in_code w.now) }
    requires few_entries { length entries ≤ 9 }
    requires few_known { length known ≤ 24 }
    ensures { IfOk result (AreFewNumbersOf (setting_in_code w.now)) }
{
    let c = counts_of(alloc, w, needed)?;
    let found = atoms_among(alloc, w, &c, entries.as_slice(), known.as_slice(), leaves)?;
    match found {
        None => Ok(None),
        Some(atoms) => Ok(Some(Numbers {
            entries,
            known,
            atoms,
        })),
    }
}

/// The numbers of a fragment with so many needed accumulators; none where there are more than 9 entry values or 24 atoms.
pub fn numbers_of<'a>(
    alloc: Global,
    w: &Setting<'a>,
    needed: usize,
) -> Result<Option<Numbers<'a>>, NoMemory>
    requires few { HasFewLoops (setting_in_code w.now) }
    requires needed { needed ≡ length (needed_of (setting_in_code w.now).fragment) }
    ensures { IfOk result (AreFewNumbersOf (setting_in_code w.now)) }
{
    let leaves = all_leaves(alloc, w)?;
    let known = known_among(alloc, leaves.as_slice())?;
    if known.len() > MOST_KNOWN {
        return Ok(None);
    }
    match entries_among(alloc, w, leaves.as_slice(), known.as_slice())? {
        None => Ok(None),
        Some(entries) => numbers_with(alloc, w, needed, leaves.as_slice(), entries, known),
    }
}
