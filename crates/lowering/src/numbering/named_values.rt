// Entry values and known lists, each once in the order of the text.
ghost use Rattle.std.specs.Prelude.{◌≡◌, ◌≤◌, IfOk, OnOk, [], length, map};
ghost use Rattle.std.specs.List.{list_any};
ghost use Rattle.std.specs.Option.{option_map};
ghost use Rattle.std.specs.Str.{bytes_eq};
ghost use Rattle.java_ast.specs.Reading.{expression, expressions, statements};
ghost use Rattle.loop_text.specs.Kernel.KernelConditions.{asked_for};
ghost use Rattle.loop_setting.specs.Listed.{IsListed};
ghost use Rattle.lowering.specs.InCode.Numbered.{leaf_in_code};
ghost use Rattle.java_loops.specs.Lowering.Numbering as specs;
ghost use Rattle.loop_text.specs.Sites.Reading.{exprs_lent};
ghost use Rattle.java_ast.specs.Names.{names_lent};
ghost use Rattle.lowering.specs.InCode.Reading.{setting_in_code};
ghost use Rattle.java_loops.specs.Lowering.UpTo.{AreFew, IsUpTo};

use crate::numbering::leaves::Leaf;
use crate::rules::k7_known::asked_for;
use java_ast::{Expr, ExprNode, Stmt};
use loop_setting::kept::name_list::NameList;
use loop_setting::places::setting::Setting;
use loop_text::conditions::operands::{is_literal, is_row_column};
use loop_text::statements::names::same_name;
use qbs_base::{Items, Name, NoMemory, boxed};
use std::alloc::Global;

/// Entry values, lent.
pub type Entries<'a> = Items<&'a Expr>;

// No fragment has more entry values.
const MOST_ENTRIES: usize = 9;

// ---- Known lists

fn put_known<'a>(e: &'a Expr, known: &mut NameList<'a>) -> Result<(), NoMemory>
    requires { IsListed known.old }
    ensures names { OnOk result (names_lent known.new.names ≡ specs.known_with (names_lent known.old.names) (expression e.now)) }
    ensures listed { OnOk result (IsListed known.new) }
{
    match &e.node {
        ExprNode::Contains(ids, _) => known.put(ids),
        _ => Ok(()),
    }
}

// The variables of known lists in leaves, each once, as they were found.
fn known_found<'a>(alloc: Global, leaves: &[Leaf<'a>]) -> Result<Box<NameList<'a>>, NoMemory>
    ensures { IfOk result (λ r. names_lent r.value.names ≡ specs.known_among [] (map leaf_in_code leaves.now)) }
{
    let mut known = boxed(alloc, NameList::new(alloc))?;
    for leaf in leaves {
        put_known(leaf.expression, &mut *known)?;
    }
    Ok(known)
}

/// The variables of known lists in leaves, each once.
pub fn known_among<'a>(alloc: Global, leaves: &[Leaf<'a>]) -> Result<Items<&'a Name>, NoMemory>
    ensures { IfOk result (λ r. names_lent r ≡ specs.known_among [] (map leaf_in_code leaves.now)) }
{
    Ok(Box::into_inner(known_found(alloc, leaves)?).names)
}

/// The number of a known list.
pub fn known_number(known: &[&Name], ids: &Name) -> u32
    requires few { length known.now ≤ 24 }
    ensures { result ≡ specs.number_where (bytes_eq ids.now) (names_lent known.now) }
{
    for (i, x) in known.iter().enumerate() {
        if same_name(ids, x) {
            return i as u32;
        }
    }
    known.len() as u32
}

// ---- Entry values

/// Whether two expressions are one entry value, wherever they stand.
pub fn same_entry(e: &Expr, other: &Expr) -> bool
    ensures { result ≡ specs.same_entry (expression e.now) (expression other.now) }
{
    match (&e.node, &other.node) {
        (ExprNode::Var(x), ExprNode::Var(y)) => same_name(x, y),
        (ExprNode::Field(a, f), ExprNode::Field(b, g)) => same_name(f, g) && same_entry(a, b),
        _ => false,
    }
}

fn has_entry(entries: &[&Expr], e: &Expr) -> bool
    ensures { result ≡ list_any (specs.same_entry (expression e.now)) (exprs_lent entries.now) }
{
    for entry in entries {
        if same_entry(e, entry) {
            return true;
        }
    }
    false
}

fn put_entry<'a>(e: &'a Expr, entries: &mut Entries<'a>) -> Result<(), NoMemory>
    ensures { OnOk result (exprs_lent entries.new ≡ specs.with_new specs.same_entry (exprs_lent entries.old) (expression e.now)) }
{
    if has_entry(entries.as_slice(), e) {
        return Ok(());
    }
    entries.push(e)
}

fn put_operand<'a>(
    w: &Setting,
    n: usize,
    e: &'a Expr,
    entries: &mut Entries<'a>,
) -> Result<(), NoMemory>
    ensures { OnOk result (
        exprs_lent entries.new
        ≡ specs.with_all_new specs.same_entry (exprs_lent entries.old) (specs.entry_operand (setting_in_code w.now).sites n (expression e.now))) }
{
    if is_row_column(w.sites, n, e) || is_literal(e) {
        return Ok(());
    }
    put_entry(e, entries)
}

#[tactic(auto, using(java_loops::proofs::Lists::UpTo::all_put))]
fn put_operands<'a>(
    w: &Setting,
    n: usize,
    e: &'a Expr,
    entries: &mut Entries<'a>,
) -> Result<(), NoMemory>
    ensures { OnOk result (
        exprs_lent entries.new
        ≡ specs.with_all_new specs.same_entry (exprs_lent entries.old) (specs.entries_in (setting_in_code w.now).sites n (expression e.now))) }
{
    match &e.node {
        ExprNode::Binary(_, a, b) => {
            put_operand(w, n, a, entries)?;
            put_operand(w, n, b, entries)
        }
        ExprNode::Equals(a, b) => {
            put_operand(w, n, a, entries)?;
            put_operand(w, n, b, entries)
        }
        _ => Ok(()),
    }
}

// Puts the entry values of leaves behind others, until there are too many.
fn put_leaves<'a>(
    w: &Setting,
    leaves: &[Leaf<'a>],
    entries: &mut Entries<'a>,
) -> Result<(), NoMemory>
    ensures { OnOk result (IsUpTo 9 (exprs_lent entries.new) (specs.entries_among (setting_in_code w.now).sites (exprs_lent entries.old) (map leaf_in_code leaves.now))) }
{
    for leaf in leaves {
        if entries.len() > MOST_ENTRIES {
            return Ok(());
        }
        put_operands(w, leaf.number, leaf.expression, entries)?;
    }
    Ok(())
}

// Puts the arguments of a query behind entry values, until there are too many.
fn put_arguments<'a>(es: &'a [Expr], entries: &mut Entries<'a>) -> Result<(), NoMemory>
    ensures { OnOk result (IsUpTo 9 (exprs_lent entries.new) (specs.with_all_new specs.same_entry (exprs_lent entries.old) (specs.arguments (expressions es.now)))) }
{
    for e in es {
        if entries.len() > MOST_ENTRIES {
            return Ok(());
        }
        put_entry(e, entries)?;
    }
    Ok(())
}

fn put_asked<'a>(run: &'a [Stmt], ids: &Name, entries: &mut Entries<'a>) -> Result<(), NoMemory>
    ensures { OnOk result (
        IsUpTo 9 (exprs_lent entries.new) (
        specs.with_all_new specs.same_entry (exprs_lent entries.old) (specs.arguments_asked (asked_for (statements run.now) ids.now)))) }
{
    match asked_for(run, ids) {
        None => Ok(()),
        Some(asked) => put_arguments(asked.arguments, entries),
    }
}

// Puts the arguments of known queries behind entry values, until there are too many.
fn put_known_arguments<'a>(
    run: &'a [Stmt],
    known: &[&Name],
    entries: &mut Entries<'a>,
) -> Result<(), NoMemory>
    ensures { OnOk result (IsUpTo 9 (exprs_lent entries.new) (specs.with_arguments (statements run.now) (exprs_lent entries.old) (names_lent known.now))) }
{
    for ids in known {
        if entries.len() > MOST_ENTRIES {
            return Ok(());
        }
        put_asked(run, ids, entries)?;
    }
    Ok(())
}

/// The entry values in leaves, and behind them the arguments of known queries, each once; none where there are more than 9.
pub fn entries_among<'a>(
    alloc: Global,
    w: &Setting<'a>,
    leaves: &[Leaf<'a>],
    known: &[&Name],
) -> Result<Option<Entries<'a>>, NoMemory>
    ensures { IfOk result (λ o.
        AreFew 9 (specs.with_arguments (setting_in_code w.now).fragment.run (specs.entries_among (setting_in_code w.now).sites [] (map leaf_in_code leaves.now)) (names_lent known.now)) (option_map exprs_lent o)) }
{
    let mut entries = Items::new(alloc);
    put_leaves(w, leaves, &mut entries)?;
    put_known_arguments(w.fragment.run, known, &mut entries)?;
    if entries.len() > MOST_ENTRIES {
        return Ok(None);
    }
    Ok(Some(entries))
}

/// The number of an entry value.
pub fn entry_number(entries: &[&Expr], e: &Expr) -> u32
    requires few { length entries.now ≤ 9 }
    ensures { result ≡ specs.entry_number (exprs_lent entries.now) (expression e.now) }
{
    for (i, entry) in entries.iter().enumerate() {
        if same_entry(e, entry) {
            return i as u32;
        }
    }
    entries.len() as u32
}
