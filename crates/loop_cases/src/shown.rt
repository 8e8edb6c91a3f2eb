// The text of a lowered fragment.
use java_ast::{Expr, ExprNode};
use kernel_lang::{Acc, Candidate, Col, KFragment, ListDef};
use lowering::Lowered;
use qbs_base::{Names, NoMemory, NumberLists, Scalar, Ty, push_scalar};
use sql_ast::{Queries, Query};
use sql_text::print_query;
use std::alloc::{AllocError, Global};
use tor_terms::{Atom, Formula, Operand};
use vc_gen::conditions;

fn put_numbers(out: &mut String, numbers: &[u64]) -> Result<(), AllocError> {
    let mut gap = "";
    out.push_str("[")?;
    for number in numbers {
        write!(out, "{gap}{number}")?;
        gap = ", ";
    }
    out.push_str("]")
}

fn put_loops(out: &mut String, loops: &[u32]) -> Result<(), AllocError> {
    let mut gap = "";
    out.push_str("[")?;
    for number in loops {
        write!(out, "{gap}{number}")?;
        gap = ", ";
    }
    out.push_str("]")
}

fn put_names(out: &mut String, names: &Names) -> Result<(), AllocError> {
    let mut gap = "";
    out.push_str("[")?;
    for name in names.as_slice() {
        let name = name.as_str();
        write!(out, "{gap}{name}")?;
        gap = ", ";
    }
    out.push_str("]")
}

fn put_keys(out: &mut String, keys: &[Col]) -> Result<(), AllocError> {
    let mut gap = "";
    out.push_str("[")?;
    for key in keys {
        let column = key.column;
        let way = if key.down { " down" } else { "" };
        write!(out, "{gap}{column}{way}")?;
        gap = ", ";
    }
    out.push_str("]")
}

fn put_list(out: &mut String, number: usize, list: &ListDef) -> Result<(), AllocError> {
    let table = list.table;
    write!(out, "    list {number}: table {table} keys ")?;
    put_keys(out, list.keys.as_slice())?;
    match list.limit {
        None => out.push_str(" limit None\n"),
        Some(limit) => write!(out, " limit {limit}\n"),
    }
}

fn put_operand(out: &mut String, operand: &Operand) -> Result<(), AllocError> {
    match operand {
        Operand::Field(j, column) => write!(out, "x{j}.{column}"),
        Operand::Entry(number) => write!(out, "e{number}"),
        Operand::Lit(value) => push_scalar(out, value),
    }
}

fn put_pair(out: &mut String, a: &Operand, sign: &str, b: &Operand) -> Result<(), AllocError> {
    put_operand(out, a)?;
    out.push_str(sign)?;
    put_operand(out, b)
}

fn put_atom(out: &mut String, atom: &Atom) -> Result<(), AllocError> {
    match atom {
        Atom::Less(a, b) => put_pair(out, a, "<", b),
        Atom::Same(a, b) => put_pair(out, a, "=", b),
        Atom::Truth(a) => put_operand(out, a),
        Atom::Member(a, query) => {
            put_operand(out, a)?;
            write!(out, " in q{query}")
        }
        Atom::Flag(number, loops) => {
            write!(out, "flag{number}")?;
            put_loops(out, loops.as_slice())
        }
    }
}

fn put_formula(out: &mut String, f: &Formula) -> Result<(), AllocError> {
    match f {
        Formula::Is(atom, true) => write!(out, "{atom}"),
        Formula::Is(atom, false) => write!(out, "!{atom}"),
        Formula::Both(g, h) => {
            out.push_str("(")?;
            put_formula(out, g)?;
            out.push_str(" & ")?;
            put_formula(out, h)?;
            out.push_str(")")
        }
        Formula::Either(g, h) => {
            out.push_str("(")?;
            put_formula(out, g)?;
            out.push_str(" | ")?;
            put_formula(out, h)?;
            out.push_str(")")
        }
    }
}

fn put_start(out: &mut String, start: &Option<Scalar>) -> Result<(), AllocError> {
    match start {
        None => out.push_str("None"),
        Some(value) => push_scalar(out, value),
    }
}

fn put_guards(out: &mut String, guards: &[Option<Formula>]) -> Result<(), AllocError> {
    for (i, guard) in guards.iter().enumerate() {
        let level = i + 1;
        write!(out, "      guard {level}: ")?;
        match guard {
            None => out.push_str("-")?,
            Some(f) => put_formula(out, f)?,
        }
        out.push_str("\n")?;
    }
    Ok(())
}

// The formulas of a pool, numbered from a number on.
fn put_pool(out: &mut String, first: usize, pool: &[Formula]) -> Result<(), AllocError> {
    let mut gap = "";
    out.push_str("      pool: ")?;
    for (i, f) in pool.iter().enumerate() {
        let number = first.saturating_add(i);
        write!(out, "{gap}{number}:")?;
        put_formula(out, f)?;
        gap = ", ";
    }
    out.push_str("\n")
}

fn put_acc(out: &mut String, first: usize, acc: &Acc) -> Result<(), AllocError> {
    let base = acc.base;
    let update = acc.update;
    out.push_str("chain ")?;
    put_loops(out, acc.chain.as_slice())?;
    write!(out, " base {base} {update:?} start ")?;
    put_start(out, &acc.start)?;
    out.push_str(if acc.opposite { " opposite\n" } else { "\n" })?;
    put_guards(out, acc.guards.as_slice())?;
    put_pool(out, first, acc.pool.as_slice())
}

fn put_accs(out: &mut String, accs: &[Acc], names: &Names) -> Result<(), AllocError> {
    let mut first: usize = 0;
    for (i, acc) in accs.iter().enumerate() {
        let name = match names.as_slice().get(i) {
            Some(name) => name.as_str(),
            None => "",
        };
        write!(out, "    acc {i} {name}: ")?;
        put_acc(out, first, acc)?;
        first = first.saturating_add(acc.pool.len());
    }
    Ok(())
}

fn name_of_type(ty: Ty) -> &'static str {
    match ty {
        Ty::Long => "Long",
        Ty::Bool => "Bool",
        Ty::Text => "Text",
    }
}

fn put_types(out: &mut String, types: &[Ty]) -> Result<(), AllocError> {
    let mut gap = "";
    out.push_str("[")?;
    for ty in types {
        out.push_str(gap)?;
        out.push_str(name_of_type(*ty))?;
        gap = ", ";
    }
    out.push_str("]")
}

fn put_counts(out: &mut String, alloc: Global, frag: &KFragment) -> Result<(), NoMemory> {
    let known = frag.known;
    let count = conditions(alloc, frag, &Candidate::new(alloc))?.len();
    out.push_str("    entries ")?;
    put_types(out, frag.entries.as_slice())?;
    write!(out, ", known {known}, conditions {count}\n")?;
    Ok(())
}

fn put_fragment(
    out: &mut String,
    alloc: Global,
    frag: &KFragment,
    names: &Names,
) -> Result<(), NoMemory> {
    for (i, list) in frag.lists.as_slice().iter().enumerate() {
        put_list(out, i, list)?;
    }
    put_atoms(out, frag.atoms.as_slice())?;
    put_accs(out, frag.accs.as_slice(), names)?;
    put_counts(out, alloc, frag)
}

fn put_atoms(out: &mut String, atoms: &[Atom]) -> Result<(), AllocError> {
    for (i, atom) in atoms.iter().enumerate() {
        write!(out, "    atom {i}: ")?;
        put_atom(out, atom)?;
        out.push_str("\n")?;
    }
    Ok(())
}

// A variable, or a column of one.
fn put_entry(out: &mut String, entry: &Expr) -> Result<(), AllocError> {
    match &entry.node {
        ExprNode::Var(name) => out.push_str(name.as_str()),
        ExprNode::Field(row, column) => {
            put_entry(out, row)?;
            out.push_str(".")?;
            out.push_str(column.as_str())
        }
        _ => out.push_str("?"),
    }
}

fn put_entries(out: &mut String, entries: &[Expr]) -> Result<(), AllocError> {
    for (i, entry) in entries.iter().enumerate() {
        write!(out, "    entry {i}: ")?;
        put_entry(out, entry)?;
        out.push_str("\n")?;
    }
    Ok(())
}

fn put_arguments(out: &mut String, lists: &NumberLists, number: usize) -> Result<(), AllocError> {
    match lists.as_slice().get(number) {
        Some(numbers) => put_numbers(out, numbers.as_slice()),
        None => out.push_str("none"),
    }
}

fn put_query(out: &mut String, alloc: Global, query: &Query) -> Result<(), NoMemory> {
    let text = print_query(alloc, query)?;
    out.push_str(text.as_str())?;
    Ok(())
}

fn put_known(
    out: &mut String,
    alloc: Global,
    known: &Queries,
    arguments: &NumberLists,
) -> Result<(), NoMemory> {
    for (i, query) in known.as_slice().iter().enumerate() {
        write!(out, "    query {i}: ")?;
        put_query(out, alloc, query)?;
        out.push_str(" of ")?;
        put_arguments(out, arguments, i)?;
        out.push_str("\n")?;
    }
    Ok(())
}

/// Appends the lines of a lowered fragment: its lists, atoms and accumulators, how many conditions a candidate of it has,
/// what its entry values and known lists are, and what a rewrite keeps and needs. The members of all pools are numbered
/// together.
pub fn put_lowered(
    out: &mut String,
    alloc: Global,
    lowered: &Lowered,
    needed: &Names,
) -> Result<(), NoMemory> {
    let first = lowered.first;
    put_fragment(out, alloc, &lowered.frag, &lowered.names)?;
    put_entries(out, lowered.entries.as_slice())?;
    put_known(out, alloc, &lowered.known, &lowered.known_args)?;
    write!(out, "    first {first}, kept ")?;
    put_numbers(out, lowered.kept.as_slice())?;
    out.push_str(", needed ")?;
    put_names(out, needed)?;
    out.push_str("\n")?;
    Ok(())
}
