// The text literals of fragments and of queries are UTF-8, as their type says.
ghost use Rattle.std.specs.Prelude.{map};
ghost use Rattle.std.specs.List.{AllByRecursion};
ghost use Rattle.std.specs.Str.{IsUtf8};
ghost use Rattle.kernel_lang.specs.Whole.{fragment_of};
ghost use Rattle.sql_ast.specs.Reading.{condition, filter_of, query};
ghost use Rattle.sql_ast.specs.Utf8.{ScalarIsUtf8, OperandIsUtf8, ConditionIsUtf8, FilterIsUtf8, LiteralsAreUtf8};
ghost use Rattle.sql_parts.specs.Given.{LiteralIsUtf8, AtomIsUtf8, TextsAreUtf8};

use kernel_lang::KFragment;
use qbs_base::{Scalar, Text};
use sql_ast::{Cond, Query, SqlOpnd};
use tor_terms::{Atom, Operand};

fn read_text(text: &Text)
    ensures { IsUtf8 text.now }
{
    let _bytes = text.as_str().as_bytes();
}

fn read_scalar(x: &Scalar)
    ensures { ScalarIsUtf8 x.now }
{
    match x {
        Scalar::Long(_) => {}
        Scalar::Bool(_) => {}
        Scalar::Text(text) => read_text(text),
    }
}

fn read_literal(a: &Operand)
    ensures { LiteralIsUtf8 a.now }
{
    match a {
        Operand::Field(_, _) => {}
        Operand::Entry(_) => {}
        Operand::Lit(x) => read_scalar(x),
    }
}

fn read_atom(atom: &Atom)
    ensures { AtomIsUtf8 atom.now }
{
    match atom {
        Atom::Less(a, b) => {
            read_literal(a);
            read_literal(b);
        }
        Atom::Same(a, b) => {
            read_literal(a);
            read_literal(b);
        }
        Atom::Truth(a) => read_literal(a),
        Atom::Member(a, _) => read_literal(a),
        Atom::Flag(_, _) => {}
    }
}

fn read_atoms(atoms: &[Atom])
    ensures { AllByRecursion AtomIsUtf8 atoms.now }
{
    for atom in atoms {
        read_atom(atom);
    }
}

fn read_operand(a: &SqlOpnd)
    ensures { OperandIsUtf8 a.now }
{
    match a {
        SqlOpnd::Column(_) => {}
        SqlOpnd::Lit(x) => read_scalar(x),
        SqlOpnd::Param(_) => {}
    }
}

fn read_condition(cond: &Cond)
    ensures { ConditionIsUtf8 (condition cond.now) }
{
    match cond {
        Cond::Both(a, b) => {
            read_condition(a);
            read_condition(b);
        }
        Cond::Either(a, b) => {
            read_condition(a);
            read_condition(b);
        }
        Cond::Not(a) => read_condition(a),
        Cond::Compare(_, a, b) => {
            read_operand(a);
            read_operand(b);
        }
        Cond::Bare(_) => {}
        Cond::Exists {
            from: _,
            filter: None,
        } => {}
        Cond::Exists {
            from: _,
            filter: Some(a),
        } => read_condition(a),
        Cond::Within {
            opnd,
            negated: _,
            col: _,
            from: _,
            filter: None,
        } => read_operand(opnd),
        Cond::Within {
            opnd,
            negated: _,
            col: _,
            from: _,
            filter: Some(a),
        } => {
            read_operand(opnd);
            read_condition(a);
        }
    }
}

fn read_filter(filter: &Option<Cond>)
    ensures { FilterIsUtf8 (filter_of filter.now) }
{
    match filter {
        None => {}
        Some(a) => read_condition(a),
    }
}

fn read_query(q: &Query)
    ensures { LiteralsAreUtf8 (query q.now) }
{
    match q {
        Query::Listing(q) => read_filter(&q.filter),
        Query::Number(q) => read_filter(&q.filter),
        Query::Truth(q) => read_filter(&q.filter),
    }
}

fn read_queries(known: &[Query])
    ensures { AllByRecursion LiteralsAreUtf8 (map query known.now) }
{
    for q in known {
        read_query(q);
    }
}

/// Reads the text literals of a fragment and of its known queries: they are UTF-8. It changes nothing.
pub fn read_texts(frag: &KFragment, known: &[Query])
    ensures { TextsAreUtf8 (fragment_of frag.now) (map query known.now) }
{
    read_atoms(frag.atoms.as_slice());
    read_queries(known);
}
