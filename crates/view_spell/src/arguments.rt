// Arguments of queries in the words of a file.
ghost use Rattle.std.specs.Prelude.{IfOk, Some};
ghost use Rattle.view_spell.specs.Heads.{IsPushed};

use crate::origins::Seen;
use crate::starts::{Start, type_before};
use itoa::Buffer;
use java_ast::{Expr, ExprNode};
use qbs_base::{Name, NoMemory, Scalar, Text, push_text_literal};
use std::alloc::Global;
use view_map::{Member, RowClass};
use view_rules::{JavaType, Param};
use view_statements::Slice;

/// What a slice's statements are spelled with: its variables in the order in which they begin, and the byte before which those are in sight that
/// may be named.
#[derive(Clone, Copy)]
pub struct Spelling<'a> {
    pub seen: &'a Seen<'a>,
    pub slice: &'a Slice,
    pub starts: &'a [Start],
    pub before: usize,
}

/// Whether there is a spelling.
pub type Spelled = Result<bool, NoMemory>;

pub fn push_words(out: &mut Vec<u8>, words: &[u8]) -> Spelled
    ensures { IfOk result (λ b. IsPushed b out.old.items out.new.items (Some words.now)) }
{
    out.extend_from_slice(words)?;
    Ok(true)
}

// ---- Literals

/// Pushes a text in quotes.
pub fn push_text(alloc: Global, out: &mut Vec<u8>, text: &Text) -> Spelled {
    let mut quoted = String::new(alloc);
    push_text_literal(&mut quoted, text)?;
    push_words(out, quoted.as_bytes())
}

fn push_whole(out: &mut Vec<u8>, n: i64) -> Spelled {
    if n == i64::MIN {
        return push_words(out, b"Long.MIN_VALUE");
    }
    let mut buffer = Buffer::new();
    out.extend_from_slice(buffer.format(n).as_bytes())?;
    if n < -2147483648 || n > 2147483647 {
        push_words(out, b"L")
    } else {
        Ok(true)
    }
}

fn push_literal(alloc: Global, out: &mut Vec<u8>, value: &Scalar) -> Spelled {
    match value {
        Scalar::Long(n) => push_whole(out, *n),
        Scalar::Bool(true) => push_words(out, b"true"),
        Scalar::Bool(false) => push_words(out, b"false"),
        Scalar::Text(text) => push_text(alloc, out, text),
    }
}

// ---- Columns

/// The first member of a class that gives a column.
fn first_member(members: &[Member], column: u32) -> Option<&Member> {
    for member in members {
        if member.column == column {
            return Some(member);
        }
    }
    None
}

fn class_of<'a>(s: &Spelling<'a>, row: &[u8]) -> Option<&'a RowClass> {
    let java = type_before(
        s.seen.items,
        s.starts,
        s.slice.outside.as_slice(),
        row,
        s.before,
    )?;
    match java {
        JavaType::Row(class) => s.seen.map.classes.as_slice().get(class as usize),
        _ => None,
    }
}

fn push_member(out: &mut Vec<u8>, row: &[u8], member: &Member) -> Spelled {
    out.extend_from_slice(row)?;
    out.extend_from_slice(b".")?;
    out.extend_from_slice(member.name.as_slice())?;
    if member.is_call {
        push_words(out, b"()")
    } else {
        Ok(true)
    }
}

/// Pushes a column of a row, by its number in the table.
fn push_numbered(out: &mut Vec<u8>, s: &Spelling, row: &[u8], column: u32) -> Spelled {
    let Some(class) = class_of(s, row) else {
        return Ok(false);
    };
    match first_member(class.members.as_slice(), column) {
        Some(member) => push_member(out, row, member),
        None => Ok(false),
    }
}

/// The number of a column of the table that a row is of.
fn column_of(s: &Spelling, row: &[u8], column: &Name) -> Option<u32> {
    let class = class_of(s, row)?;
    s.seen.schema.column(class.table, column)
}

fn push_column(out: &mut Vec<u8>, s: &Spelling, row: &Expr, column: &Name) -> Spelled {
    let ExprNode::Var(row) = &row.node else {
        return Ok(false);
    };
    match column_of(s, row.as_slice(), column) {
        Some(number) => push_numbered(out, s, row.as_slice(), number),
        None => Ok(false),
    }
}

// ---- Variables

/// The parameter of a name.
fn param_named<'a>(params: &'a [Param], name: &[u8]) -> Option<&'a Param> {
    for param in params {
        if param.name.as_slice() == name {
            return Some(param);
        }
    }
    None
}

/// Pushes a variable: a parameter may be a column of a row from outside.
fn push_variable(out: &mut Vec<u8>, s: &Spelling, name: &Name) -> Spelled {
    match param_named(s.slice.params.as_slice(), name.as_slice()) {
        None => push_words(out, name.as_slice()),
        Some(param) => match param.column {
            None => push_words(out, param.variable.as_slice()),
            Some(column) => push_numbered(out, s, param.variable.as_slice(), column),
        },
    }
}

/// Pushes an argument: a literal, a variable, or a column of a row.
pub fn push_argument(alloc: Global, out: &mut Vec<u8>, s: &Spelling, e: &Expr) -> Spelled {
    match &e.node {
        ExprNode::Lit(value) => push_literal(alloc, out, value),
        ExprNode::Var(name) => push_variable(out, s, name),
        ExprNode::Field(row, column) => push_column(out, s, row, column),
        _ => Ok(false),
    }
}
