// Statements that ask, in the words of a file.
ghost use Rattle.std.specs.Prelude.{◌≡◌, IfOk, option_copied};
ghost use Rattle.view_spell.specs.Heads as specs;

use crate::arguments::{Spelled, Spelling, push_words};
use crate::origins::{Origin, Taken, bytes_of, origin_through};
use crate::starts::{Start, StartForm, find_start, type_before};
use crate::templates::{Filling, push_filled, template_for};
use java_ast::{Expr, ExprNode, Stmt, StmtNode};
use qbs_base::{Name, Text};
use std::alloc::Global;
use view_items::Item;
use view_map::{QueryKind, RowClass, ScalarKind};
use view_rules::JavaType;
use view_statements::Ending;

// ---- Types

fn class_name<'a>(class: Option<&'a RowClass>) -> Option<&'a [u8]> {
    match class {
        Some(class) => Some(class.class.as_slice()),
        None => None,
    }
}

fn element_word(kind: ScalarKind) -> &'static [u8] {
    match kind {
        ScalarKind::Int => b"Integer",
        ScalarKind::Long => b"Long",
        ScalarKind::Boolean => b"Boolean",
        ScalarKind::Text => b"String",
    }
}

/// The class of the elements of a list or set, as Java has it.
fn element_class<'a>(s: &Spelling<'a>, java: JavaType) -> Option<&'a [u8]> {
    match java {
        JavaType::Rows(class) => class_name(s.seen.map.classes.as_slice().get(class as usize)),
        JavaType::Scalars(kind) | JavaType::Distinct(kind) => Some(element_word(kind)),
        JavaType::Scalar(_) | JavaType::Row(_) => None,
    }
}

fn is_int(java: JavaType) -> bool {
    match java {
        JavaType::Scalar(scalar) => scalar.kind == ScalarKind::Int,
        _ => false,
    }
}

fn kind_word(kind: ScalarKind) -> &'static [u8]
    ensures { result.now ≡ specs.kind_word kind }
{
    match kind {
        ScalarKind::Int => b"int",
        ScalarKind::Long => b"long",
        ScalarKind::Boolean => b"boolean",
        ScalarKind::Text => b"String",
    }
}

/// The word of a type that stands in place of `var`, which is only seen of a single value.
fn word_of(java: JavaType) -> Option<&'static [u8]>
    ensures { option_copied result ≡ specs.word_of java }
{
    match java {
        JavaType::Scalar(scalar) => Some(kind_word(scalar.kind)),
        _ => None,
    }
}

// ---- Values

/// A variable for which a statement asks: its type, and whether it is a `HashSet`.
#[derive(Clone, Copy)]
pub struct Asked {
    pub java: JavaType,
    pub hashed: bool,
}

/// Pushes a template of a kind, filled.
fn push_query(
    alloc: Global,
    out: &mut Vec<u8>,
    s: &Spelling,
    kind: QueryKind,
    filling: &Filling,
) -> Spelled {
    match template_for(s.seen.map.templates.as_slice(), kind) {
        Some(template) => push_filled(alloc, out, s, template, filling),
        None => Ok(false),
    }
}

fn push_listing(
    alloc: Global,
    out: &mut Vec<u8>,
    s: &Spelling,
    asked: Asked,
    text: &Text,
    arguments: &[Expr],
) -> Spelled {
    let Some(class) = element_class(s, asked.java) else {
        return Ok(false);
    };
    let filling = Filling {
        text,
        class,
        arguments,
    };
    push_query(alloc, out, s, QueryKind::List, &filling)
}

fn push_long(
    alloc: Global,
    out: &mut Vec<u8>,
    s: &Spelling,
    asked: Asked,
    text: &Text,
    arguments: &[Expr],
) -> Spelled {
    if is_int(asked.java) {
        out.extend_from_slice(b"(int) ")?;
    }
    let filling = Filling {
        text,
        class: b"",
        arguments,
    };
    push_query(alloc, out, s, QueryKind::Long, &filling)
}

fn push_truth(
    alloc: Global,
    out: &mut Vec<u8>,
    s: &Spelling,
    text: &Text,
    arguments: &[Expr],
) -> Spelled {
    let filling = Filling {
        text,
        class: b"",
        arguments,
    };
    push_query(alloc, out, s, QueryKind::Boolean, &filling)
}

fn set_words(hashed: bool) -> &'static [u8] {
    if hashed {
        b"new HashSet<>("
    } else {
        b"new LinkedHashSet<>("
    }
}

/// Pushes a set of what a list query gives.
fn push_set(alloc: Global, out: &mut Vec<u8>, s: &Spelling, asked: Asked, query: &Expr) -> Spelled {
    let ExprNode::Query(_element, text, arguments) = &query.node else {
        return Ok(false);
    };
    out.extend_from_slice(set_words(asked.hashed))?;
    if push_listing(alloc, out, s, asked, text, arguments.as_slice())? {
        push_words(out, b")")
    } else {
        Ok(false)
    }
}

/// Pushes what a statement that asks sets its variable to.
fn push_value(alloc: Global, out: &mut Vec<u8>, s: &Spelling, asked: Asked, e: &Expr) -> Spelled {
    match &e.node {
        ExprNode::Query(_element, text, arguments) => {
            push_listing(alloc, out, s, asked, text, arguments.as_slice())
        }
        ExprNode::QueryLong(text, arguments) => {
            push_long(alloc, out, s, asked, text, arguments.as_slice())
        }
        ExprNode::QueryBoolean(text, arguments) => {
            push_truth(alloc, out, s, text, arguments.as_slice())
        }
        ExprNode::NewSet(Some(query)) => push_set(alloc, out, s, asked, query),
        _ => Ok(false),
    }
}

// ---- Heads

/// The bytes of a declaration before the word before its name, and from the end of that to the end of the name.
#[derive(Clone, Copy)]
struct Inferred {
    front: Origin,
    back: Origin,
}

fn inferred_at(items: &[Item], at: usize, name: usize) -> Option<Inferred>
    ensures { result ≡ specs.inferred_at items.now at name }
{
    if name == 0 {
        return None;
    }
    let first = items.get(at)?;
    let word = items.get(name - 1)?;
    let last = items.get(name)?;
    Some(Inferred {
        front: Origin {
            from: first.from,
            to: word.from,
        },
        back: Origin {
            from: word.to,
            to: last.to,
        },
    })
}

/// Pushes the beginning of a declaration by `var` with its type in place of the word, which stands directly before the name.
fn push_inferred(out: &mut Vec<u8>, s: &Spelling, start: Start) -> Spelled
    ensures { IfOk result (λ b. specs.IsPushed b out.old.items out.new.items (specs.inferred_head s.now.seen.now.items.now s.now.seen.now.source.now start)) }
{
    let Some(word) = word_of(start.java) else {
        return Ok(false);
    };
    let Some(at) = inferred_at(s.seen.items, start.at, start.name) else {
        return Ok(false);
    };
    out.extend_from_slice(bytes_of(s.seen, at.front))?;
    out.extend_from_slice(word)?;
    push_words(out, bytes_of(s.seen, at.back))
}

fn push_typed(out: &mut Vec<u8>, s: &Spelling, start: Start) -> Spelled
    ensures { IfOk result (λ b. specs.IsPushed b out.old.items out.new.items (specs.typed_head s.now.seen.now.items.now s.now.seen.now.source.now start)) }
{
    match origin_through(s.seen.items, start.at, start.name) {
        Some(at) => push_words(out, bytes_of(s.seen, at)),
        None => Ok(false),
    }
}

/// Pushes the beginning of a declaration up to its name.
fn push_start(out: &mut Vec<u8>, s: &Spelling, start: Start) -> Spelled
    ensures { IfOk result (λ b. specs.IsPushed b out.old.items out.new.items (specs.head_of s.now.seen.now.items.now s.now.seen.now.source.now start)) }
{
    match start.form {
        StartForm::Typed | StartForm::Set => push_typed(out, s, start),
        StartForm::Inferred => push_inferred(out, s, start),
        StartForm::Walked => Ok(false),
    }
}

// ---- Statements

fn asked_of(start: Start) -> Asked {
    Asked {
        java: start.java,
        hashed: start.hashed,
    }
}

/// Pushes `= e;` behind what begins a statement.
fn push_asked(alloc: Global, out: &mut Vec<u8>, s: &Spelling, asked: Asked, e: &Expr) -> Spelled {
    out.extend_from_slice(b" = ")?;
    if push_value(alloc, out, s, asked, e)? {
        push_words(out, b";")
    } else {
        Ok(false)
    }
}

/// A truth value, as a group returns it.
const FOUND: Asked = Asked {
    java: JavaType::Scalar(view_map::ScalarType {
        kind: ScalarKind::Boolean,
        boxed: false,
    }),
    hashed: false,
};

/// Whether a patch takes the place of the group that finds what this variable says.
fn is_found(s: &Spelling, taken: Taken, name: &Name) -> bool {
    match &s.slice.ending {
        Ending::Grouped(group) => taken.found && group.variable.as_slice() == name.as_slice(),
        Ending::Open | Ending::Returned(_) => false,
    }
}

/// The start of a variable that a patch takes with it.
fn start_within(s: &Spelling, taken: Taken, name: &Name) -> Option<Start> {
    let start = find_start(s.seen.items, s.starts, name.as_slice(), s.before)?;
    let item = s.seen.items.get(start.at)?;
    if taken.at.from <= item.from {
        Some(start)
    } else {
        None
    }
}

/// Pushes a declaration that asks: the variable is declared in the stretch that gives way, or it is that of a group.
fn push_declared(
    alloc: Global,
    out: &mut Vec<u8>,
    s: &Spelling,
    taken: Taken,
    name: &Name,
    value: &Expr,
) -> Spelled {
    if is_found(s, taken, name) {
        out.extend_from_slice(b"boolean ")?;
        out.extend_from_slice(name.as_slice())?;
        return push_asked(alloc, out, s, FOUND, value);
    }
    let Some(start) = start_within(s, taken, name) else {
        return Ok(false);
    };
    if push_start(out, s, start)? {
        push_asked(alloc, out, s, asked_of(start), value)
    } else {
        Ok(false)
    }
}

/// What is known of a variable that is declared before a patch.
fn asked_before(s: &Spelling, name: &Name) -> Option<Asked> {
    match find_start(s.seen.items, s.starts, name.as_slice(), s.before) {
        Some(start) => Some(asked_of(start)),
        None => Some(Asked {
            java: type_before(
                s.seen.items,
                s.starts,
                s.slice.outside.as_slice(),
                name.as_slice(),
                s.before,
            )?,
            hashed: false,
        }),
    }
}

/// Pushes an assignment that asks.
fn push_assigned(
    alloc: Global,
    out: &mut Vec<u8>,
    s: &Spelling,
    name: &Name,
    value: &Expr,
) -> Spelled {
    let Some(asked) = asked_before(s, name) else {
        return Ok(false);
    };
    out.extend_from_slice(name.as_slice())?;
    push_asked(alloc, out, s, asked, value)
}

/// Pushes a statement that asks.
pub fn push_ask(
    alloc: Global,
    out: &mut Vec<u8>,
    s: &Spelling,
    taken: Taken,
    statement: &Stmt,
) -> Spelled {
    match &statement.node {
        StmtNode::Declare { name, value, .. } => push_declared(alloc, out, s, taken, name, value),
        StmtNode::Assign { name, value } => push_assigned(alloc, out, s, name, value),
        _ => Ok(false),
    }
}
