// Where the variables of a slice get their types.
use qbs_base::{Items, NoMemory};
use view_items::Item;
use view_rules::{Expression, JavaType, Sighted, find_sighted};
use view_statements::{Ending, Slice, Statement};

/// How a variable is begun.
#[derive(Clone, Copy, PartialEq, Eq)]
pub enum StartForm {
    /// `T x = e;`
    Typed,
    /// `var x = e;`
    Inferred,
    /// `xs = e;` of a list or set from outside.
    Set,
    /// What a loop goes through.
    Walked,
}

/// A variable that begins: the numbers of the first item and of its name, its type, and whether it is a `new HashSet`.
#[derive(Clone, Copy)]
pub struct Start {
    pub at: usize,
    pub name: usize,
    pub java: JavaType,
    pub form: StartForm,
    pub hashed: bool,
}

/// In text order.
pub type Starts = Items<Start>;

fn is_hashed(value: &Expression) -> bool {
    match value {
        Expression::NewSet { hashed, .. } | Expression::NewSetOf { hashed, .. } => *hashed,
        _ => false,
    }
}

fn walked(at: usize, name: usize, java: JavaType) -> Start {
    Start {
        at,
        name,
        java,
        form: StartForm::Walked,
        hashed: false,
    }
}

/// The variable that a statement itself begins.
fn start_of(statement: &Statement) -> Option<Start> {
    match statement {
        Statement::Declaration {
            at,
            name,
            java,
            value,
            ..
        } => {
            Some(Start {
                at: *at,
                name: *name,
                java: *java,
                form: StartForm::Typed,
                hashed: is_hashed(value),
            })
        }
        Statement::Inferred { at, name, java, .. } => {
            Some(Start {
                at: *at,
                name: *name,
                java: *java,
                form: StartForm::Inferred,
                hashed: false,
            })
        }
        Statement::FirstSet {
            name,
            java,
            value,
            ..
        } => {
            Some(Start {
                at: *name,
                name: *name,
                java: *java,
                form: StartForm::Set,
                hashed: is_hashed(value),
            })
        }
        Statement::ForEach { at, name, java, .. }
        | Statement::ForIndex { at, name, java, .. }
        | Statement::ForIterator { at, name, java, .. } => Some(walked(*at, *name, *java)),
        _ => None,
    }
}

/// Pushes the variables that statements begin, with all that they hold.
#[cycle(begun)]
fn push_starts(statements: &[Statement], starts: &mut Starts) -> Result<(), NoMemory> {
    for statement in statements {
        push_starts_in(statement, starts)?;
    }
    Ok(())
}

#[cycle(begun)]
fn push_starts_in(statement: &Statement, starts: &mut Starts) -> Result<(), NoMemory> {
    if let Some(start) = start_of(statement) {
        starts.push(start)?;
    }
    match statement {
        Statement::If { body, .. }
        | Statement::ForEach { body, .. }
        | Statement::ForIndex { body, .. }
        | Statement::ForIterator { body, .. }
        | Statement::While { body, .. } => push_starts(body.as_slice(), starts),
        Statement::Skip { rest, .. } => push_starts(rest.as_slice(), starts),
        Statement::IfElse { body, other, .. } => {
            push_starts(body.as_slice(), starts)?;
            push_starts(other.as_slice(), starts)
        }
        _ => Ok(()),
    }
}

/// Pushes the variables that a slice begins.
pub fn push_starts_of(slice: &Slice, starts: &mut Starts) -> Result<(), NoMemory> {
    push_starts(slice.statements.as_slice(), starts)?;
    match &slice.ending {
        Ending::Grouped(group) => push_starts_in(&group.walk, starts),
        Ending::Open | Ending::Returned(_) => Ok(()),
    }
}

fn is_begun(items: &[Item], start: Start, name: &[u8], before: usize) -> bool {
    match items.get(start.name) {
        Some(item) => item.to <= before && item.bytes.as_slice() == name,
        None => false,
    }
}

/// The last start of a name that stands before a byte: Java lets no variable hide another one, so it is the one in sight there.
pub fn find_start(items: &[Item], starts: &[Start], name: &[u8], before: usize) -> Option<Start> {
    for start in starts.iter().rev() {
        if is_begun(items, *start, name, before) {
            return Some(*start);
        }
    }
    None
}

fn type_outside(outside: &[Sighted], name: &[u8]) -> Option<JavaType> {
    match find_sighted(outside, name) {
        Some(v) => Some(v.java),
        None => None,
    }
}

/// The type of a variable that is in sight where a byte stands.
pub fn type_before(
    items: &[Item],
    starts: &[Start],
    outside: &[Sighted],
    name: &[u8],
    before: usize,
) -> Option<JavaType> {
    match find_start(items, starts, name, before) {
        Some(start) => Some(start.java),
        None => type_outside(outside, name),
    }
}
