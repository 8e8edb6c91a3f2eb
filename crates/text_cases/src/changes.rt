// Programs that are copied, or of which statements are replaced, and conditions with another place.
use crate::boxes::boxed;
use crate::parts::put_refusal;
use crate::places::put_span;
use crate::programs::put_program;
use crate::repeats::count_of;
use crate::tokens::put_fault;
use java_ast::{Expr, ExprNode, Path, Program, Stmt, StmtNode, Stmts, at_path};
use java_copies::{copy_placed, copy_program, put_at};
use java_lex::{Tokens, lex};
use java_parser::parse;
use qbs_base::{Fail, NoMemory, Span, held};
use std::alloc::Global;

const NOWHERE: Span = Span {
    line: 1,
    column: 1,
    start: 0,
    end: 0,
};

fn path_of(alloc: Global, numbers: &[Vec<u8>]) -> Result<Path, NoMemory> {
    let mut path = Path::new(alloc);
    for digits in numbers {
        path.push(count_of(digits) as u64)?;
    }
    Ok(path)
}

fn one_break(alloc: Global) -> Result<Stmts, NoMemory> {
    let mut with = Stmts::new(alloc);
    with.push(Stmt {
        span: NOWHERE,
        node: StmtNode::Break,
    })?;
    Ok(with)
}

// ---- Texts of programs

fn put_made(
    out: &mut String,
    alloc: Global,
    made: Result<Program, NoMemory>,
) -> Result<(), NoMemory> {
    let program = held(alloc, made)?;
    put_program(out, alloc, &program, false)
}

fn put_put(
    out: &mut String,
    alloc: Global,
    program: Box<Program>,
    path: &Path,
    with: Vec<Stmt>,
) -> Result<(), NoMemory> {
    put_made(
        out,
        alloc,
        put_at(alloc, Box::into_inner(program), path, 0, with),
    )
}

// A `break` stands in place of the statements of a block up to the one that the path leads to, in a copy of the program.
fn put_in_place(
    out: &mut String,
    alloc: Global,
    program: &Program,
    path: &Path,
) -> Result<(), NoMemory> {
    let copy = held(alloc, copy_program(alloc, program))?;
    put_put(out, alloc, copy, path, one_break(alloc)?.into_vec())
}

// ---- Places of conditions

fn put_spans(out: &mut String, e: &Expr) -> Result<(), NoMemory> {
    put_span(out, &e.span)?;
    match &e.node {
        ExprNode::Not(inner) => {
            out.push_str(", ")?;
            Ok(put_span(out, &inner.span)?)
        }
        _ => Ok(()),
    }
}

fn put_copy(out: &mut String, alloc: Global, cond: &Expr) -> Result<(), NoMemory> {
    let copy = held(alloc, copy_placed(alloc, NOWHERE, cond))?;
    put_spans(out, &copy)
}

// The places of the nodes of a loop's condition, and behind them those of a copy that begins the text.
fn put_placed(
    out: &mut String,
    alloc: Global,
    program: &Program,
    path: &Path,
) -> Result<(), NoMemory> {
    match at_path(program, path) {
        Some(
            Stmt {
                node: StmtNode::While { cond, .. },
                ..
            },
        ) => {
            put_spans(out, cond)?;
            out.push_str(" becomes ")?;
            put_copy(out, alloc, cond)
        }
        _ => Ok(out.push_str("no such loop")?),
    }
}

// ---- Sources

fn put_of_program(
    out: &mut String,
    alloc: Global,
    kind: &str,
    program: &Program,
    path: &Path,
) -> Result<(), NoMemory> {
    match kind {
        "copied" => put_made(out, alloc, copy_program(alloc, program)),
        "put" => put_in_place(out, alloc, program, path),
        _ => put_placed(out, alloc, program, path),
    }
}

fn put_of_tokens(
    out: &mut String,
    alloc: Global,
    kind: &str,
    tokens: &Tokens,
    path: &Path,
) -> Result<(), NoMemory> {
    match boxed(alloc, parse(alloc, tokens)) {
        Ok(program) => put_of_program(out, alloc, kind, &program, path),
        Err(refusal) => put_refusal(out, &refusal),
    }
}

/// Appends the canonical text of a program that is copied, or of which statements are replaced, or the places of a condition. The
/// numbers behind the source are a path.
pub fn put_changed(
    out: &mut String,
    alloc: Global,
    kind: &str,
    fields: &[Vec<u8>],
) -> Result<(), NoMemory> {
    let Some((source, numbers)) = fields.split_first() else {
        return Ok(());
    };
    let path = path_of(alloc, numbers)?;
    match lex(alloc, source.as_slice()) {
        Ok(tokens) => put_of_tokens(out, alloc, kind, &tokens, &path),
        Err(Fail::Fault(fault)) => Ok(put_fault(out, &fault)?),
        Err(Fail::NoMemory) => Err(NoMemory),
    }
}
