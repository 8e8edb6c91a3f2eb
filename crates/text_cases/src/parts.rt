// Types, keys and expressions alone, and the faults of tokens.
use crate::boxes::boxed;
use crate::places::put_place;
use java_ast::{Expr, JTy};
use java_lex::Tokens;
use java_parser::{ParseFault, parse_expression, parse_key, parse_type};
use qbs_base::{Fail, NoMemory};
use std::alloc::{AllocError, Global};

fn put_fault(out: &mut String, fault: &ParseFault) -> Result<(), AllocError> {
    let rule = fault.rule;
    let token = fault.token;
    write!(out, "{rule:?} {token} at ")?;
    put_place(out, &fault.at)
}

/// Appends the fault that is kept.
pub fn put_refusal(out: &mut String, refusal: &Fail<ParseFault>) -> Result<(), NoMemory> {
    match refusal {
        Fail::Fault(fault) => Ok(put_fault(out, fault)?),
        Fail::NoMemory => Err(NoMemory),
    }
}

// What a type begins with.
fn word_of(ty: &JTy) -> &str {
    match ty {
        JTy::Int => "int",
        JTy::Long => "long",
        JTy::Boolean => "boolean",
        JTy::String => "String",
        JTy::BoxedInteger => "Integer",
        JTy::BoxedLong => "Long",
        JTy::BoxedBoolean => "Boolean",
        JTy::Table(name) => name.as_str(),
        JTy::List(_) => "List<",
        JTy::Set(_) => "Set<",
    }
}

fn put_type(out: &mut String, ty: &JTy) -> Result<(), AllocError> {
    out.push_str(word_of(ty))?;
    match ty {
        JTy::List(element) | JTy::Set(element) => {
            put_type(out, element)?;
            out.push_str(">")
        }
        _ => Ok(()),
    }
}

/// Appends the type of these tokens.
pub fn put_parsed_type(out: &mut String, alloc: Global, tokens: &Tokens) -> Result<(), NoMemory> {
    match boxed(alloc, parse_type(alloc, tokens)) {
        Ok(ty) => Ok(put_type(out, &ty)?),
        Err(refusal) => put_refusal(out, &refusal),
    }
}

/// Appends the column of the key of these tokens.
pub fn put_key(out: &mut String, tokens: &Tokens) -> Result<(), NoMemory> {
    match parse_key(tokens) {
        Ok(column) => Ok(out.push_str(column.as_str())?),
        Err(fault) => Ok(put_fault(out, &fault)?),
    }
}

fn put_bytes(out: &mut String, expression: &Expr) -> Result<(), NoMemory> {
    let start = expression.span.start;
    let end = expression.span.end;
    Ok(write!(out, "{start} to {end}")?)
}

/// Appends where the expression of these tokens starts and ends.
pub fn put_expression(out: &mut String, alloc: Global, tokens: &Tokens) -> Result<(), NoMemory> {
    match boxed(alloc, parse_expression(alloc, tokens)) {
        Ok(expression) => put_bytes(out, &expression),
        Err(refusal) => put_refusal(out, &refusal),
    }
}
