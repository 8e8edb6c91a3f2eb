// Programs: their canonical texts, where others stop, and the grammar without limits.
use crate::boxes::boxed;
use crate::escapes::put_line;
use crate::parts::put_refusal;
use java_ast::Program;
use java_lex::{Tokens, lex};
use java_parser::{ParseRule, parse, parse_grammar};
use java_text::print_program;
use qbs_base::{Fail, NoMemory};
use std::alloc::{AllocError, Global};

// A text with its white space made one space each.
fn put_flattened(out: &mut String, text: &str) -> Result<(), AllocError> {
    let mut gap = "";
    for word in text.split_whitespace() {
        out.push_str(gap)?;
        put_line(out, word)?;
        gap = " ";
    }
    Ok(())
}

/// Appends the canonical text of a program, line ends and margins aside where `flat` is true.
pub fn put_program(
    out: &mut String,
    alloc: Global,
    program: &Program,
    flat: bool,
) -> Result<(), NoMemory> {
    let text = print_program(alloc, program)?;
    if flat {
        put_flattened(out, text.as_str())?;
    } else {
        put_line(out, text.as_str())?;
    }
    Ok(())
}

/// Appends the canonical text of a program, or the fault that is kept.
pub fn put_parsed(
    out: &mut String,
    alloc: Global,
    tokens: &Tokens,
    flat: bool,
) -> Result<(), NoMemory> {
    match boxed(alloc, parse(alloc, tokens)) {
        Ok(program) => put_program(out, alloc, &program, flat),
        Err(refusal) => put_refusal(out, &refusal),
    }
}

/// Appends whether tokens are read, or the fault that is kept.
pub fn put_outcome(out: &mut String, alloc: Global, tokens: &Tokens) -> Result<(), NoMemory> {
    match boxed(alloc, parse(alloc, tokens)) {
        Ok(_) => Ok(out.push_str("read")?),
        Err(refusal) => put_refusal(out, &refusal),
    }
}

// ---- Stops

// Whether the fault kept is the token with this number, or the end where there are fewer.
fn stops_at(alloc: Global, tokens: &Tokens, number: usize) -> bool {
    let stop = match tokens.list.as_slice().get(number) {
        Some(token) => token.span,
        None => tokens.end,
    };
    match boxed(alloc, parse(alloc, tokens)) {
        Err(Fail::Fault(fault)) => {
            fault.rule == ParseRule::Unexpected && fault.token == number as u64 && fault.at == stop
        }
        _ => false,
    }
}

/// Appends whether no program goes on behind this front of the text.
pub fn put_stop(
    out: &mut String,
    alloc: Global,
    front: &[u8],
    tokens: &Tokens,
) -> Result<(), NoMemory> {
    let number = match lex(alloc, front) {
        Ok(read) => read.list.len(),
        Err(_) => usize::MAX,
    };
    let stops = stops_at(alloc, tokens, number);
    out.push_str(if stops { "stops there" } else { "goes on" })?;
    Ok(())
}

// ---- The grammar without limits

fn is_printed(alloc: Global, tokens: &Tokens, text: &str) -> Result<bool, NoMemory> {
    match parse_grammar(alloc, tokens)? {
        Some(program) => is_text_of(alloc, &program, text),
        None => Ok(false),
    }
}

fn is_text_of(alloc: Global, program: &Program, text: &str) -> Result<bool, NoMemory> {
    let printed = print_program(alloc, program)?;
    Ok(printed.as_str() == text)
}

// Whether the canonical text of a program is read as a program with that text.
fn put_again(out: &mut String, alloc: Global, program: &Program) -> Result<(), NoMemory> {
    let text = print_program(alloc, program)?;
    let again = match lex(alloc, text.as_slice()) {
        Ok(tokens) => is_printed(alloc, &tokens, text.as_str())?,
        Err(_) => false,
    };
    out.push_str(if again {
        "in the grammar"
    } else {
        "read otherwise"
    })?;
    Ok(())
}

/// Appends whether tokens are in the grammar, its limits left aside.
pub fn put_grammar(out: &mut String, alloc: Global, tokens: &Tokens) -> Result<(), NoMemory> {
    match parse_grammar(alloc, tokens) {
        Ok(Some(program)) => put_again(out, alloc, &program),
        Ok(None) => Ok(out.push_str("not in the grammar")?),
        Err(NoMemory) => Err(NoMemory),
    }
}

/// Appends whether the grammar without limits wants more memory for tokens than there is.
pub fn put_memory(out: &mut String, alloc: Global, tokens: &Tokens) -> Result<(), NoMemory> {
    let wants = matches!(parse_grammar(alloc, tokens), Err(NoMemory));
    out.push_str(if wants {
        "wants memory"
    } else {
        "enough memory"
    })?;
    Ok(())
}
