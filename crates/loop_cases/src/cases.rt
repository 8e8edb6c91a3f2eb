// Files of cases: the lines before the first case are the schema of all. A line of `==== class verdict` or `==== class fragment` begins a
// source, and one of `==== body verdict` or `==== body fragment` the statements of a method. The last line of each has no end.
use crate::loops::{Detail, said_of_loops};
use qbs_base::NoMemory;
use std::alloc::{AllocError, Global};

// A class of one method with these statements, from line 2 on.
fn class_of(alloc: Global, body: &str) -> Result<String, AllocError> {
    let mut source = String::new(alloc);
    source.push_str("class T { void f(long p, String s, boolean b) {\n")?;
    source.push_str(body)?;
    source.push_str("\n} }")?;
    Ok(source)
}

fn detail_of(kind: &str) -> Detail {
    if kind.ends_with("fragment") {
        Detail::Fragment
    } else {
        Detail::Verdict
    }
}

fn put_source(
    out: &mut String,
    alloc: Global,
    schema: &str,
    source: &str,
    detail: Detail,
) -> Result<(), NoMemory> {
    let said = said_of_loops(alloc, schema.as_bytes(), source.as_bytes(), detail)?;
    out.push_str(said.as_str())?;
    Ok(())
}

fn put_case(
    out: &mut String,
    alloc: Global,
    schema: &str,
    kind: &str,
    text: &str,
) -> Result<(), NoMemory> {
    out.push_str("====\n")?;
    let detail = detail_of(kind);
    if kind.starts_with("body") {
        let source = class_of(alloc, text)?;
        put_source(out, alloc, schema, source.as_str(), detail)
    } else {
        put_source(out, alloc, schema, text, detail)
    }
}

/// What is said of the loops of the cases of a file, one after the other, each behind a line of `====`.
pub fn text_of_answers(alloc: Global, cases: &str) -> Result<String, NoMemory> {
    let mut out = String::new(alloc);
    let mut parts = cases.strip_suffix("\n").unwrap_or(cases).split("\n==== ");
    let schema = parts.next().unwrap_or("");
    for part in parts {
        let (kind, text) = part.split_once("\n").unwrap_or((part, ""));
        put_case(&mut out, alloc, schema, kind, text)?;
    }
    Ok(out)
}
