// Files of cases: a line of `==== SIZE BUDGET` begins one, the lines up to one of `----` are its schema, and those behind it its source. A line
// feed alone ends a line. Where a further line of `----` stands behind the source, the source's last line has no end.
use crate::limits::{Limits, limits_of};
use crate::sources::put_source;
use qbs_base::NoMemory;
use std::alloc::Global;

/// A case as far as it is read.
#[derive(Drop)]
struct Case {
    limits: Limits,
    schema: String,
    source: String,
    in_source: bool,
}

fn begun(alloc: Global, limits: Limits) -> Case {
    Case {
        limits,
        schema: String::new(alloc),
        source: String::new(alloc),
        in_source: false,
    }
}

fn put_line(case: &mut Case, line: &str) -> Result<(), NoMemory> {
    if line == "----" {
        if case.in_source {
            let _ = case.source.pop();
        }
        case.in_source = true;
        return Ok(());
    }
    let text = if case.in_source {
        &mut case.source
    } else {
        &mut case.schema
    };
    text.push_str(line)?;
    text.push('\n')?;
    Ok(())
}

fn put_answer(out: &mut String, alloc: Global, case: &Case) -> Result<(), NoMemory> {
    if !case.in_source {
        return Ok(());
    }
    out.push_str("====\n")?;
    put_source(
        out,
        alloc,
        case.schema.as_bytes(),
        case.source.as_bytes(),
        case.limits,
    )
}

/// What is said of the cases of a file, one after the other, each behind a line of `====`.
pub fn text_of_answers(alloc: Global, cases: &str) -> Result<String, NoMemory> {
    let mut out = String::new(alloc);
    let mut case = begun(alloc, limits_of(""));
    for line in cases.split_terminator('\n') {
        match line.strip_prefix("==== ") {
            Some(limits) => {
                put_answer(&mut out, alloc, &case)?;
                case = begun(alloc, limits_of(limits));
            }
            None => put_line(&mut case, line)?,
        }
    }
    put_answer(&mut out, alloc, &case)?;
    Ok(out)
}
