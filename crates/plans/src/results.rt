// What is written of values.
ghost use Rattle.std.specs.Prelude.{◌≡◌, ◌++◌, Some, IfOk, OnOk};
ghost use Rattle.std.specs.List.{flat_map};
ghost use Rattle.verdicts.specs.Lines.{line};
ghost use Rattle.plans.specs.Results.{names_of, result_text, output as output_of};

use deliveries::Plan;
use qbs_base::{Bytes, Names, NoMemory, Status, Table, Text, Value, print_value};
use std::alloc::Global;

/// The names of tables by their numbers.
pub fn table_names(alloc: Global, tables: &[Table]) -> Result<Names, NoMemory>
    ensures { IfOk result (λ names. names ≡ names_of tables.now) }
{
    let mut names = Names::new(alloc);
    for table in tables {
        names.push(table.name.clone()?)?;
    }
    Ok(names)
}

// `return` and the value, behind what is there.
fn push_result(
    alloc: Global,
    tables: &[Table],
    value: &Value,
    out: &mut Vec<u8>,
) -> Result<(), NoMemory>
    ensures { OnOk result (out.new.items ≡ out.old.items ++ result_text tables.now (Some value.now)) }
{
    let names = table_names(alloc, tables)?;
    let text = print_value(alloc, &names, value)?;
    out.extend_from_slice(b"return ")?;
    out.extend_from_slice(text.as_slice())?;
    Ok(())
}

// A line with a line feed behind it.
fn push_line(out: &mut Vec<u8>, text: &Text) -> Result<(), NoMemory>
    ensures { OnOk result (out.new.items ≡ out.old.items ++ line text.now) }
{
    out.extend_from_slice(text.as_slice())?;
    out.push(b'\n')?;
    Ok(())
}

fn push_lines(out: &mut Vec<u8>, lines: &[Text]) -> Result<(), NoMemory>
    ensures { OnOk result (out.new.items ≡ out.old.items ++ flat_map line lines.now) }
{
    for text in lines {
        push_line(out, text)?;
    }
    Ok(())
}

/// The plan of a run that is done: its printed lines, and then its result.
pub fn output(
    alloc: Global,
    tables: &[Table],
    lines: &[Text],
    value: &Option<Value>,
) -> Result<Plan, NoMemory>
    ensures { IfOk result (λ plan. plan ≡ output_of tables.now lines.now value.now) }
{
    let mut out = Vec::new(alloc);
    push_lines(&mut out, lines)?;
    if let Some(value) = value {
        push_result(alloc, tables, value, &mut out)?;
    }
    Ok(Plan {
        status: Status::Ok,
        out: Bytes::from_vec(out),
        rep: Bytes::new(alloc),
    })
}
