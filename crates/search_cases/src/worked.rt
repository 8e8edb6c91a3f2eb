// The queries of the worked class by the call with premises, which are seen to hold as it runs.
ghost use Rattle.std.specs.Prelude.{◌≡◌, true};
ghost use Rattle.kernel_lang.specs.Typed.{is_typed};
ghost use Rattle.kernel_lang.specs.Whole.{fragment_of};
ghost use Rattle.kernel_lang.specs.Worked.{class_A};

use crate::emission::{TABLES, put_query};
use crate::refuting::is_known;
use crate::words::numbers_from;
use kernel_lang::{Candidate, KFragment};
use qbs_base::{Items, NoMemory, Ty};
use schema::Schema;
use schema_text::parse_schema;
use sql_emit::{Emitted, emit};
use std::alloc::Global;

// Whether the third column of the first table is a Long, so that the worked class fits.
fn has_roles(schema: &Schema) -> bool
    ensures { result ≡ true → is_typed schema.now class_A ≡ true }
{
    match schema.tables().get(0) {
        Some(table) => match table.columns.as_slice().get(2) {
            Some(column) => matches!(column.ty, Ty::Long),
            None => false,
        },
        None => false,
    }
}

fn emitted_worked(
    alloc: Global,
    schema: &Schema,
    frag: &KFragment,
    cand: &Candidate,
) -> Result<Option<Box<Emitted>>, NoMemory>
    requires { fragment_of frag.now ≡ class_A }
{
    if !has_roles(schema) {
        return Ok(None);
    }
    let emitted = emit(
        alloc,
        schema,
        frag,
        cand,
        0,
        &Items::new(alloc),
        &Items::new(alloc),
    )?;
    Ok(Some(Box::new(alloc, emitted)?))
}

/// Appends the query of the worked class for a candidate, or that the fragment is of another class.
pub fn put_worked(
    out: &mut String,
    alloc: Global,
    frag: &KFragment,
    words: &[&str],
) -> Result<(), NoMemory> {
    if !is_known(frag) {
        out.push_str("another class\n")?;
        return Ok(());
    }
    let Ok(schema) = parse_schema(alloc, TABLES.as_bytes()) else {
        return Err(NoMemory);
    };
    let candidate = numbers_from(alloc, words, 1)?;
    match emitted_worked(alloc, &schema, frag, &candidate)? {
        Some(emitted) => put_query(out, alloc, &emitted),
        None => Ok(out.push_str("another table\n")?),
    }
}
