// The table of a schema that is drawn of a class.
use crate::classes::Class;
use crate::columns::{FieldColumn, column_of, is_annotated, name_of, put_reason};
use crate::fields::{Accessor, Field, Owned};
use crate::kinds::column_type;
use crate::sheets::{keys_of, put_remarks, table_of};
use crate::source::{Source, bytes_at};
use crate::texts::{put, put_bytes};
use qbs_base::NoMemory;

/// Appends why the column of a field isn't known, if it isn't.
fn put_unknown(
    out: &mut Vec<u8>,
    source: Source,
    class: &Class,
    field: &Field,
    accessors: &[Accessor],
) -> Result<(), NoMemory> {
    if is_annotated(source, field, accessors, "Transient") {
        return Ok(());
    }
    let Some(reason) = column_of(source, field, accessors).reason else {
        return Ok(());
    };
    put(out, "-- ")?;
    put_bytes(out, bytes_at(source, class.place.name))?;
    put(out, ".")?;
    put_bytes(out, bytes_at(source, field.name))?;
    put(out, ": ")?;
    put_reason(out, source, field, reason)?;
    put(out, "\n")
}

/// What is known of a field's column, where all of it is.
fn known_column(source: Source, field: &Field, accessors: &[Accessor]) -> Option<FieldColumn> {
    if is_annotated(source, field, accessors, "Transient") {
        return None;
    }
    let column = column_of(source, field, accessors);
    if column.reason.is_some() {
        None
    } else {
        Some(column)
    }
}

fn type_of(column: FieldColumn) -> &'static str {
    match column.java {
        Some(java) => column_type(java.kind),
        None => "",
    }
}

fn put_column(
    out: &mut Vec<u8>,
    source: Source,
    column: FieldColumn,
    is_lone_key: bool,
) -> Result<(), NoMemory> {
    put_bytes(out, name_of(source, column))?;
    put(out, " ")?;
    put(out, type_of(column))?;
    if is_lone_key && column.is_key {
        put(out, " PRIMARY KEY")
    } else if column.may_be_null {
        Ok(())
    } else {
        put(out, " NOT NULL")
    }
}

/// Appends the columns that are known.
fn put_columns(out: &mut Vec<u8>, source: Source, owned: &Owned) -> Result<(), NoMemory> {
    let is_lone_key = keys_of(source, owned) == 1;
    let mut is_first = true;
    for field in owned.fields.as_slice() {
        if let Some(column) = known_column(source, field, owned.accessors.as_slice()) {
            put(out, if is_first { "" } else { ", " })?;
            put_column(out, source, column, is_lone_key)?;
            is_first = false;
        }
    }
    Ok(())
}

fn has_columns(source: Source, owned: &Owned) -> bool {
    for field in owned.fields.as_slice() {
        if known_column(source, field, owned.accessors.as_slice()).is_some() {
            return true;
        }
    }
    false
}

fn put_name(out: &mut Vec<u8>, source: Source, class: &Class) -> Result<(), NoMemory> {
    match table_of(source, class) {
        Some(name) => put_bytes(out, name),
        None => {
            put(out, "/* ")?;
            put_bytes(out, bytes_at(source, class.place.name))?;
            put(out, ": no @Table says how its table is called */")
        }
    }
}

/// Appends the table of a class, with what isn't known as comments before it.
pub fn put_create(
    out: &mut Vec<u8>,
    source: Source,
    class: &Class,
    owned: &Owned,
) -> Result<(), NoMemory> {
    put_remarks(out, "-- ", source, class, owned)?;
    for field in owned.fields.as_slice() {
        put_unknown(out, source, class, field, owned.accessors.as_slice())?;
    }
    if !has_columns(source, owned) {
        put(out, "-- ")?;
        put_bytes(out, bytes_at(source, class.place.name))?;
        return put(out, " has no column that is known\n");
    }
    put(out, "CREATE TABLE ")?;
    put_name(out, source, class)?;
    put(out, " (")?;
    put_columns(out, source, owned)?;
    put(out, ");\n")
}
