// The part of a map that is drawn of a class.
use crate::classes::Class;
use crate::columns::{FieldColumn, column_of, is_annotated, java_of, name_of, put_reason};
use crate::fields::{Accessor, Field, Owned};
use crate::fronts::has_annotation;
use crate::sheets::{put_remarks, table_of};
use crate::source::{Source, bytes_at};
use crate::texts::{put, put_bytes};
use crate::types::{put_type, same_type};
use qbs_base::NoMemory;
use view_shapes::Stretch;

/// How a member is spelled: its type, the number of its name, and whether it is called.
#[derive(Clone, Copy)]
struct Spelled {
    ty: Stretch,
    name: usize,
    is_call: bool,
}

/// Appends the name of a class as maps have it.
fn put_name(out: &mut Vec<u8>, source: Source, class: &Class) -> Result<(), NoMemory> {
    put_bytes(out, bytes_at(source, class.place.name))?;
    match class.outer {
        None => Ok(()),
        Some(outer) => {
            put(out, " in ")?;
            put_bytes(out, bytes_at(source, outer))
        }
    }
}

fn put_head(out: &mut Vec<u8>, source: Source, class: &Class) -> Result<(), NoMemory> {
    put(out, "table ")?;
    put_name(out, source, class)?;
    put(out, " = ")?;
    match table_of(source, class) {
        Some(name) => put_bytes(out, name)?,
        None => put(out, "/* no @Table says how its table is called */")?,
    }
    put(out, " {\n")
}

/// Appends the column of a member, where it has another name.
fn put_column(
    out: &mut Vec<u8>,
    source: Source,
    column: FieldColumn,
    member: Spelled,
) -> Result<(), NoMemory> {
    let name = name_of(source, column);
    if name == bytes_at(source, member.name) {
        return Ok(());
    }
    put(out, " = ")?;
    put_bytes(out, name)
}

/// Whether what a member gives is known: its column, which never holds NULL, and nothing else.
fn is_known(source: Source, field: &Field, column: FieldColumn, member: Spelled) -> bool {
    column.reason.is_none()
        && !column.may_be_null
        && !field.is_replaced
        && same_type(source, member.ty, field.ty)
}

/// Appends why it isn't known.
fn put_why(
    out: &mut Vec<u8>,
    source: Source,
    field: &Field,
    column: FieldColumn,
    member: Spelled,
) -> Result<(), NoMemory> {
    if let Some(reason) = column.reason {
        return put_reason(out, source, field, reason);
    }
    if !same_type(source, member.ty, field.ty) {
        put(out, "it gives ")?;
        put_type(out, source, member.ty)?;
        put(out, ", and the field is ")?;
        return put_type(out, source, field.ty);
    }
    if field.is_replaced {
        return put(out, "its accessor does more than return it");
    }
    put(out, "the column may hold NULL; or say never null")
}

fn put_member(
    out: &mut Vec<u8>,
    source: Source,
    field: &Field,
    column: FieldColumn,
    member: Spelled,
) -> Result<(), NoMemory> {
    let known = is_known(source, field, column, member);
    put(out, if known { "    " } else { "    // " })?;
    put_type(out, source, member.ty)?;
    put(out, " ")?;
    put_bytes(out, bytes_at(source, member.name))?;
    put(out, if member.is_call { "()" } else { "" })?;
    put_column(out, source, column, member)?;
    put(out, ";")?;
    if !known {
        put(out, "    ")?;
        put_why(out, source, field, column, member)?;
    }
    put(out, "\n")
}

fn put_remark(out: &mut Vec<u8>, source: Source, name: usize, text: &str) -> Result<(), NoMemory> {
    put(out, "    // ")?;
    put_bytes(out, bytes_at(source, name))?;
    put(out, text)
}

/// Appends the members that give a field.
fn put_field(
    out: &mut Vec<u8>,
    source: Source,
    is_record: bool,
    field: &Field,
    accessors: &[Accessor],
) -> Result<(), NoMemory> {
    if is_annotated(source, field, accessors, "Transient") {
        return Ok(());
    }
    let column = column_of(source, field, accessors);
    if field.is_public {
        let member = Spelled {
            ty: field.ty,
            name: field.name,
            is_call: is_record,
        };
        return put_member(out, source, field, column, member);
    }
    for place in field.accessors.as_slice() {
        if let Some(accessor) = accessors.get(*place) {
            let member = Spelled {
                ty: accessor.ty,
                name: accessor.name,
                is_call: true,
            };
            put_member(out, source, field, column, member)?;
        }
    }
    if field.accessors.is_empty() && column.reason.is_none() {
        return put_remark(
            out,
            source,
            field.name,
            " has no accessor that only returns it\n",
        );
    }
    Ok(())
}

/// Whether an accessor that returns no field gives what might be a column.
fn might_be_column(source: Source, accessor: &Accessor) -> bool {
    java_of(source, accessor.ty).is_some()
        && !has_annotation(source, accessor.annotations.as_slice(), "Transient")
}

fn put_others(out: &mut Vec<u8>, source: Source, owned: &Owned) -> Result<(), NoMemory> {
    for place in owned.others.as_slice() {
        if let Some(accessor) = owned.accessors.as_slice().get(*place) {
            if might_be_column(source, accessor) {
                put_remark(
                    out,
                    source,
                    accessor.name,
                    "() does more than return a field\n",
                )?;
            }
        }
    }
    Ok(())
}

/// Appends the table of a class, with what isn't known as comments.
pub fn put_table(
    out: &mut Vec<u8>,
    source: Source,
    class: &Class,
    owned: &Owned,
) -> Result<(), NoMemory> {
    put_remarks(out, "// ", source, class, owned)?;
    put_head(out, source, class)?;
    for field in owned.fields.as_slice() {
        put_field(
            out,
            source,
            class.place.is_record,
            field,
            owned.accessors.as_slice(),
        )?;
    }
    if !class.place.is_record {
        put_others(out, source, owned)?;
    }
    put(out, "}\n")
}

/// Appends the line in which the expression that fetches the rows of a class is to be said.
pub fn put_fetch(out: &mut Vec<u8>, source: Source, class: &Class) -> Result<(), NoMemory> {
    put(out, "// fetch ")?;
    put_name(out, source, class)?;
    put(out, " = ..;\n")
}
