// What a map and a schema have in common: who is drawn, by which name, and what is remarked.
use crate::classes::Class;
use crate::columns::is_annotated;
use crate::fields::Owned;
use crate::fronts::{Said, has_annotation, last_called, said_name, word_in};
use crate::source::{Source, bytes_at};
use crate::texts::{put, put_bytes};
use qbs_base::NoMemory;

/// Whether rows are seen in a class: it is a record, or has `@Entity` or `@Table`, or a public field.
pub fn is_of_rows(source: Source, class: &Class, owned: &Owned) -> bool {
    class.place.is_record
        || has_annotation(source, class.annotations.as_slice(), "Entity")
        || has_annotation(source, class.annotations.as_slice(), "Table")
        || owned.fields.as_slice().iter().any(|field| field.is_public)
}

/// The name of the table of a class, where `@Table` says it.
pub fn table_of<'a>(source: Source<'a>, class: &Class) -> Option<&'a [u8]> {
    let annotation = last_called(source, class.annotations.as_slice(), "Table")?;
    match said_name(source, annotation) {
        Said::Item(number) => word_in(source, number),
        _ => None,
    }
}

/// How many fields are marked as keys.
pub fn keys_of(source: Source, owned: &Owned) -> usize {
    let accessors = owned.accessors.as_slice();
    let mut count: usize = 0;
    for field in owned.fields.as_slice() {
        if is_annotated(source, field, accessors, "Id") {
            count = count.saturating_add(1);
        }
    }
    count
}

/// Appends the front of a remark on a class.
fn put_front(out: &mut Vec<u8>, mark: &str, source: Source, class: &Class) -> Result<(), NoMemory> {
    put(out, mark)?;
    put_bytes(out, bytes_at(source, class.place.name))?;
    put(out, ": ")
}

fn put_remark(
    out: &mut Vec<u8>,
    mark: &str,
    source: Source,
    class: &Class,
    text: &str,
) -> Result<(), NoMemory> {
    put_front(out, mark, source, class)?;
    put(out, text)?;
    put(out, "\n")
}

fn put_parent(
    out: &mut Vec<u8>,
    mark: &str,
    source: Source,
    class: &Class,
) -> Result<(), NoMemory> {
    let Some(parent) = class.place.parent else {
        return Ok(());
    };
    put_front(out, mark, source, class)?;
    put(out, "members of ")?;
    put_bytes(out, bytes_at(source, parent))?;
    put(out, ", which it extends, are not looked at\n")
}

fn put_made(
    out: &mut Vec<u8>,
    mark: &str,
    source: Source,
    class: &Class,
    name: &str,
) -> Result<(), NoMemory> {
    if !has_annotation(source, class.annotations.as_slice(), name) {
        return Ok(());
    }
    put_front(out, mark, source, class)?;
    put(out, "accessors that @")?;
    put(out, name)?;
    put(out, " makes stand in no source, so they are not listed\n")
}

/// Appends that an annotation of a class says what isn't drawn of its columns, if the class has it.
fn put_said(
    out: &mut Vec<u8>,
    mark: &str,
    source: Source,
    class: &Class,
    name: &str,
) -> Result<(), NoMemory> {
    if !has_annotation(source, class.annotations.as_slice(), name) {
        return Ok(());
    }
    put_front(out, mark, source, class)?;
    put(out, "what @")?;
    put(out, name)?;
    put(out, " says of its columns is not looked at\n")
}

fn put_several(
    out: &mut Vec<u8>,
    mark: &str,
    source: Source,
    class: &Class,
    owned: &Owned,
) -> Result<(), NoMemory> {
    for name in owned.several.as_slice() {
        put_front(out, mark, source, class)?;
        put_bytes(out, bytes_at(source, *name))?;
        put(out, ": several variables in one declaration\n")?;
    }
    Ok(())
}

/// Appends what is remarked on a class, a line each behind a mark of comments.
pub fn put_remarks(
    out: &mut Vec<u8>,
    mark: &str,
    source: Source,
    class: &Class,
    owned: &Owned,
) -> Result<(), NoMemory> {
    let annotations = class.annotations.as_slice();
    if has_annotation(source, annotations, "Inheritance")
        || has_annotation(source, annotations, "SecondaryTable")
        || has_annotation(source, annotations, "SecondaryTables")
    {
        put_remark(
            out,
            mark,
            source,
            class,
            "rows of it stand in several tables",
        )?;
    }
    put_said(out, mark, source, class, "Convert")?;
    put_said(out, mark, source, class, "Converts")?;
    put_said(out, mark, source, class, "AttributeOverride")?;
    put_said(out, mark, source, class, "AttributeOverrides")?;
    put_parent(out, mark, source, class)?;
    put_made(out, mark, source, class, "Data")?;
    put_made(out, mark, source, class, "Getter")?;
    put_made(out, mark, source, class, "Value")?;
    put_several(out, mark, source, class, owned)?;
    if keys_of(source, owned) > 1 {
        put_remark(out, mark, source, class, "its key has several columns")?;
    }
    Ok(())
}
