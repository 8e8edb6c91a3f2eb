// Java texts that compile only where a map is true of the classes.
use crate::asking::put_method;
use crate::kinds::{constant_marker, marker};
use crate::source::{Opened, Source, bytes_at, open};
use crate::texts::{put, put_bytes, put_number};
use qbs_base::{Bytes, Name, NoMemory};
use std::alloc::Global;
use view_map::{Constant, Literal, Member, RowClass, ViewMap};
use view_shapes::{ClassPlace, class_of, is_plain_name};

const HEAD: &str =
    "// Compiles only where the map is true of the classes. It stands in their package, or imports them.
@SuppressWarnings(\"unused\")
final class MapCheck {
    static final class IsInt { }
    static final class IsLong { }
    static final class IsBool { }
    static final class IsBoxedInt { }
    static final class IsBoxedLong { }
    static final class IsBoxedBool { }
    static final class IsText { }
    static final class IsOther { }
    static IsInt kind(int value) { return null; }
    static IsLong kind(long value) { return null; }
    static IsBool kind(boolean value) { return null; }
    static IsBoxedInt kind(Integer value) { return null; }
    static IsBoxedLong kind(Long value) { return null; }
    static IsBoxedBool kind(Boolean value) { return null; }
    static IsText kind(String value) { return null; }
    static IsOther kind(byte value) { return null; }
    static IsOther kind(short value) { return null; }
    static IsOther kind(char value) { return null; }
";

fn put_member(out: &mut Vec<u8>, member: &Member, number: usize) -> Result<(), NoMemory> {
    put(out, "        ")?;
    put(out, marker(member.java))?;
    put(out, " member")?;
    put_number(out, number)?;
    put(out, " = kind(row.")?;
    put_bytes(out, member.name.as_slice())?;
    put(out, if member.is_call { "());\n" } else { ");\n" })
}

fn put_members(out: &mut Vec<u8>, members: &[Member]) -> Result<(), NoMemory> {
    let mut number: usize = 0;
    for member in members {
        number = number.saturating_add(1);
        put_member(out, member, number)?;
    }
    Ok(())
}

fn put_class(out: &mut Vec<u8>, class: &RowClass) -> Result<(), NoMemory> {
    if let Some(outer) = &class.within {
        put_bytes(out, outer.as_slice())?;
        put(out, ".")?;
    }
    put_bytes(out, class.class.as_slice())
}

fn put_classes(out: &mut Vec<u8>, classes: &[RowClass]) -> Result<(), NoMemory> {
    let mut number: usize = 0;
    for class in classes {
        number = number.saturating_add(1);
        put(out, "    static void table")?;
        put_number(out, number)?;
        put(out, "(")?;
        put_class(out, class)?;
        put(out, " row) {\n")?;
        put_members(out, class.members.as_slice())?;
        put(out, "    }\n")?;
    }
    Ok(())
}

/// Appends names with dots between them.
fn put_names(out: &mut Vec<u8>, names: &[Name]) -> Result<(), NoMemory> {
    let mut is_first = true;
    for name in names {
        put(out, if is_first { "" } else { "." })?;
        put_bytes(out, name.as_slice())?;
        is_first = false;
    }
    Ok(())
}

fn put_literal(out: &mut Vec<u8>, literal: &Literal) -> Result<(), NoMemory> {
    put(out, if literal.negative { "-" } else { "" })?;
    put_bytes(out, literal.bytes.as_slice())
}

/// Appends a method that compiles only where a constant has its type, and its value as the class is compiled.
fn put_constant(out: &mut Vec<u8>, constant: &Constant, number: usize) -> Result<(), NoMemory> {
    put(out, "    static void constant")?;
    put_number(out, number)?;
    put(out, "() {\n        ")?;
    put(out, constant_marker(constant.kind))?;
    put(out, " constant = kind(")?;
    put_names(out, constant.names.as_slice())?;
    put(out, ");\n        switch (0) { case 0: case (")?;
    put_names(out, constant.names.as_slice())?;
    put(out, " == ")?;
    put_literal(out, &constant.value)?;
    put(out, " ? 1 : 0): }\n    }\n")
}

fn put_constants(out: &mut Vec<u8>, constants: &[Constant]) -> Result<(), NoMemory> {
    let mut number: usize = 0;
    for constant in constants {
        number = number.saturating_add(1);
        put_constant(out, constant, number)?;
    }
    Ok(())
}

/// Appends a class that compiles only where the members and constants are there and have their types.
fn put_check(out: &mut Vec<u8>, map: &ViewMap) -> Result<(), NoMemory> {
    put(out, HEAD)?;
    put_classes(out, map.classes.as_slice())?;
    put_constants(out, map.constants.as_slice())?;
    put(out, "}\n")
}

/// The class of a file, if it has a plain name.
fn plain_class(source: Source) -> Option<ClassPlace> {
    let class = class_of(source.items, source.closings)?;
    if is_plain_name(source.items, class.name) {
        Some(class)
    } else {
        None
    }
}

/// Where the item with this number stands.
fn place_of(source: Source, number: usize) -> usize {
    match source.items.get(number) {
        Some(item) => item.from,
        None => 0,
    }
}

/// Appends a file and a line that no file has, since it has no class in which a map could be checked.
fn put_unchecked(out: &mut Vec<u8>, file: &[u8]) -> Result<(), NoMemory> {
    put_bytes(out, file)?;
    put(
        out,
        "\nno class stands here in which the map can be checked\n",
    )
}

/// Appends an opened file with one method behind the last member of its class.
fn put_opened(
    out: &mut Vec<u8>,
    map: &ViewMap,
    opened: &Opened,
    file: &[u8],
) -> Result<(), NoMemory> {
    let source = opened.source();
    let Some(class) = plain_class(source) else {
        return put_unchecked(out, file);
    };
    let at = place_of(source, class.to).min(file.len());
    let (before, behind) = file.split_at(at);
    put_bytes(out, before)?;
    put(out, "\n")?;
    put_method(out, map, bytes_at(source, class.name))?;
    put_bytes(out, behind)
}

fn put_file(alloc: Global, out: &mut Vec<u8>, map: &ViewMap, file: &[u8]) -> Result<(), NoMemory> {
    match open(alloc, file)? {
        None => put_unchecked(out, file),
        Some(opened) => put_opened(out, map, &opened, file),
    }
}

/// A Java text that compiles only where a map is true. Without a file it is a class `MapCheck`, for the package of the classes: it compiles only where each
/// class has the members of its table with their types, and each constant its type and value. With a file it is that file with one method behind the last
/// member of its class: it compiles only where each fetch pattern gives rows of its class there, and each template what its query is for. What accessors do,
/// which rows there are, in which order and where NULL stands can't be seen so. A file without a class, or too long a map, gives a text that doesn't compile. It
/// fails only by want of memory.
pub fn print_check(alloc: Global, map: &ViewMap, file: Option<&[u8]>) -> Result<Bytes, NoMemory> {
    let mut out = Vec::new(alloc);
    match file {
        None => put_check(&mut out, map)?,
        Some(file) => put_file(alloc, &mut out, map, file)?,
    }
    Ok(Bytes::from_vec(out))
}
