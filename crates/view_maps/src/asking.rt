// A method that compiles in a class only where the patterns and templates of a map mean there what they should.
use crate::spelling::{put_filled, put_pattern};
use crate::texts::{put, put_bytes, put_number};
use qbs_base::{Name, NoMemory};
use view_map::{FetchPattern, QueryKind, RowClass, Template, ViewMap};

/// How many bytes the method has at most, about: its length goes with the length of a template and the number of classes.
const MOST_BYTES: usize = 16_777_216;

/// Whether what is nested in a class, or in none, is spelled by its name alone in this one.
fn is_here(within: &Option<Name>, class: &[u8]) -> bool {
    match within {
        None => true,
        Some(name) => name.as_slice() == class,
    }
}

/// Appends a line that no class has, in place of what would be too long.
fn put_too_long(out: &mut Vec<u8>) -> Result<(), NoMemory> {
    put(out, "        this map is too long to be checked here\n")
}

/// Appends the front of a variable that holds a list.
fn put_list(out: &mut Vec<u8>, element: &[u8], name: &str, number: usize) -> Result<(), NoMemory> {
    put(out, "        java.util.List<")?;
    put_bytes(out, element)?;
    put(out, "> ")?;
    put(out, name)?;
    put_number(out, number)?;
    put(out, " = ")
}

/// The name of the class of a fetch pattern that is for this class.
fn fetched<'a>(map: &'a ViewMap, fetch: &FetchPattern, class: &[u8]) -> Option<&'a [u8]> {
    let row = map.classes.as_slice().get(fetch.table as usize)?;
    if is_here(&fetch.within, class) && is_here(&row.within, class) {
        Some(row.class.as_slice())
    } else {
        None
    }
}

fn put_fetches(
    out: &mut Vec<u8>,
    map: &ViewMap,
    class: &[u8],
    most: usize,
) -> Result<(), NoMemory> {
    let mut number: usize = 0;
    for fetch in map.fetches.as_slice() {
        if out.len() > most {
            return put_too_long(out);
        }
        if let Some(row) = fetched(map, fetch, class) {
            number = number.saturating_add(1);
            put_list(out, row, "fetched", number)?;
            put_pattern(out, fetch.items.as_slice())?;
            put(out, ";\n")?;
        }
    }
    Ok(())
}

/// Appends the list of a query with so many arguments.
fn put_listed(
    out: &mut Vec<u8>,
    template: &Template,
    element: &[u8],
    number: usize,
    arguments: usize,
) -> Result<(), NoMemory> {
    put_list(out, element, "listed", number)?;
    put_filled(out, template, element, arguments)?;
    put(out, ";\n")
}

/// How many arguments the query with this number has: two for the first one, and then none.
fn arguments_of(number: usize) -> usize {
    if number == 1 { 2 } else { 0 }
}

/// Appends the lists of the classes, and gives the number behind the last one.
fn put_rows(
    out: &mut Vec<u8>,
    template: &Template,
    rows: &[RowClass],
    class: &[u8],
    most: usize,
) -> Result<usize, NoMemory> {
    let mut number: usize = 1;
    for row in rows {
        if out.len() > most {
            put_too_long(out)?;
            return Ok(number);
        }
        if is_here(&row.within, class) {
            put_listed(
                out,
                template,
                row.class.as_slice(),
                number,
                arguments_of(number),
            )?;
            number = number.saturating_add(1);
        }
    }
    Ok(number)
}

fn put_lists(
    out: &mut Vec<u8>,
    template: &Template,
    rows: &[RowClass],
    class: &[u8],
    most: usize,
) -> Result<(), NoMemory> {
    let mut number = put_rows(out, template, rows, class, most)?;
    for element in ["Long", "Integer", "Boolean", "String"] {
        put_listed(
            out,
            template,
            element.as_bytes(),
            number,
            arguments_of(number),
        )?;
        number = number.saturating_add(1);
    }
    Ok(())
}

/// Twice, since `(int)` alone compiles for an `Object` too, which is cast to `Integer` then, and a `long` alone for a `Long`, which can't be cast.
fn put_whole(out: &mut Vec<u8>, template: &Template, arguments: usize) -> Result<(), NoMemory> {
    put(out, "        long number")?;
    put_number(out, arguments)?;
    put(out, " = ")?;
    put_filled(out, template, b"", arguments)?;
    put(out, ";\n        int cut")?;
    put_number(out, arguments)?;
    put(out, " = (int) ")?;
    put_filled(out, template, b"", arguments)?;
    put(out, ";\n")
}

fn put_truth(out: &mut Vec<u8>, template: &Template, arguments: usize) -> Result<(), NoMemory> {
    put(out, "        boolean truth")?;
    put_number(out, arguments)?;
    put(out, " = ")?;
    put_filled(out, template, b"", arguments)?;
    put(out, ";\n")
}

/// The template of a kind of queries.
fn template_of(map: &ViewMap, kind: QueryKind) -> Option<&Template> {
    for template in map.templates.as_slice() {
        if template.kind == kind {
            return Some(template);
        }
    }
    None
}

fn put_scalars(out: &mut Vec<u8>, map: &ViewMap, arguments: usize) -> Result<(), NoMemory> {
    if let Some(template) = template_of(map, QueryKind::Long) {
        put_whole(out, template, arguments)?;
    }
    if let Some(template) = template_of(map, QueryKind::Boolean) {
        put_truth(out, template, arguments)?;
    }
    Ok(())
}

/// Appends a method that compiles in the class of this name only where each fetch pattern gives rows of its class there, and each template what its query
/// is for.
pub fn put_method(out: &mut Vec<u8>, map: &ViewMap, class: &[u8]) -> Result<(), NoMemory> {
    let most = out.len().saturating_add(MOST_BYTES);
    put(
        out,
        "    @SuppressWarnings(\"unused\")\n    private void checksTheMap() {\n",
    )?;
    put_fetches(out, map, class, most)?;
    if let Some(template) = template_of(map, QueryKind::List) {
        put_lists(out, template, map.classes.as_slice(), class, most)?;
    }
    put_scalars(out, map, 0)?;
    put_scalars(out, map, 2)?;
    put(out, "    }\n")
}
