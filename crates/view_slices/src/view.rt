// What is seen of a file: its methods with their slices, and the class that these are seen as.
ghost use Rattle.std.specs.Prelude.{◌≡◌, ◌+◌, ◌++◌, IfOk, OnOk};
ghost use Rattle.std.specs.Fmt.{decimal};
ghost use Rattle.view_rules.specs.Setting.{within_of};
ghost use Rattle.view_slices.specs.Reading.{slice as plain, slices as plain_slices, sliced as plain_sliced, all_sliced};
ghost use Rattle.view_slices.specs.Slices.{file_of};
ghost use Rattle.view_slices.specs.Views as specs;
ghost use Rattle.view_slices.specs.Words.{known_in as all_known};

use crate::bounds::is_bounded;
use crate::file::class_name;
use crate::params::is_ending_fresh;
use crate::shown::put_method;
use crate::slices::{is_slice, within};
use crate::words::{Known, are_words, known_in};
use itoa::Buffer;
use qbs_base::{Bytes, NoMemory, Table};
use std::alloc::Global;
use view_items::{Cells, Item};
use view_map::ViewMap;
use view_rules::{Param, Within, push_all_made};
use view_scope::{Standing, method_of, standing_of, tested_in};
use view_shapes::{File, Method, Parameter, Stretch, is_named, members_of};
use view_statements::{Read, Slice, Sliced, Words};

// ---- Methods

fn same_truth(a: bool, b: bool) -> bool
    ensures { result ≡ specs.same_truth a b }
{
    if a { b } else { !b }
}

fn same_parameters(a: &[Parameter], b: &[Parameter]) -> bool
    ensures { result ≡ specs.same_parameters a.now b.now }
{
    match a {
        [] => match b {
            [] => true,
            [_, ..] => false,
        },
        [p, ps @ ..] => match b {
            [] => false,
            [q, qs @ ..] => (p.ty == q.ty && p.name == q.name) && same_parameters(ps, qs),
        },
    }
}

fn same_method(a: &Method, b: &Method) -> bool
    ensures { result ≡ specs.same_method a.now b.now }
{
    a.name == b.name
        && (a.from == b.from
            && (a.to == b.to
                && (same_truth(a.gives_truth, b.gives_truth)
                    && same_parameters(a.parameters.as_slice(), b.parameters.as_slice()))))
}

/// Whether a member of the class is this method. Time goes with the items of the member. It fails only by want of memory.
pub fn is_member(
    alloc: Global,
    file: &File,
    member: Stretch,
    method: &Method,
) -> Result<bool, NoMemory>
    ensures { IfOk result (λ b. b ≡ specs.is_member (file_of file.now) member method.now) }
{
    match method_of(alloc, file.items, file.closings, member)? {
        Some(found) => Ok(same_method(method, &found)),
        None => Ok(false),
    }
}

// ---- Slices of a method

fn are_apart(slices: &[Slice]) -> bool
    ensures { result ≡ specs.are_apart 0 (plain_slices slices.now) }
{
    let mut from = 0;
    for s in slices {
        if s.from < from {
            return false;
        }
        from = s.to;
    }
    true
}

fn is_param_named(items: &[Item], s: &Slice, p: &Param) -> bool
    ensures { result ≡ specs.is_param_named items.now (plain s.now) p.now }
{
    is_named(items, p.variable.as_slice(), s.from, s.to)
}

fn are_params_named(items: &[Item], s: &Slice) -> bool
    ensures { result ≡ specs.are_params_named items.now (plain s.now) }
{
    s.params
        .as_slice()
        .iter()
        .all(|p| is_param_named(items, s, p))
}

/// Whether what is asked of a slice of the source alone is so.
fn is_of_source(map: &ViewMap, file: &File, method: &Method, s: &Slice) -> bool
    ensures { result ≡ specs.is_of_source map.now (file_of file.now) method.now (plain s.now) }
{
    are_params_named(file.items, s)
        && (is_ending_fresh(map, file, method, &s.ending) && is_bounded(s))
}

fn is_one_of(
    alloc: Global,
    map: &ViewMap,
    tables: &[Table],
    file: &File,
    read: &Read,
    standing: &[Standing],
    tested: &[Stretch],
    s: &Slice,
) -> Result<bool, NoMemory>
    ensures { IfOk result (λ b. b ≡ specs.is_one map.now tables.now (file_of file.now) read.now standing.now tested.now (plain s.now)) }
{
    if is_of_source(map, file, &read.method, s) {
        is_slice(
            alloc,
            map,
            tables,
            file,
            &read.words,
            &read.method,
            standing,
            tested,
            s,
        )
    } else {
        Ok(false)
    }
}

/// Whether one is a slice; else its first item is pushed.
fn is_one(
    alloc: Global,
    map: &ViewMap,
    tables: &[Table],
    file: &File,
    read: &Read,
    standing: &[Standing],
    tested: &[Stretch],
    s: &Slice,
    refused: &mut Vec<usize>,
) -> Result<bool, NoMemory>
    ensures { IfOk result (λ b. b ≡ specs.is_one map.now tables.now (file_of file.now) read.now standing.now tested.now (plain s.now)) }
{
    let is = is_one_of(alloc, map, tables, file, read, standing, tested, s)?;
    if !is {
        refused.push(s.from)?;
    }
    Ok(is)
}

fn are_slices(
    alloc: Global,
    map: &ViewMap,
    tables: &[Table],
    file: &File,
    read: &Read,
    standing: &[Standing],
    tested: &[Stretch],
    slices: &[Slice],
    refused: &mut Vec<usize>,
) -> Result<bool, NoMemory>
    ensures { IfOk result (λ b. b ≡ specs.are_slices_by map.now tables.now (file_of file.now) read.now standing.now tested.now (plain_slices slices.now)) }
{
    let mut all = true;
    for s in slices {
        let is = is_one(alloc, map, tables, file, read, standing, tested, s, refused)?;
        all = all && is;
    }
    Ok(all)
}

fn are_slices_of(
    alloc: Global,
    map: &ViewMap,
    tables: &[Table],
    file: &File,
    read: &Read,
    slices: &[Slice],
    refused: &mut Vec<usize>,
) -> Result<bool, NoMemory>
    ensures { IfOk result (λ b. b ≡ specs.are_slices map.now tables.now (file_of file.now) read.now (plain_slices slices.now)) }
{
    let method = &read.method;
    let body = Stretch {
        from: method.from,
        to: method.to,
    };
    let standing = standing_of(alloc, file.items, file.closings, body)?;
    let tested = tested_in(
        alloc,
        file.items,
        file.closings,
        file.rounds,
        method.from,
        method.to,
    )?;
    are_slices(
        alloc,
        map,
        tables,
        file,
        read,
        standing.as_slice(),
        tested.as_slice(),
        slices,
        refused,
    )
}

fn is_sliced(
    alloc: Global,
    map: &ViewMap,
    tables: &[Table],
    file: &File,
    known: &Known,
    s: &Sliced,
    refused: &mut Vec<usize>,
) -> Result<bool, NoMemory>
    requires { known.now ≡ all_known map.now (file_of file.now) }
    ensures { IfOk result (λ b. b ≡ specs.is_sliced map.now tables.now (file_of file.now) (plain_sliced s.now)) }
{
    let slices = s.slices.as_slice();
    let are = are_slices_of(alloc, map, tables, file, &s.read, slices, refused)?;
    Ok(are_words(map, file, known, &s.read.method, &s.read.words) && (are_apart(slices) && are))
}

// ---- All of it

fn is_no_method(methods: &[Sliced]) -> bool
    ensures { result ≡ specs.is_no_method (all_sliced methods.now) }
{
    match methods {
        [] => true,
        [_, ..] => false,
    }
}

fn are_sliced(
    alloc: Global,
    map: &ViewMap,
    tables: &[Table],
    file: &File,
    known: &Known,
    members: &[Stretch],
    methods: &[Sliced],
    refused: &mut Vec<usize>,
) -> Result<bool, NoMemory>
    requires { known.now ≡ all_known map.now (file_of file.now) }
    ensures { IfOk result (λ b. b ≡ specs.are_sliced map.now tables.now (file_of file.now) members.now (all_sliced methods.now)) }
{
    let mut all = true;
    let mut rest = methods;
    for member in members {
        let [s, behind @ ..] = rest else {
            return Ok(all);
        };
        if is_member(alloc, file, *member, &s.read.method)? {
            let is = is_sliced(alloc, map, tables, file, known, s, refused)?;
            all = all && is;
            rest = behind;
        }
    }
    Ok(all && is_no_method(rest))
}

/// Whether methods are what is seen of a file: each is a member of its class, in their order, what is said to be read in it may be, and its slices
/// are slices and stand one behind the other. The first items of those that are none are pushed. Time goes with the items of each method for
/// each of its slices. It fails only by want of memory.
pub fn is_view(
    alloc: Global,
    map: &ViewMap,
    tables: &[Table],
    file: &File,
    methods: &[Sliced],
    refused: &mut Vec<usize>,
) -> Result<bool, NoMemory>
    ensures { IfOk result (λ b. b ≡ specs.is_view map.now tables.now (file_of file.now) (all_sliced methods.now)) }
{
    let members = members_of(alloc, file.items, file.closings, file.class.from)?;
    let known = known_in(alloc, map, file, members.as_slice())?;
    are_sliced(
        alloc,
        map,
        tables,
        file,
        &known,
        members.as_slice(),
        methods,
        refused,
    )
}

// ---- The class that it is seen as

fn push_str(out: &mut Vec<u8>, text: &str) -> Result<(), NoMemory>
    ensures { OnOk result (out.new.items ≡ out.old.items ++ text.now) }
{
    out.extend_from_slice(text.as_bytes())?;
    Ok(())
}

fn push_number(out: &mut Vec<u8>, number: u64) -> Result<(), NoMemory>
    ensures { OnOk result (out.new.items ≡ out.old.items ++ decimal number) }
{
    let mut buffer = Buffer::new();
    push_str(out, buffer.format(number))
}

/// The name of the method that a slice is seen as, by its number.
pub fn slice_name(alloc: Global, number: u64) -> Result<Bytes, NoMemory>
    ensures { IfOk result (λ name. name ≡ specs.slice_name number) }
{
    let mut name = Vec::new(alloc);
    push_str(&mut name, "s")?;
    push_number(&mut name, number)?;
    Ok(Bytes::from_vec(name))
}

/// The sum, unless so many things are more than fit into memory.
fn sum(a: u64, b: u64) -> Result<u64, NoMemory>
    ensures { IfOk result (λ n. n ≡ a + b) }
{
    match a.checked_add(b) {
        Some(n) => Ok(n),
        None => Err(NoMemory),
    }
}

fn put_slice(
    alloc: Global,
    map: &ViewMap,
    tables: &[Table],
    file: &File,
    words: &Words,
    number: u64,
    s: &Slice,
    cells: &mut Cells,
) -> Result<(), NoMemory>
    ensures { OnOk result (cells.new ≡ cells.old ++ specs.slice_cells map.now tables.now (file_of file.now) words.now number (plain s.now)) }
{
    let name = slice_name(alloc, number)?;
    let w = within(map, tables, file, words, s);
    put_method(alloc, &w, name.as_slice(), s, cells)
}

fn put_slices(
    alloc: Global,
    map: &ViewMap,
    tables: &[Table],
    file: &File,
    words: &Words,
    first: u64,
    slices: &[Slice],
    cells: &mut Cells,
) -> Result<(), NoMemory>
    ensures { OnOk result (cells.new ≡ cells.old ++ specs.slices_cells map.now tables.now (file_of file.now) words.now first (plain_slices slices.now)) }
{
    let mut number = first;
    for s in slices {
        put_slice(alloc, map, tables, file, words, number, s, cells)?;
        number = sum(number, 1)?;
    }
    Ok(())
}

fn put_methods(
    alloc: Global,
    map: &ViewMap,
    tables: &[Table],
    file: &File,
    methods: &[Sliced],
    cells: &mut Cells,
) -> Result<(), NoMemory>
    ensures { OnOk result (cells.new ≡ cells.old ++ specs.methods_cells map.now tables.now (file_of file.now) 1 (all_sliced methods.now)) }
{
    let mut number = 1;
    for s in methods {
        let slices = s.slices.as_slice();
        put_slices(
            alloc,
            map,
            tables,
            file,
            &s.read.words,
            number,
            slices,
            cells,
        )?;
        number = sum(number, slices.len() as u64)?;
    }
    Ok(())
}

fn outside_all<'a>(map: &'a ViewMap, tables: &'a [Table], file: &File<'a>) -> Within<'a>
    ensures { within_of result ≡ specs.outside_all map.now tables.now (file_of file.now) }
{
    Within {
        map,
        tables,
        items: file.items,
        classes: &[],
        fetches: &[],
        templates: &[],
        map_constants: &[],
        constants: &[],
        params: &[],
        tested: &[],
        clear: &[],
        gets: false,
    }
}

/// Pushes the tokens of the class that a view is seen as, with a method for each slice. It fails only by want of memory.
pub fn put_class<'a>(
    alloc: Global,
    map: &'a ViewMap,
    tables: &'a [Table],
    file: &File<'a>,
    methods: &[Sliced],
    cells: &mut Cells,
) -> Result<(), NoMemory>
    ensures { OnOk result (cells.new ≡ cells.old ++ specs.class_cells map.now tables.now (file_of file.now) (all_sliced methods.now)) }
{
    let w = outside_all(map, tables, file);
    let class = file.class;
    push_all_made(
        alloc,
        &w,
        class.name,
        &[b"class", class_name(file), b"{"],
        cells,
    )?;
    put_methods(alloc, map, tables, file, methods, cells)?;
    push_all_made(alloc, &w, class.to, &[b"}"], cells)
}
