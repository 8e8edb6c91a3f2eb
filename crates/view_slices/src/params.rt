// The names of a slice in what is seen of it: parameters, the variable of a group, and what goes through a list.
ghost use Rattle.std.specs.Prelude.{◌≡◌, option_copied};
ghost use Rattle.view_slices.specs.Reading.{slice as plain, ending as plain_ending};
ghost use Rattle.view_slices.specs.Slices as specs;
ghost use Rattle.view_slices.specs.Slices.{file_of};
ghost use Rattle.view_slices.specs.Views as views;

use view_map::{FetchPattern, Member, Part, PatternItem, RowClass, ScalarKind, Template, ViewMap};
use view_rules::{JavaType, Param, Sighted, find_sighted, same_kind};
use view_shapes::{File, Method, has_name};
use view_statements::{Ending, Slice, is_no_word};

fn is_in_pattern(name: &[u8], pattern: &[PatternItem]) -> bool
    ensures { result ≡ specs.is_in_pattern name.now pattern.now }
{
    pattern.iter().any(|i| i.bytes.as_slice() == name)
}

fn is_in_fetch(name: &[u8], f: &FetchPattern) -> bool
    ensures { result ≡ specs.is_in_fetch name.now f.now }
{
    is_in_pattern(name, f.items.as_slice())
}

fn is_part_of(name: &[u8], part: &Part) -> bool
    ensures { result ≡ specs.is_part_of name.now part.now }
{
    match part {
        Part::Item(i) => i.bytes.as_slice() == name,
        _ => false,
    }
}

fn is_in_parts(name: &[u8], parts: &[Part]) -> bool
    ensures { result ≡ specs.is_in_parts name.now parts.now }
{
    parts.iter().any(|p| is_part_of(name, p))
}

fn is_in_template(name: &[u8], t: &Template) -> bool
    ensures { result ≡ specs.is_in_template name.now t.now }
{
    is_in_parts(name, t.front.as_slice())
        || (is_in_parts(name, t.each.as_slice()) || is_in_parts(name, t.back.as_slice()))
}

#[tactic(auto, using(view_shapes::proofs::Numbers::any_here, view_shapes::proofs::Numbers::any_next, view_shapes::proofs::Numbers::any_end))]
fn is_word_in(file: &File, name: &[u8], from: usize, to: usize) -> bool
    ensures { result ≡ specs.is_word_in (file_of file.now) name.now from to }
{
    for k in from..to {
        if has_name(file.items, name, k) {
            return true;
        }
    }
    false
}

fn is_in_fetches(name: &[u8], fetches: &[FetchPattern]) -> bool
    ensures { result ≡ specs.is_in_fetches name.now fetches.now }
{
    fetches.iter().any(|f| is_in_fetch(name, f))
}

fn is_in_templates(name: &[u8], templates: &[Template]) -> bool
    ensures { result ≡ specs.is_in_templates name.now templates.now }
{
    templates.iter().any(|t| is_in_template(name, t))
}

fn is_fresh(map: &ViewMap, file: &File, method: &Method, name: &[u8]) -> bool
    ensures { result ≡ specs.is_fresh map.now (file_of file.now) method.now name.now }
{
    is_no_word(name)
        && (!is_word_in(file, name, method.name, method.to)
            && (!is_in_fetches(name, map.fetches.as_slice())
                && !is_in_templates(name, map.templates.as_slice())))
}

fn gives_column(column: u32, kind: ScalarKind, member: &Member) -> bool
    ensures { result ≡ specs.gives_column column kind member.now }
{
    member.column == column && same_kind(member.java.kind, kind)
}

fn has_column(column: u32, kind: ScalarKind, members: &[Member]) -> bool
    ensures { result ≡ specs.has_column column kind members.now }
{
    members.iter().any(|m| gives_column(column, kind, m))
}

fn class_gives(column: u32, kind: ScalarKind, class: Option<&RowClass>) -> bool
    ensures { result ≡ specs.class_gives column kind (option_copied class.entry) }
{
    match class {
        Some(c) => has_column(column, kind, c.members.as_slice()),
        None => false,
    }
}

fn is_column_handed(
    map: &ViewMap,
    file: &File,
    method: &Method,
    name: &[u8],
    kind: ScalarKind,
    class: u32,
    column: Option<u32>,
) -> bool
    ensures { result ≡ specs.is_column_handed map.now (file_of file.now) method.now name.now kind class column }
{
    match column {
        Some(column) => {
            class_gives(column, kind, map.classes.as_slice().get(class as usize))
                && is_fresh(map, file, method, name)
        }
        None => false,
    }
}

fn is_handed_of(
    map: &ViewMap,
    file: &File,
    method: &Method,
    p: &Param,
    kind: ScalarKind,
    java: JavaType,
) -> bool
    ensures { result ≡ specs.is_handed_of map.now (file_of file.now) method.now p.now kind java }
{
    match java {
        JavaType::Scalar(t) => {
            !p.column.is_some()
                && (p.name.as_slice() == p.variable.as_slice() && same_kind(t.kind, kind))
        }
        JavaType::Row(class) => {
            is_column_handed(map, file, method, p.name.as_slice(), kind, class, p.column)
        }
        _ => false,
    }
}

fn is_param_for(
    map: &ViewMap,
    file: &File,
    method: &Method,
    p: &Param,
    kind: ScalarKind,
    v: Option<&Sighted>,
) -> bool
    ensures { result ≡ specs.is_param_for map.now (file_of file.now) method.now p.now kind (option_copied v.entry) }
{
    match v {
        Some(v) => is_handed_of(map, file, method, p, kind, v.java),
        None => false,
    }
}

fn is_parameter(
    map: &ViewMap,
    file: &File,
    method: &Method,
    slice: &Slice,
    p: &Param,
    kind: ScalarKind,
) -> bool
    ensures { result ≡ specs.is_parameter map.now (file_of file.now) method.now (plain slice.now) p.now kind }
{
    is_param_for(
        map,
        file,
        method,
        p,
        kind,
        find_sighted(slice.outside.as_slice(), p.variable.as_slice()),
    )
}

fn has_param_name(name: &[u8], params: &[Param]) -> bool
    ensures { result ≡ specs.has_param_name name.now params.now }
{
    params.iter().any(|p| p.name.as_slice() == name)
}

fn are_parameters(
    map: &ViewMap,
    file: &File,
    method: &Method,
    slice: &Slice,
    params: &[Param],
    kinds: &[ScalarKind],
) -> bool
    ensures { result ≡ specs.are_parameters map.now (file_of file.now) method.now (plain slice.now) params.now kinds.now }
{
    match params {
        [] => match kinds {
            [] => true,
            [_, ..] => false,
        },
        [p, ps @ ..] => match kinds {
            [] => false,
            [kind, kinds @ ..] => {
                is_parameter(map, file, method, slice, p, *kind)
                    && (!has_param_name(p.name.as_slice(), ps)
                        && are_parameters(map, file, method, slice, ps, kinds))
            }
        },
    }
}

fn is_last(method: &Method, slice: &Slice) -> bool
    ensures { result ≡ specs.is_last method.now (plain slice.now) }
{
    method.gives_truth && slice.to == slice.block.to
}

fn is_unnamed(file: &File, slice: &Slice, name: &[u8]) -> bool
    ensures { result ≡ specs.is_unnamed (file_of file.now) (plain slice.now) name.now }
{
    is_no_word(name)
        && (!is_word_in(file, name, slice.from, slice.to)
            && !has_param_name(name, slice.params.as_slice()))
}

fn is_ending_there(file: &File, method: &Method, slice: &Slice, ending: &Ending) -> bool
    ensures { result ≡ specs.is_ending_there (file_of file.now) method.now (plain slice.now) (plain_ending ending.now) }
{
    match ending {
        Ending::Open => true,
        Ending::Grouped(g) => {
            is_last(method, slice) && is_unnamed(file, slice, g.variable.as_slice())
        }
        Ending::Returned(_) => is_last(method, slice),
    }
}

/// Whether the variable of a group has a name that neither the method nor the map has. Time goes with the items of both.
pub fn is_ending_fresh(map: &ViewMap, file: &File, method: &Method, ending: &Ending) -> bool
    ensures { result ≡ views.is_ending_fresh map.now (file_of file.now) method.now (plain_ending ending.now) }
{
    match ending {
        Ending::Grouped(g) => is_fresh(map, file, method, g.variable.as_slice()),
        Ending::Open | Ending::Returned(_) => true,
    }
}

fn is_each_fresh(map: &ViewMap, file: &File, method: &Method, slice: &Slice) -> bool
    ensures { result ≡ specs.is_each_fresh map.now (file_of file.now) method.now (plain slice.now) }
{
    is_fresh(map, file, method, slice.each.as_slice())
        && !has_param_name(slice.each.as_slice(), slice.params.as_slice())
}

/// Whether the names of a slice in what is seen of it are what they have to be: those of parameters, of the variable of a group, and of what
/// goes through a list that is printed.
pub fn is_named_well(map: &ViewMap, file: &File, method: &Method, slice: &Slice) -> bool
    ensures { result ≡ specs.is_named_well map.now (file_of file.now) method.now (plain slice.now) }
{
    are_parameters(
        map,
        file,
        method,
        slice,
        slice.params.as_slice(),
        slice.kinds.as_slice(),
    ) && (is_ending_there(file, method, slice, &slice.ending)
        && is_each_fresh(map, file, method, slice))
}
