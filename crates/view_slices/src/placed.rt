// Where a slice stands, and what comes from outside.
ghost use Rattle.std.specs.Prelude.{◌≡◌};
ghost use Rattle.view_slices.specs.Reading.{slice as plain};
ghost use Rattle.view_slices.specs.Slices as specs;
ghost use Rattle.view_slices.specs.Slices.{file_of};
ghost use Rattle.view_scope.specs.Outside.{body_of as body_in};
ghost use Rattle.view_statements.specs.Places.{frame_of};

use view_rules::{JavaType, Sighted, is_name_among};
use view_scope::{Standing, are_rows_known, is_guarded, is_in_sight_at, is_inside_try, is_tested};
use view_shapes::{File, Method, Stretch, has_name};
use view_statements::{Frame, Slice, is_seen_name};

fn same_stretch(a: Stretch, b: Stretch) -> bool
    ensures { result ≡ specs.same_stretch a b }
{
    a.from == b.from && a.to == b.to
}

fn begins_slice(slice: &Slice, st: Standing) -> bool
    ensures { result ≡ specs.begins_slice (plain slice.now) st }
{
    same_stretch(st.block, slice.block) && st.statement.from == slice.from
}

fn ends_slice(slice: &Slice, st: Standing) -> bool
    ensures { result ≡ specs.ends_slice (plain slice.now) st }
{
    same_stretch(st.block, slice.block) && st.statement.to == slice.to
}

fn begins_some(standing: &[Standing], slice: &Slice) -> bool
    ensures { result ≡ specs.begins_some standing.now (plain slice.now) }
{
    standing.iter().any(|st| begins_slice(slice, *st))
}

fn ends_some(standing: &[Standing], slice: &Slice) -> bool
    ensures { result ≡ specs.ends_some standing.now (plain slice.now) }
{
    standing.iter().any(|st| ends_slice(slice, *st))
}

fn stands(standing: &[Standing], slice: &Slice) -> bool
    ensures { result ≡ specs.stands standing.now (plain slice.now) }
{
    begins_some(standing, slice) && ends_some(standing, slice)
}

fn is_outer(v: &Sighted) -> bool
    ensures { result ≡ specs.is_outer v.now }
{
    v.outside && !v.column.is_some()
}

fn is_declared(
    f: &Frame,
    standing: &[Standing],
    method: &Method,
    from: usize,
    v: &Sighted,
    k: usize,
) -> bool
    ensures { result ≡ specs.is_declared (frame_of f.now) standing.now method.now from v.now k }
{
    is_outer(v)
        && (is_seen_name(f.within, k)
            && (has_name(f.within.items, v.name.as_slice(), k)
                && is_in_sight_at(f.within, f.closings, standing, method, from, v.java, k)))
}

fn are_declared(
    f: &Frame,
    standing: &[Standing],
    method: &Method,
    from: usize,
    outside: &[Sighted],
    declared: &[usize],
) -> bool
    ensures { result ≡ specs.are_declared (frame_of f.now) standing.now method.now from outside.now declared.now }
{
    match outside {
        [] => match declared {
            [] => true,
            [_, ..] => false,
        },
        [v, vs @ ..] => match declared {
            [] => false,
            [k, ks @ ..] => {
                is_declared(f, standing, method, from, v, *k)
                    && are_declared(f, standing, method, from, vs, ks)
            }
        },
    }
}

fn is_primitive(java: JavaType) -> bool
    ensures { result ≡ specs.is_primitive java }
{
    match java {
        JavaType::Scalar(t) => !t.boxed,
        _ => false,
    }
}

fn body_of(method: &Method) -> Stretch
    ensures { result ≡ body_in method.now }
{
    Stretch {
        from: method.from,
        to: method.to,
    }
}

fn is_safe(
    file: &File,
    standing: &[Standing],
    tested: &[Stretch],
    method: &Method,
    slice: &Slice,
    v: &Sighted,
    k: usize,
) -> bool
    ensures { result ≡ specs.is_safe (file_of file.now) standing.now tested.now method.now (plain slice.now) v.now k }
{
    is_primitive(v.java)
        || (!is_tested(file.items, tested, v.name.as_slice())
            || (is_guarded(
                file.items,
                file.closings,
                file.rounds,
                standing,
                body_of(method),
                slice.from,
                v.name.as_slice(),
                k,
            ) || is_name_among(v.name.as_slice(), slice.tested.as_slice())))
}

fn are_safe(
    file: &File,
    standing: &[Standing],
    tested: &[Stretch],
    method: &Method,
    slice: &Slice,
    outside: &[Sighted],
    declared: &[usize],
) -> bool
    ensures { result ≡ specs.are_safe (file_of file.now) standing.now tested.now method.now (plain slice.now) outside.now declared.now }
{
    match outside {
        [] => true,
        [v, vs @ ..] => match declared {
            [] => true,
            [k, ks @ ..] => {
                is_safe(file, standing, tested, method, slice, v, *k)
                    && are_safe(file, standing, tested, method, slice, vs, ks)
            }
        },
    }
}

/// Whether what is so round a slice is so: it stands in a block, what comes from outside is declared and not null,
/// and rows in sight are all among it.
pub fn is_placed(
    f: &Frame,
    file: &File,
    standing: &[Standing],
    tested: &[Stretch],
    method: &Method,
    slice: &Slice,
) -> bool
    ensures { result ≡ specs.is_placed (frame_of f.now) (file_of file.now) standing.now tested.now method.now (plain slice.now) }
{
    stands(standing, slice)
        && (are_declared(
            f,
            standing,
            method,
            slice.from,
            slice.outside.as_slice(),
            slice.declared.as_slice(),
        ) && (are_rows_known(
            f.within,
            f.closings,
            standing,
            method,
            slice.from,
            slice.outside.as_slice(),
        ) && (are_safe(
            file,
            standing,
            tested,
            method,
            slice,
            slice.outside.as_slice(),
            slice.declared.as_slice(),
        ) && (!slice.gets || !is_inside_try(file.items, file.closings, method, slice.from)))))
}
