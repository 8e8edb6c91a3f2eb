// Types as they are spelled.
use crate::source::{Source, bytes_at};
use crate::texts::{put, put_bytes};
use qbs_base::NoMemory;
use view_shapes::{Stretch, dotted_end, is_name, is_sign};

/// How many bytes of a type are spelled at least; then it is left off, so that a long type may be spelled again and again.
const MOST_BYTES: usize = 255;

/// How many angles are open behind an item.
fn angles_behind(source: Source, open: usize, number: usize) -> usize {
    if is_sign("<", source.items, number) {
        open.saturating_add(1)
    } else if is_sign(">", source.items, number) {
        open.saturating_sub(1)
    } else {
        open
    }
}

/// The number behind the angles that open with the item at a number, if they do; at most another number.
pub fn arguments_end(source: Source, from: usize, to: usize) -> usize {
    if !is_sign("<", source.items, from) {
        return from;
    }
    let mut open = 0;
    for number in from..to {
        open = angles_behind(source, open, number);
        if open == 0 {
            return number.saturating_add(1);
        }
    }
    to
}

/// The number behind all pairs of `[` and `]` at a number.
fn arrays_end(source: Source, from: usize, to: usize) -> usize {
    let mut number = from;
    for _ in from..to {
        let next = number.saturating_add(1);
        if !is_sign("[", source.items, number) || !is_sign("]", source.items, next) {
            return number;
        }
        number = next.saturating_add(1);
    }
    number
}

/// The number behind the type that begins at a number, if one does, before another.
pub fn type_end(source: Source, from: usize, to: usize) -> Option<usize> {
    let names = dotted_end(source.items, from)?;
    let arguments = arguments_end(source, names, to);
    let end = arrays_end(source, arguments, to);
    if end < to { Some(end) } else { None }
}

/// Appends a type as it is spelled, with `..` for what stands behind some 255 bytes.
pub fn put_type(out: &mut Vec<u8>, source: Source, ty: Stretch) -> Result<(), NoMemory> {
    let end = out.len().saturating_add(MOST_BYTES);
    let mut after_name = false;
    for number in ty.from..ty.to {
        if out.len() > end {
            return put(out, "..");
        }
        let named = is_name(source.items, number);
        if named && after_name {
            put(out, " ")?;
        }
        put_bytes(out, bytes_at(source, number))?;
        after_name = named;
    }
    Ok(())
}

/// Whether two types are spelled by the same items.
pub fn same_type(source: Source, one: Stretch, other: Stretch) -> bool {
    let len = one.to.saturating_sub(one.from);
    if len != other.to.saturating_sub(other.from) {
        return false;
    }
    for place in 0..len {
        let number = one.from.saturating_add(place);
        if bytes_at(source, number) != bytes_at(source, other.from.saturating_add(place)) {
            return false;
        }
    }
    true
}
