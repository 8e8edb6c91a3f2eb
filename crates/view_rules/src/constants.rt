// Literals and constants as expressions.
ghost use Rattle.std.specs.Prelude.{◌≡◌, option_copied};
ghost use Rattle.view_rules.specs.Names as specs;
ghost use Rattle.view_rules.specs.Seen as seen;
ghost use Rattle.view_rules.specs.Setting.{within_of};

use crate::decisions::unboxed_type;
use crate::literals::{is_value, literal_kind, number_kind};
use crate::steps::{bytes_at, here, is_number_among, next, past};
use crate::{ClassConstant, JavaType, Within};
use qbs_base::Name;
use view_map::Constant;

pub fn literal_at(w: &Within, at: usize, i: usize) -> Option<(usize, JavaType)>
    ensures { result ≡ seen.literal_at (within_of w.now) at i }
{
    let h = here(at, i)?;
    let kind = literal_kind(bytes_at(w, h))?;
    let j = next(w, h)?;
    Some((j, unboxed_type(kind)))
}

pub fn negative_at(w: &Within, at: usize, digits: usize, i: usize) -> Option<(usize, JavaType)>
    ensures { result ≡ seen.negative_at (within_of w.now) at digits i }
{
    let h = here(at, i)?;
    let j = past(w, b"-", h)?;
    let d = here(digits, j)?;
    let kind = number_kind(true, bytes_at(w, d))?;
    let k = next(w, d)?;
    Some((k, unboxed_type(kind)))
}

fn constant_at(w: &Within, constant: Option<&ClassConstant>, i: usize) -> Option<(usize, JavaType)>
    ensures { result ≡ specs.constant_at (within_of w.now) (option_copied constant.entry) i }
{
    match constant {
        Some(c) => {
            let j = past(w, c.name.as_slice(), i)?;
            if is_value(&c.value) {
                Some((j, unboxed_type(c.kind)))
            } else {
                None
            }
        }
        None => None,
    }
}

pub fn class_constant_at(
    w: &Within,
    at: usize,
    number: usize,
    i: usize,
) -> Option<(usize, JavaType)>
    ensures { result ≡ seen.class_constant_at (within_of w.now) at number i }
{
    constant_at(w, w.constants.get(number), here(at, i)?)
}

fn past_names(w: &Within, names: &[Name], i: usize) -> Option<usize>
    ensures { result ≡ specs.past_names (within_of w.now) names.now i }
{
    let mut j = i;
    for name in names {
        j = past(w, name.as_slice(), past(w, b".", j)?)?;
    }
    Some(j)
}

fn past_dotted(w: &Within, names: &[Name], i: usize) -> Option<usize>
    ensures { result ≡ specs.past_dotted (within_of w.now) names.now i }
{
    match names {
        [] => None,
        [name, names @ ..] => past_names(w, names, past(w, name.as_slice(), i)?),
    }
}

fn map_constant(w: &Within, constant: Option<&Constant>, i: usize) -> Option<(usize, JavaType)>
    ensures { result ≡ specs.map_constant (within_of w.now) (option_copied constant.entry) i }
{
    match constant {
        Some(c) => {
            let j = past_dotted(w, c.names.as_slice(), i)?;
            if is_value(&c.value) {
                Some((j, unboxed_type(c.kind)))
            } else {
                None
            }
        }
        None => None,
    }
}

pub fn map_constant_at(w: &Within, at: usize, number: u32, i: usize) -> Option<(usize, JavaType)>
    ensures { result ≡ seen.map_constant_from (within_of w.now) at number i }
{
    let h = here(at, i)?;
    if is_number_among(number, w.map_constants) {
        map_constant(w, w.map.constants.as_slice().get(number as usize), h)
    } else {
        None
    }
}
