// What bounds the text of a view: no slice is empty, what it prints and is handed stands once, and names that the source doesn't have are short.
ghost use Rattle.std.specs.Prelude.{◌≡◌};
ghost use Rattle.view_slices.specs.Bounds as specs;
ghost use Rattle.view_slices.specs.Reading.{slice as plain, ending as plain_ending};

use view_rules::{Param, is_param};
use view_statements::{Ending, Printed, Slice};

/// How many bytes a name that the source doesn't have may have beside those of a variable.
const MOST_BYTES: usize = 96;

fn holds_items(slice: &Slice) -> bool
    ensures { result ≡ specs.holds_items (plain slice.now) }
{
    slice.from < slice.to
}

// ---- What is printed

fn is_name_printed(name: &[u8], prints: &[Printed]) -> bool
    ensures { result ≡ specs.is_name_printed name.now prints.now }
{
    prints.iter().any(|p| p.name.as_slice() == name)
}

fn are_prints_distinct(prints: &[Printed]) -> bool
    ensures { result ≡ specs.are_prints_distinct prints.now }
{
    let mut rest = prints;
    while let [p, behind @ ..] = rest {
        if is_name_printed(p.name.as_slice(), behind) {
            return false;
        }
        rest = behind;
    }
    true
}

// ---- What is handed over

fn hands_same(p: &Param, q: &Param) -> bool
    ensures { result ≡ specs.hands_same p.now q.now }
{
    is_param(Some(q), p.variable.as_slice(), p.column)
}

fn is_handed_again(p: &Param, params: &[Param]) -> bool
    ensures { result ≡ specs.is_handed_again p.now params.now }
{
    params.iter().any(|q| hands_same(p, q))
}

fn are_params_distinct(params: &[Param]) -> bool
    ensures { result ≡ specs.are_params_distinct params.now }
{
    let mut rest = params;
    while let [p, behind @ ..] = rest {
        if is_handed_again(p, behind) {
            return false;
        }
        rest = behind;
    }
    true
}

// ---- Names that the source doesn't have

fn is_short(count: usize, name: &[u8]) -> bool
    ensures { result ≡ specs.is_short count name.now }
{
    name.len().saturating_sub(count) <= MOST_BYTES
}

fn is_param_short(p: &Param) -> bool
    ensures { result ≡ specs.is_param_short p.now }
{
    is_short(p.variable.len(), p.name.as_slice())
}

fn are_params_short(params: &[Param]) -> bool
    ensures { result ≡ specs.are_params_short params.now }
{
    params.iter().all(|p| is_param_short(p))
}

fn is_ending_short(ending: &Ending) -> bool
    ensures { result ≡ specs.is_ending_short (plain_ending ending.now) }
{
    match ending {
        Ending::Grouped(g) => is_short(0, g.variable.as_slice()),
        Ending::Open | Ending::Returned(_) => true,
    }
}

fn are_names_short(slice: &Slice) -> bool
    ensures { result ≡ specs.are_names_short (plain slice.now) }
{
    are_params_short(slice.params.as_slice())
        && (is_short(0, slice.each.as_slice()) && is_ending_short(&slice.ending))
}

/// Whether the text of what is seen of a slice has a bound. Names of prints and of parameters are compared in pairs.
pub fn is_bounded(slice: &Slice) -> bool
    ensures { result ≡ specs.is_bounded (plain slice.now) }
{
    holds_items(slice)
        && (are_prints_distinct(slice.prints.as_slice())
            && (are_params_distinct(slice.params.as_slice()) && are_names_short(slice)))
}
