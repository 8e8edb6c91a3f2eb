// Names that are taken, and why a name isn't.
ghost use Rattle.std.specs.Prelude.{◌≡◌, ◌++◌, OnOk};
ghost use Rattle.std.specs.Option.{option_copied};
ghost use Rattle.std.specs.Str.{bytes_eq, str_eq_ignore_ascii_case};
ghost use Rattle.schema.specs.Words.{is_among as is_among_names};
ghost use Rattle.dump_schema.specs.Names as specs;

use crate::Reason;
use qbs_base::{Bytes, NoMemory};

pub fn is_among(names: &[Bytes], name: &[u8]) -> bool
    ensures { result ≡ is_among_names bytes_eq names.now name.now }
{
    for other in names {
        if other.as_slice() == name {
            return true;
        }
    }
    false
}

/// Why a name isn't taken behind these, of which there may be so many.
pub fn reason_for(
    reserved: bool,
    most: usize,
    many: Reason,
    taken: &[Bytes],
    name: &[u8],
) -> Option<Reason>
    ensures { result ≡ specs.reason_of reserved most many taken.now name.now }
{
    if reserved {
        Some(Reason::Reserved)
    } else if is_among(taken, name) {
        Some(Reason::Twice)
    } else if taken.len() >= most {
        Some(many)
    } else {
        None
    }
}

/// Whether texts are one but for the case of letters.
fn same_letters(a: &[u8], b: &[u8]) -> bool
    ensures { result ≡ str_eq_ignore_ascii_case a.now b.now }
{
    a.eq_ignore_ascii_case(b)
}

/// The first of the names that differs from a name by letter case alone, where it isn't that name.
pub fn twin<'a>(taken: &'a [Bytes], name: &[u8]) -> Option<&'a [u8]>
    ensures { option_copied result ≡ specs.twin_of taken.now name.now }
{
    for other in taken {
        if same_letters(other.as_slice(), name) {
            return Some(other.as_slice());
        }
    }
    None
}

#[tactic(auto, unfolding(crate::specs::Names::reason_text))]
fn reason_text(reason: Reason) -> &'static str
    ensures { result.now ≡ specs.reason_text reason }
{
    match reason {
        Reason::NoType => "no type of the language",
        Reason::NoName => "no name of the language; a view with other names is the cure",
        Reason::Reserved => "a reserved word; a view with other names is the cure",
        Reason::Twice => "declared twice",
        Reason::ManyColumns => "more than 32 columns; --columns chooses",
        Reason::ManyTables => "more than 64 tables; --tables chooses",
        Reason::NoColumn => "no column is left",
    }
}

pub fn push_str(out: &mut Vec<u8>, text: &str) -> Result<(), NoMemory>
    ensures { OnOk result (out.new.items ≡ out.old.items ++ text.now) }
{
    out.extend_from_slice(text.as_bytes())?;
    Ok(())
}

pub fn push_pair(out: &mut Vec<u8>, front: &str, back: &str) -> Result<(), NoMemory>
    ensures { OnOk result (out.new.items ≡ out.old.items ++ (front.now ++ back.now)) }
{
    push_str(out, front)?;
    push_str(out, back)?;
    Ok(())
}

/// Appends some text, bytes, and some more text.
pub fn push_around(
    out: &mut Vec<u8>,
    front: &str,
    middle: &[u8],
    back: &str,
) -> Result<(), NoMemory>
    ensures { OnOk result (out.new.items ≡ out.old.items ++ (front.now ++ (middle.now ++ back.now))) }
{
    push_str(out, front)?;
    out.extend_from_slice(middle)?;
    push_str(out, back)?;
    Ok(())
}

#[tactic(auto, unfolding(crate::specs::Names::left_out_text))]
pub fn push_left_out(out: &mut Vec<u8>, reason: Reason) -> Result<(), NoMemory>
    ensures { OnOk result (out.new.items ≡ out.old.items ++ specs.left_out_text reason) }
{
    push_pair(out, ": left out, ", reason_text(reason))
}

#[tactic(auto, unfolding(crate::specs::Names::twin_text))]
pub fn push_twin(out: &mut Vec<u8>, twin: &[u8]) -> Result<(), NoMemory>
    ensures { OnOk result (out.new.items ≡ out.old.items ++ specs.twin_text twin.now) }
{
    push_around(out, "differs from ", twin, " by letter case alone")
}

/// Appends some text, a name, and why what has it is left out.
pub fn push_left_out_of(
    out: &mut Vec<u8>,
    front: &str,
    name: &[u8],
    reason: Reason,
) -> Result<(), NoMemory>
    ensures { OnOk result (out.new.items ≡ out.old.items ++ (front.now ++ (name.now ++ specs.left_out_text reason))) }
{
    push_str(out, front)?;
    out.extend_from_slice(name)?;
    push_left_out(out, reason)?;
    Ok(())
}

/// Appends a text before others.
pub fn push_named(
    out: &mut Vec<u8>,
    option: &str,
    front: &str,
    name: &[u8],
    back: &str,
) -> Result<(), NoMemory>
    ensures { OnOk result (out.new.items ≡ out.old.items ++ (option.now ++ (front.now ++ (name.now ++ back.now)))) }
{
    push_str(out, option)?;
    push_around(out, front, name, back)?;
    Ok(())
}
