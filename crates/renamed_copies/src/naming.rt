// Names of a helper's variables at the place of a call.
ghost use Rattle.std.specs.Prelude.{◌≡◌, ◌++◌, ◌+◌, ◌<◌, IfOk, OnOk, map, string_bytes};
ghost use Rattle.std.specs.Int.Digits.{digits_of};
ghost use Rattle.call_parts.specs.Marks.{mark_of};
ghost use Rattle.renamed_copies.specs.Renamings.{renaming_of};

use itoa::Buffer;
use qbs_base::{Name, NoMemory, Text, copy_text};
use std::alloc::Global;

/// How variables are called: as they are, or with the mark of a number, but for the one that takes another name.
#[derive(Drop)]
pub enum Renaming {
    AsTheyAre,
    Marked(u64),
    MarkedBut(Name, Name, u64),
}

#[tactic(auto, using(crate::proofs::Digits::digits))]
fn push_digits(out: &mut String, number: u64) -> Result<(), NoMemory>
    requires { 0 < number }
    ensures { OnOk result (string_bytes out.new ≡ string_bytes out.old ++ map (λ d. 48 + d) (digits_of 10 number)) }
{
    let mut buffer = Buffer::new();
    out.push_str(buffer.format(number))?;
    Ok(())
}

/// Appends the mark of a number: `_` and its digits, of which 0 has none.
#[tactic(auto, using(crate::proofs::Digits::no_digits))]
fn push_mark(out: &mut String, number: u64) -> Result<(), NoMemory>
    ensures { OnOk result (string_bytes out.new ≡ string_bytes out.old ++ mark_of number) }
{
    out.push_str("_")?;
    if number > 0 {
        push_digits(out, number)?;
    }
    Ok(())
}

/// The mark of a number.
pub fn mark(alloc: Global, number: u64) -> Result<Text, NoMemory>
    ensures { IfOk result (λ m. m ≡ mark_of number) }
{
    let mut out = String::new(alloc);
    push_mark(&mut out, number)?;
    Ok(Text::from_string(out))
}

fn marked(alloc: Global, number: u64, x: &Name) -> Result<Name, NoMemory>
    ensures { IfOk result (λ y. y ≡ x.now ++ mark_of number) }
{
    let mut out = String::from_str(alloc, x.as_str())?;
    push_mark(&mut out, number)?;
    Ok(Text::from_string(out))
}

/// The new name of a variable.
pub fn new_name(alloc: Global, f: &Renaming, x: &Name) -> Result<Name, NoMemory>
    ensures { IfOk result (λ y. y ≡ renaming_of f.now x.now) }
{
    match f {
        Renaming::AsTheyAre => copy_text(alloc, x),
        Renaming::Marked(number) => marked(alloc, *number, x),
        Renaming::MarkedBut(kept, to, number) => {
            if *kept == *x {
                copy_text(alloc, to)
            } else {
                marked(alloc, *number, x)
            }
        }
    }
}
