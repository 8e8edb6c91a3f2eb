// The texts of derivations and bundles.
ghost use Rattle.std.specs.Prelude.{◌≡◌, ◌++◌, IfOk, OnOk, string_bytes, map};
ghost use Rattle.std.specs.Fmt.{decimal};
ghost use Rattle.std.specs.List.{flat_map};
ghost use Rattle.tor_axioms.specs.Accepts.{proof_of};
ghost use Rattle.text_readers.specs.Offsets.{Each};
ghost use Rattle.deriv_check.specs.Bundles.{entry_of, entries_of};
ghost use Rattle.deriv_check.specs.Texts.{further_text, path_text, step_text, left_text, right_text, split_text, derivation_text, loop_text, entry_text, bundle_text};
ghost use Rattle.deriv_check.specs.Grammar.{HasDerivation, HasBundle, IsWritable, IsWritableEntry};

use crate::bundle::{Bundle, BundleEntry};
use itoa::Buffer;
use qbs_base::{NoMemory, Text};
use std::alloc::{AllocError, Global};
use tor_axioms::{Derivation, Step};
use tor_terms::TermPath;

fn push_number(out: &mut String, number: u64) -> Result<(), AllocError>
    ensures { OnOk result (string_bytes out.new ≡ string_bytes out.old ++ decimal number) }
{
    let mut buffer = Buffer::new();
    out.push_str(buffer.format(number))
}

fn push_further(out: &mut String, numbers: &[u32]) -> Result<(), AllocError>
    ensures { OnOk result (string_bytes out.new ≡ string_bytes out.old ++ flat_map further_text numbers.now) }
{
    for number in numbers {
        out.push_str(".")?;
        push_number(out, *number as u64)?;
    }
    Ok(())
}

fn push_path(out: &mut String, path: &TermPath) -> Result<(), AllocError>
    ensures { OnOk result (string_bytes out.new ≡ string_bytes out.old ++ path_text path.now) }
{
    match path.as_slice() {
        [] => out.push_str("-"),
        [first, rest @ ..] => {
            push_number(out, *first as u64)?;
            push_further(out, rest)
        }
    }
}

fn push_step(out: &mut String, step: &Step) -> Result<(), AllocError>
    ensures { OnOk result (string_bytes out.new ≡ string_bytes out.old ++ step_text step.now) }
{
    push_number(out, step.rule as u64)?;
    out.push_str("@")?;
    push_path(out, &step.path)
}

fn push_left(out: &mut String, steps: &[Step]) -> Result<(), AllocError>
    ensures { OnOk result (string_bytes out.new ≡ string_bytes out.old ++ flat_map left_text steps.now) }
{
    for step in steps {
        push_step(out, step)?;
        out.push_str(" ")?;
    }
    Ok(())
}

fn push_right(out: &mut String, steps: &[Step]) -> Result<(), AllocError>
    ensures { OnOk result (string_bytes out.new ≡ string_bytes out.old ++ flat_map right_text steps.now) }
{
    for step in steps {
        out.push_str(" ")?;
        push_step(out, step)?;
    }
    Ok(())
}

fn push_split(out: &mut String, atom: u32) -> Result<(), AllocError>
    ensures { OnOk result (string_bytes out.new ≡ string_bytes out.old ++ split_text atom) }
{
    out.push_str("? ")?;
    push_number(out, atom as u64)?;
    out.push_str("\n")
}

fn push_derivation(out: &mut String, derivation: &Derivation) -> Result<(), AllocError>
    ensures { OnOk result (string_bytes out.new ≡ string_bytes out.old ++ derivation_text (proof_of derivation.now)) }
{
    match derivation {
        Derivation::Steps { left, right } => {
            out.push_str("s ")?;
            push_left(out, left.as_slice())?;
            out.push_str("/")?;
            push_right(out, right.as_slice())?;
            out.push_str("\n")
        }
        Derivation::Split { atom, yes, no } => {
            push_split(out, *atom)?;
            push_derivation(out, yes)?;
            push_derivation(out, no)
        }
        Derivation::Absurd => out.push_str("!\n"),
    }
}

fn push_derivations(out: &mut String, derivations: &[Derivation]) -> Result<(), AllocError>
    ensures { OnOk result (string_bytes out.new ≡ string_bytes out.old ++ flat_map derivation_text (map proof_of derivations.now)) }
{
    for derivation in derivations {
        push_derivation(out, derivation)?;
    }
    Ok(())
}

fn push_loop(out: &mut String, entry: &BundleEntry) -> Result<(), AllocError>
    ensures { OnOk result (string_bytes out.new ≡ string_bytes out.old ++ loop_text entry.now.line entry.now.column entry.now.k) }
{
    out.push_str("loop ")?;
    push_number(out, entry.line)?;
    out.push_str(":")?;
    push_number(out, entry.column)?;
    out.push_str(" ")?;
    push_number(out, entry.k as u64)?;
    out.push_str("\n")
}

fn push_entry(out: &mut String, entry: &BundleEntry) -> Result<(), AllocError>
    ensures { OnOk result (string_bytes out.new ≡ string_bytes out.old ++ entry_text (entry_of entry.now)) }
{
    push_loop(out, entry)?;
    push_derivations(out, entry.proofs.as_slice())
}

fn push_entries(out: &mut String, entries: &[BundleEntry]) -> Result<(), AllocError>
    ensures { OnOk result (string_bytes out.new ≡ string_bytes out.old ++ flat_map entry_text (entries_of entries.now)) }
{
    for entry in entries {
        push_entry(out, entry)?;
    }
    Ok(())
}

/// The lines of a derivation, each ended by a line feed: the one text that it has.
pub fn print_derivation(alloc: Global, d: &Derivation) -> Result<Text, NoMemory>
    ensures text { IfOk result (λ text. text ≡ derivation_text (proof_of d.now)) }
    ensures member { IfOk result (λ text. IsWritable (proof_of d.now) → HasDerivation text (proof_of d.now)) }
{
    let mut out = String::new(alloc);
    push_derivation(&mut out, d)?;
    Ok(Text::from_string(out))
}

/// The lines of a bundle, each ended by a line feed: the one text that it has.
pub fn print_bundle(alloc: Global, b: &Bundle) -> Result<Text, NoMemory>
    ensures text { IfOk result (λ text. text ≡ bundle_text (entries_of b.now)) }
    ensures member { IfOk result (λ text. Each IsWritableEntry (entries_of b.now) → HasBundle text (entries_of b.now)) }
{
    let mut out = String::new(alloc);
    out.push_str("qbs 1\n")?;
    push_entries(&mut out, b.as_slice())?;
    out.push_str("end\n")?;
    Ok(Text::from_string(out))
}
