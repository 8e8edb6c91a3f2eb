// Paths, steps, derivations and entries, from left to right.
ghost use Rattle.std.specs.Prelude.{◌≡◌, IfOk, IfErr};
ghost use Rattle.readers.specs.Reading.{Gives, is_over};
ghost use Rattle.tor_axioms.specs.Accepts.{Split, proof_of};
ghost use Rattle.deriv_parts.specs.Limits.{most_splits};
ghost use Rattle.deriv_check.specs.Reading as spec;

use crate::number::number;
use deriv_parts::most_splits;
use qbs_base::Items;
use readers::ReadError;
use std::alloc::Global;
use text_readers::{byte, is_next, is_over_at, word};
use tor_axioms::{Derivation, Step};
use tor_terms::TermPath;

// ---- paths and steps

/// `.` and a number.
#[tactic(auto, unfolding(crate::specs::Reading::further_at))]
fn further(bytes: &[u8]) -> Result<(u32, &[u8]), ReadError>
    ensures exact { Gives (λ x. (x.0, x.1.now)) result (spec.further_at bytes.now) }
    ensures no_memory { IfErr result (λ e. e ≡ ReadError.Memory → ⊥) }
{
    let rest = byte(b'.', bytes)?;
    number(rest)
}

/// Whether no path goes on here.
fn ends_path(bytes: &[u8]) -> bool
    ensures { result ≡ is_over spec.ends_path bytes.now }
{
    match bytes {
        [] => true,
        [first, ..] => !(first.is_ascii_digit() || *first == b'.'),
    }
}

/// A path whose first number was read.
fn numbers(mut path: Vec<u32>, bytes: &[u8]) -> Result<(Vec<u32>, &[u8]), ReadError>
    ensures { Gives (λ x. (x.0.items, x.1.now)) result (spec.numbers_behind path.items bytes.now) }
{
    let mut rest = bytes;
    // Each has a byte at least.
    for _ in 0..bytes.len() {
        if ends_path(rest) {
            break;
        }
        let (number, after) = further(rest)?;
        path.push(number)?;
        rest = after;
    }
    Ok((path, rest))
}

#[tactic(auto, unfolding(crate::specs::Reading::path_at, crate::specs::Reading::numbers_behind))]
fn path(alloc: Global, bytes: &[u8]) -> Result<(TermPath, &[u8]), ReadError>
    ensures { Gives (λ x. (x.0, x.1.now)) result (spec.path_at bytes.now) }
{
    if is_next(b'-', bytes) {
        let rest = byte(b'-', bytes)?;
        return Ok((Items::new(alloc), rest));
    }
    let (first, rest) = number(bytes)?;
    let (path, rest) = numbers(vec![in alloc; first]?, rest)?;
    Ok((Items::from_vec(path), rest))
}

#[tactic(auto, unfolding(crate::specs::Reading::step_at))]
fn step(alloc: Global, bytes: &[u8]) -> Result<(Step, &[u8]), ReadError>
    ensures { Gives (λ x. (x.0, x.1.now)) result (spec.step_at bytes.now) }
{
    let (rule, rest) = number(bytes)?;
    let rest = byte(b'@', rest)?;
    let (path, rest) = path(alloc, rest)?;
    Ok((Step { rule, path }, rest))
}

/// A step and a space.
#[tactic(auto, unfolding(crate::specs::Reading::left_at))]
fn left_step(alloc: Global, bytes: &[u8]) -> Result<(Step, &[u8]), ReadError>
    ensures { Gives (λ x. (x.0, x.1.now)) result (spec.left_at bytes.now) }
{
    let (step, rest) = step(alloc, bytes)?;
    let rest = byte(b' ', rest)?;
    Ok((step, rest))
}

/// A space and a step.
#[tactic(auto, unfolding(crate::specs::Reading::right_at))]
fn right_step(alloc: Global, bytes: &[u8]) -> Result<(Step, &[u8]), ReadError>
    ensures { Gives (λ x. (x.0, x.1.now)) result (spec.right_at bytes.now) }
{
    let rest = byte(b' ', bytes)?;
    step(alloc, rest)
}

/// Steps up to a slash.
fn left_steps(alloc: Global, bytes: &[u8]) -> Result<(Vec<Step>, &[u8]), ReadError>
    ensures { Gives (λ x. (x.0.items, x.1.now)) result (spec.lefts_at bytes.now) }
{
    let mut steps = Vec::new(alloc);
    let mut rest = bytes;
    // Each has a byte at least.
    for _ in 0..bytes.len() {
        if is_over_at(b'/', rest) {
            break;
        }
        let (step, after) = left_step(alloc, rest)?;
        steps.push(step)?;
        rest = after;
    }
    Ok((steps, rest))
}

/// Steps up to the end of the line.
fn right_steps(alloc: Global, bytes: &[u8]) -> Result<(Vec<Step>, &[u8]), ReadError>
    ensures { Gives (λ x. (x.0.items, x.1.now)) result (spec.rights_at bytes.now) }
{
    let mut steps = Vec::new(alloc);
    let mut rest = bytes;
    // Each has a byte at least.
    for _ in 0..bytes.len() {
        if is_over_at(b'\n', rest) {
            break;
        }
        let (step, after) = right_step(alloc, rest)?;
        steps.push(step)?;
        rest = after;
    }
    Ok((steps, rest))
}

// ---- derivations

#[tactic(auto, unfolding(crate::specs::Reading::steps_at))]
fn steps(alloc: Global, bytes: &[u8]) -> Result<(Derivation, &[u8]), ReadError>
    ensures { Gives (λ x. (proof_of x.0, x.1.now)) result (spec.steps_at bytes.now) }
{
    let rest = word(b"s ", bytes)?;
    let (left, rest) = left_steps(alloc, rest)?;
    let rest = byte(b'/', rest)?;
    let (right, rest) = right_steps(alloc, rest)?;
    let rest = byte(b'\n', rest)?;
    let derivation = Derivation::Steps {
        left: Items::from_vec(left),
        right: Items::from_vec(right),
    };
    Ok((derivation, rest))
}

#[tactic(auto, unfolding(crate::specs::Reading::absurd_at))]
fn absurd(bytes: &[u8]) -> Result<(Derivation, &[u8]), ReadError>
    ensures exact { Gives (λ x. (proof_of x.0, x.1.now)) result (spec.absurd_at bytes.now) }
    ensures no_memory { IfErr result (λ e. e ≡ ReadError.Memory → ⊥) }
{
    let rest = word(b"!\n", bytes)?;
    Ok((Derivation::Absurd, rest))
}

fn joined(
    alloc: Global,
    atom: u32,
    yes: Derivation,
    no: Derivation,
) -> Result<Derivation, ReadError>
    ensures ok { IfOk result (λ d. proof_of d ≡ Split atom (proof_of yes) (proof_of no)) }
    ensures err { IfErr result (λ e. e ≡ ReadError.Memory) }
{
    Ok(Derivation::Split {
        atom,
        yes: Box::new(alloc, yes)?,
        no: Box::new(alloc, no)?,
    })
}

/// The line of a split: its atom.
#[tactic(auto, unfolding(crate::specs::Reading::choice_at))]
fn choice(bytes: &[u8]) -> Result<(u32, &[u8]), ReadError>
    ensures exact { Gives (λ x. (x.0, x.1.now)) result (spec.choice_at bytes.now) }
    ensures no_memory { IfErr result (λ e. e ≡ ReadError.Memory → ⊥) }
{
    let rest = word(b"? ", bytes)?;
    let (atom, rest) = number(rest)?;
    let rest = byte(b'\n', rest)?;
    Ok((atom, rest))
}

/// A derivation with so many splits inside of each other at most.
#[tactic(auto, unfolding(crate::specs::Reading::derivation_at, crate::specs::Reading::split_in))]
pub fn derivation(alloc: Global, room: u32, bytes: &[u8]) -> Result<(Derivation, &[u8]), ReadError>
    ensures { Gives (λ x. (proof_of x.0, x.1.now)) result (spec.derivation_at room bytes.now) }
{
    if is_next(b's', bytes) {
        return steps(alloc, bytes);
    }
    if room == 0 || !is_next(b'?', bytes) {
        return absurd(bytes);
    }
    let (atom, rest) = choice(bytes)?;
    let (yes, rest) = derivation(alloc, room - 1, rest)?;
    let (no, rest) = derivation(alloc, room - 1, rest)?;
    Ok((joined(alloc, atom, yes, no)?, rest))
}

/// A derivation with as many splits inside of each other as a text may have.
pub fn derivation_within(alloc: Global, bytes: &[u8]) -> Result<(Derivation, &[u8]), ReadError>
    ensures { Gives (λ x. (proof_of x.0, x.1.now)) result (spec.derivation_at most_splits bytes.now) }
{
    derivation(alloc, most_splits(), bytes)
}
