// The entries of a bundle, from left to right.
ghost use Rattle.std.specs.Prelude.{◌≡◌, map, IfErr};
ghost use Rattle.readers.specs.Reading.{Gives, is_over};
ghost use Rattle.tor_axioms.specs.Accepts.{proof_of};
ghost use Rattle.deriv_check.specs.Bundles.{entry_of, entries_of};
ghost use Rattle.deriv_check.specs.Reading as spec;

use crate::bundle::BundleEntry;
use crate::number::number;
use crate::reading::derivation_within;
use qbs_base::Items;
use readers::ReadError;
use std::alloc::Global;
use text_readers::{byte, is_over_at, word};
use tor_axioms::Derivation;

/// Whether no derivation goes on here: a loop, the end of the bundle, or the end of the bytes.
fn ends_proofs(bytes: &[u8]) -> bool
    ensures { result ≡ is_over spec.ends_proofs bytes.now }
{
    match bytes {
        [] => true,
        [first, ..] => *first == b'l' || *first == b'e',
    }
}

fn proofs(alloc: Global, bytes: &[u8]) -> Result<(Vec<Derivation>, &[u8]), ReadError>
    ensures { Gives (λ x. (map proof_of x.0.items, x.1.now)) result (spec.proofs_at bytes.now) }
{
    let mut proofs = Vec::new(alloc);
    let mut rest = bytes;
    // Each has a byte at least.
    for _ in 0..bytes.len() {
        if ends_proofs(rest) {
            break;
        }
        let (proof, after) = derivation_within(alloc, rest)?;
        proofs.push(proof)?;
        rest = after;
    }
    Ok((proofs, rest))
}

/// The line of a loop: its line and column, and the number of its candidate.
#[tactic(auto, unfolding(crate::specs::Reading::head_at))]
fn head(bytes: &[u8]) -> Result<((u32, u32, u32), &[u8]), ReadError>
    ensures exact { Gives (λ x. (x.0, x.1.now)) result (spec.head_at bytes.now) }
    ensures no_memory { IfErr result (λ e. e ≡ ReadError.Memory → ⊥) }
{
    let rest = word(b"loop ", bytes)?;
    let (line, rest) = number(rest)?;
    let rest = byte(b':', rest)?;
    let (column, rest) = number(rest)?;
    let rest = byte(b' ', rest)?;
    let (k, rest) = number(rest)?;
    let rest = byte(b'\n', rest)?;
    Ok(((line, column, k), rest))
}

#[tactic(auto, unfolding(crate::specs::Reading::entry_at))]
fn entry(alloc: Global, bytes: &[u8]) -> Result<(BundleEntry, &[u8]), ReadError>
    ensures { Gives (λ x. (entry_of x.0, x.1.now)) result (spec.entry_at bytes.now) }
{
    let ((line, column, k), rest) = head(bytes)?;
    let (proofs, rest) = proofs(alloc, rest)?;
    let entry = BundleEntry {
        line: line as u64,
        column: column as u64,
        k,
        proofs: Items::from_vec(proofs),
    };
    Ok((entry, rest))
}

fn entries(alloc: Global, bytes: &[u8]) -> Result<(Vec<BundleEntry>, &[u8]), ReadError>
    ensures { Gives (λ x. (entries_of x.0.items, x.1.now)) result (spec.entries_at bytes.now) }
{
    let mut entries = Vec::new(alloc);
    let mut rest = bytes;
    // Each has a byte at least.
    for _ in 0..bytes.len() {
        if is_over_at(b'e', rest) {
            break;
        }
        let (entry, after) = entry(alloc, rest)?;
        entries.push(entry)?;
        rest = after;
    }
    Ok((entries, rest))
}

/// The entries of a bundle, and what stands behind its last line.
#[tactic(auto, unfolding(crate::specs::Reading::bundle_at))]
pub fn bundle(alloc: Global, bytes: &[u8]) -> Result<(Vec<BundleEntry>, &[u8]), ReadError>
    ensures { Gives (λ x. (entries_of x.0.items, x.1.now)) result (spec.bundle_at bytes.now) }
{
    let rest = word(b"qbs 1\n", bytes)?;
    let (entries, rest) = entries(alloc, rest)?;
    let rest = word(b"end\n", rest)?;
    Ok((entries, rest))
}
