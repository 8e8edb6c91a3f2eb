// Bundles: the loops that were rewritten, with their candidates and derivations.
use qbs_base::Items;
use tor_axioms::Derivations;

/// A loop by its place, the number of its candidate, and a derivation for each condition of that
/// candidate.
#[derive(Drop)]
pub struct BundleEntry {
    pub line: u64,
    pub column: u64,
    pub k: u32,
    pub proofs: Derivations,
}

pub type Bundle = Items<BundleEntry>;
