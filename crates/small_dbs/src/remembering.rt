// The pruner over small databases, with those of the fragment that it was asked about last.
ghost use Rattle.std.specs.Prelude.{◌≡◌, ◌↔◌, IsTrue, IfOk, OnOk, Some, length, option_map};
ghost use Rattle.kernel_lang.specs.Pools.{IsCandidateOf};
ghost use Rattle.kernel_lang.specs.Refuted.{IsRefuted};
ghost use Rattle.kernel_lang.specs.Whole.{fragment_of};
ghost use Rattle.kernel_lang.specs.declared.prune.PruneAnswer.TheVariants as answers;
ghost use Rattle.small_dbs.specs.Pruned.{IsDropped, IsPruned};
ghost use Rattle.small_dbs.specs.Remembered as spec;

use crate::endings::Endings;
use crate::fitting::fits;
use crate::made::small_dbs;
use crate::readied::one_refutes;
use crate::small::SmallDbs;
use kernel_copies::{copy_fragment, same_fragment};
use kernel_lang::{Candidate, KFragment, PruneAnswer};
use prune_steps::answered;
use qbs_base::{Items, NoMemory};
use schema::Schema;
use std::alloc::Global;

/// A pruner over the small databases of fragments. Of the fragment that it was asked about last it has a copy, the databases, none where the
/// fragment doesn't fit the schema, and what the fragment ends with on the first of them: so they are made once for all candidates of a
/// fragment that are asked about one after another.
#[derive(Drop)]
pub struct Remembering {
    schema: Schema,
    frag: Option<Box<KFragment>>,
    smalls: SmallDbs,
    endings: Endings,
    ghost own: { smalls ≡ spec.smalls_for schema (option_map (λ f. fragment_of f.value) frag) },
    ghost known: { endings ≡ spec.endings_for (option_map (λ f. fragment_of f.value) frag) smalls (length endings) },
}

// The small databases of a fragment, none where it doesn't fit the schema.
fn smalls_if_typed(alloc: Global, schema: &Schema, frag: &KFragment) -> Result<SmallDbs, NoMemory>
    ensures { IfOk result (λ all. all ≡ spec.smalls_for schema.now (Some (fragment_of frag.now))) }
{
    if !fits(schema, frag) {
        return Ok(Items::new(alloc));
    }
    small_dbs(alloc, schema, frag)
}

impl Remembering {
    /// A pruner over this schema that wasn't asked yet. It takes no memory.
    pub fn new(alloc: Global, schema: Schema) -> Remembering
        ensures { result.schema ≡ schema }
    {
        Remembering {
            schema,
            frag: None,
            smalls: Items::new(alloc),
            endings: Items::new(alloc),
        }
    }

    // Whether a fragment is the one that was asked about last.
    fn is_for(&self, frag: &KFragment) -> bool
        ensures { IsTrue result → option_map (λ f. fragment_of f.value) self.now.frag ≡ Some (fragment_of frag.now) }
    {
        match &self.frag {
            None => false,
            Some(own) => same_fragment(own, frag),
        }
    }

    // Turns to a fragment, whose small databases are made where it isn't the last one.
    fn turn_to(&mut self, alloc: Global, frag: &KFragment) -> Result<(), NoMemory>
        ensures schema { self.new.schema ≡ self.old.schema }
        ensures frag { OnOk result (option_map (λ f. fragment_of f.value) self.new.frag ≡ Some (fragment_of frag.now)) }
    {
        if self.is_for(frag) {
            return Ok(());
        }
        let copy = copy_fragment(alloc, frag)?;
        let smalls = smalls_if_typed(alloc, &self.schema, frag)?;
        self.frag = Some(copy);
        self.smalls = smalls;
        self.endings = Items::new(alloc);
        Ok(())
    }

    // Whether a candidate is dropped.
    fn drops(&mut self, alloc: Global, frag: &KFragment, cand: &Candidate) -> Result<bool, NoMemory>
        requires { IsCandidateOf (fragment_of frag.now) cand.now }
        ensures schema { self.new.schema ≡ self.old.schema }
        ensures exact { IfOk result (λ b. IsTrue b ↔ IsDropped self.old.schema (fragment_of frag.now) cand.now) }
    {
        self.turn_to(alloc, frag)?;
        one_refutes(alloc, frag, cand, self.smalls.as_slice(), &mut self.endings)
    }

    /// What the small databases of a fragment say of a candidate, as `prune` does: `Drop` exactly where the fragment fits the schema and one of
    /// the eight refutes the candidate, and else `Keep`. `NoMemory` is want of memory alone.
    pub fn ask(&mut self, alloc: Global, frag: &KFragment, cand: &Candidate) -> PruneAnswer
        requires { IsCandidateOf (fragment_of frag.now) cand.now }
        ensures schema { self.new.schema ≡ self.old.schema }
        ensures exact { IsPruned self.old.schema (fragment_of frag.now) cand.now result }
        ensures justified { result ≡ answers.Drop → ∥ IsRefuted (fragment_of frag.now) cand.now ∥₁ }
    {
        answered(Some(self.drops(alloc, frag, cand)))
    }
}
