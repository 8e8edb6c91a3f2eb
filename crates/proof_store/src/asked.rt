// What a bank answers of the candidates of a fragment, one after another.
ghost use Rattle.std.specs.Prelude.{◌≡◌, ◌↔◌, List, Some, [], IsTrue, IfOk, OnOk, length, option_map};
ghost use Rattle.kernel_lang.specs.Pools.{IsCandidateOf};
ghost use Rattle.kernel_lang.specs.Refuted.{IsRefuted};
ghost use Rattle.kernel_lang.specs.Whole.{fragment_of};
ghost use Rattle.kernel_lang.specs.declared.prune.PruneAnswer.TheVariants as answers;
ghost use Rattle.small_dbs.specs.declared.small.SmallDb.{SmallDb as Item};
ghost use Rattle.small_dbs.specs.Pruned.{OneRefutes};
ghost use Rattle.small_dbs.specs.Remembered.{endings_for};
ghost use Rattle.proof_store.specs.Asked.{IsAnswered};

use crate::bank::Bank;
use kernel_copies::{copy_fragment, same_fragment};
use kernel_lang::{Candidate, KFragment, PruneAnswer};
use prune_steps::answered;
use qbs_base::{Items, NoMemory};
use small_dbs::{Endings, SmallDb, one_refutes};
use std::alloc::Global;
use std::cell::Cell;
use std::marker::{Brand, PhantomData};

/// What a bank holds, for a type that stands for it: the items of the bank are picked where it is first asked.
pub trait Held {
    ghost items: { List Item };
}

impl Held for Brand {
    ghost items = { [] };
}

// What is remembered of a bank: a copy of the fragment that it was asked about last, and what that ends with on the first items, each found
// once for all candidates of a fragment that are asked about one after another.
#[derive(Drop)]
struct Remembered<B: Held> {
    frag: Option<Box<KFragment>>,
    endings: Endings,
    bank: PhantomData<B>,
    ghost known: { endings ≡ endings_for (option_map (λ f. fragment_of f.value) frag) B.items (length endings) },
}

impl<B: Held> Remembered<B> {
    // Nothing yet.
    fn new(alloc: Global) -> Remembered<B> {
        Remembered {
            frag: None,
            endings: Items::new(alloc),
            bank: PhantomData,
        }
    }

    // Whether a fragment is the one that was asked about last.
    fn is_for(&self, frag: &KFragment) -> bool
        ensures { IsTrue result → option_map (λ f. fragment_of f.value) self.now.frag ≡ Some (fragment_of frag.now) }
    {
        match &self.frag {
            None => false,
            Some(own) => same_fragment(own, frag),
        }
    }

    // Turns to a fragment: where it isn't the last one, nothing is known of it.
    fn turn_to(&mut self, alloc: Global, frag: &KFragment) -> Result<(), NoMemory>
        ensures { OnOk result (option_map (λ f. fragment_of f.value) self.new.frag ≡ Some (fragment_of frag.now)) }
    {
        if self.is_for(frag) {
            return Ok(());
        }
        let copy = copy_fragment(alloc, frag)?;
        self.frag = Some(copy);
        self.endings = Items::new(alloc);
        Ok(())
    }

    // Whether some item refutes a candidate of a fragment.
    fn refutes(
        &mut self,
        alloc: Global,
        items: &[SmallDb],
        frag: &KFragment,
        cand: &Candidate,
    ) -> Result<bool, NoMemory>
        requires candidate { IsCandidateOf (fragment_of frag.now) cand.now }
        requires items { items.now ≡ B.items }
        ensures exact { IfOk result (λ b. IsTrue b ↔ OneRefutes (fragment_of frag.now) cand.now B.items) }
    {
        self.turn_to(alloc, frag)?;
        one_refutes(alloc, frag, cand, items, &mut self.endings)
    }
}

/// A bank that is asked about candidates. What a fragment ends with on an item is found once for all candidates of the fragment that are asked
/// about one after another.
#[derive(Drop)]
pub struct AskedBank<'b, B: Held> {
    bank: &'b Bank,
    kept: Cell<Option<Remembered<B>>>,
    ghost own: { bank.now ≡ B.items },
}

impl<'b, B: Held> AskedBank<'b, B> {
    /// A bank that wasn't asked yet. It takes no memory.
    pub fn new(bank: &'b Bank) -> AskedBank<'b, B>
        requires { bank.now ≡ B.items }
    {
        AskedBank {
            bank,
            kept: Cell::new(None),
        }
    }

    // Whether some item refutes a candidate.
    fn refutes(&self, alloc: Global, frag: &KFragment, cand: &Candidate) -> Result<bool, NoMemory>
        requires { IsCandidateOf (fragment_of frag.now) cand.now }
        ensures { IfOk result (λ b. IsTrue b ↔ OneRefutes (fragment_of frag.now) cand.now B.items) }
    {
        let mut own = match self.kept.take() {
            Some(own) => own,
            None => Remembered::new(alloc),
        };
        let refuted = own.refutes(alloc, self.bank.items(), frag, cand);
        self.kept.set(Some(own));
        refuted
    }

    /// What a bank answers of a candidate: `Drop` exactly where some item refutes it, and else `Keep`: an item refutes it where the parts of
    /// the fragment fit it, and it ends there, not as the candidate claims. `NoMemory` is want of memory alone.
    pub fn answer(&self, alloc: Global, frag: &KFragment, cand: &Candidate) -> PruneAnswer
        requires { IsCandidateOf (fragment_of frag.now) cand.now }
        ensures exact { IsAnswered (fragment_of frag.now) cand.now B.items result }
        ensures justified { result ≡ answers.Drop → ∥ IsRefuted (fragment_of frag.now) cand.now ∥₁ }
    {
        answered(Some(self.refutes(alloc, frag, cand)))
    }
}
