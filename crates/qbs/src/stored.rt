// A rewriting with the bank of a store as one more pruner.
ghost use Rattle.std.specs.Prelude.{◌≡◌, ◌≤◌, IfOk, Some};
ghost use Rattle.java_ast.specs.Reading.{program as plain_program};
ghost use Rattle.java_mean.specs.WellTyped.{IsWellTyped};
ghost use Rattle.java_types.specs.Texts.{read_by};
ghost use Rattle.kernel_lang.specs.declared.prune.PruneAnswer.TheVariants as answers;
ghost use Rattle.kernel_lang.specs.Pools.{IsCandidateOf};
ghost use Rattle.kernel_lang.specs.Refuted.{IsRefuted};
ghost use Rattle.kernel_lang.specs.Whole.{fragment_of};
ghost use Rattle.proof_store.specs.Asked.{IsAnswered};
ghost use Rattle.rewrite_core.specs.Output.{IsSourceOf};
ghost use Rattle.rewrite_core.specs.Results.{IsRewritingOf};
ghost use Rattle.qbs.specs.Pruners.{may, with_bank};

use java_types::Typed;
use kernel_lang::{Candidate, KFragment, PruneAnswer};
use proof_store::{AskedBank, Bank, Held};
use qbs_base::NoMemory;
use query_search::{FurtherPruner, Pruner};
use rewrite_core::{Rewritten, rewrite, rewrite_with};
use schema::Schema;
use std::alloc::Global;
use std::marker::Brand;

// With a closure that answers as the bank does.
fn rewrite_stored<F: Fn(&KFragment, &Candidate) -> PruneAnswer>(
    alloc: Global,
    schema: &Schema,
    typed: &Typed,
    source: &[u8],
    size: u32,
    budget: u64,
    pruners: &[Pruner],
    extra: &FurtherPruner<F>,
    bank: &Bank,
) -> Result<Rewritten, NoMemory>
    requires typed { IsWellTyped schema.now (read_by schema.now) (plain_program typed.now.program) }
    requires source { IsSourceOf source.now (plain_program typed.now.program) }
    requires size { size ≤ 8 }
    requires budget { budget ≤ 1000000 }
    requires callable { (f : _) (c : _) → IsCandidateOf (fragment_of f.now) c.now → F.pre extra.now.call f c }
    requires justified { (f : _) (c : _)
        → IsCandidateOf (fragment_of f.now) c.now
        → F.post extra.now.call f c answers.Drop
        → ∥ IsRefuted (fragment_of f.now) c.now ∥₁ }
    requires exact { (f : _) (c : _) (a : _) → F.post extra.now.call f c a → IsAnswered (fragment_of f.now) c.now bank.now a }
    ensures { IfOk result (
        IsRewritingOf
        (with_bank (may (λ p. ⟦<Box<dyn Fn(&KFragment, &Candidate) -> PruneAnswer> as Fn(&KFragment, &Candidate) -> PruneAnswer>⟧.post p.call) pruners.now) (Some bank.now)).drops
        (with_bank (may (λ p. ⟦<Box<dyn Fn(&KFragment, &Candidate) -> PruneAnswer> as Fn(&KFragment, &Candidate) -> PruneAnswer>⟧.post p.call) pruners.now) (Some bank.now)).keeps
        schema.now size budget source.now (plain_program typed.now.program)) }
{
    rewrite_with(alloc, schema, typed, source, size, budget, pruners, extra)
}

// With what the bank holds as picked.
fn rewrite_by_bank<B: Held>(
    alloc: Global,
    schema: &Schema,
    typed: &Typed,
    source: &[u8],
    size: u32,
    budget: u64,
    pruners: &[Pruner],
    bank: &Bank,
) -> Result<Rewritten, NoMemory>
    requires typed { IsWellTyped schema.now (read_by schema.now) (plain_program typed.now.program) }
    requires source { IsSourceOf source.now (plain_program typed.now.program) }
    requires size { size ≤ 8 }
    requires budget { budget ≤ 1000000 }
    requires held { bank.now ≡ B.items }
    ensures { IfOk result (
        IsRewritingOf
        (with_bank (may (λ p. ⟦<Box<dyn Fn(&KFragment, &Candidate) -> PruneAnswer> as Fn(&KFragment, &Candidate) -> PruneAnswer>⟧.post p.call) pruners.now) (Some bank.now)).drops
        (with_bank (may (λ p. ⟦<Box<dyn Fn(&KFragment, &Candidate) -> PruneAnswer> as Fn(&KFragment, &Candidate) -> PruneAnswer>⟧.post p.call) pruners.now) (Some bank.now)).keeps
        schema.now size budget source.now (plain_program typed.now.program)) }
{
    let own = AskedBank::<B>::new(bank);
    let ask = |asked: &KFragment, cand: &Candidate|
        requires { IsCandidateOf (fragment_of asked.now) cand.now }
        ensures exact { IsAnswered (fragment_of asked.now) cand.now B.items result }
        ensures justified { result ≡ answers.Drop → ∥ IsRefuted (fragment_of asked.now) cand.now ∥₁ }
    { own.answer(alloc, asked, cand) };
    let extra = FurtherPruner::new(ask);
    rewrite_stored(
        alloc, schema, typed, source, size, budget, pruners, &extra, bank,
    )
}

/// The rewriting of a well-typed program that was read from a source, with a bank as one more pruner, where there is one: it drops exactly the
/// candidates that one of its items refutes. Only want of memory is an error.
pub fn rewrite_past_store(
    alloc: Global,
    schema: &Schema,
    typed: &Typed,
    source: &[u8],
    size: u32,
    budget: u64,
    pruners: &[Pruner],
    bank: &Option<Bank>,
) -> Result<Rewritten, NoMemory>
    requires typed { IsWellTyped schema.now (read_by schema.now) (plain_program typed.now.program) }
    requires source { IsSourceOf source.now (plain_program typed.now.program) }
    requires size { size ≤ 8 }
    requires budget { budget ≤ 1000000 }
    ensures { IfOk result (
        IsRewritingOf
        (with_bank (may (λ p. ⟦<Box<dyn Fn(&KFragment, &Candidate) -> PruneAnswer> as Fn(&KFragment, &Candidate) -> PruneAnswer>⟧.post p.call) pruners.now) bank.now).drops
        (with_bank (may (λ p. ⟦<Box<dyn Fn(&KFragment, &Candidate) -> PruneAnswer> as Fn(&KFragment, &Candidate) -> PruneAnswer>⟧.post p.call) pruners.now) bank.now).keeps
        schema.now size budget source.now (plain_program typed.now.program)) }
{
    match bank {
        None => rewrite(alloc, schema, typed, source, size, budget, pruners),
        Some(bank) => rewrite_by_bank::<Brand>(
            alloc, schema, typed, source, size, budget, pruners, bank,
        ),
    }
}
