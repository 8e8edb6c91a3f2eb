// What is searched of the loops of a program.
ghost use Rattle.std.specs.Prelude.{◌≡◌, ◌≤◌, IfOk, map};
ghost use Rattle.std.specs.declared.option.Option.TheVariants.{Some};
ghost use Rattle.java_ast.specs.Reading.{program as plain_program};
ghost use Rattle.java_mean.specs.WellTyped.{IsWellTyped};
ghost use Rattle.java_types.specs.Texts.{read_by};
ghost use Rattle.kernel_lang.specs.declared.prune.PruneAnswer.TheVariants as answers;
ghost use Rattle.kernel_lang.specs.Pools.{IsCandidateOf};
ghost use Rattle.kernel_lang.specs.Whole.{fragment_of};
ghost use Rattle.rewrite_core.specs.Results.{IsSearchingOf};
ghost use Rattle.rewrite_core.specs.Searches.{kept_searches, plain_search};

use crate::progress::{AllTried, try_all};
use java_types::Typed;
use kernel_lang::{Candidate, KFragment};
use qbs_base::{Items, NoMemory};
use query_search::{FurtherPruner, PruneAnswer};
use schema::Schema;
use std::alloc::Global;
use verdicts::Verdicts;

/// The fragment of a loop of the kernel form, and how many candidates of it come before what is said of it: before the one that is found, all
/// where there is none, or as many as the budget.
#[derive(Drop)]
pub struct Search {
    pub frag: Box<KFragment>,
    pub before: u64,
}

pub type Searches = Items<Search>;

/// What is said of each loop of a program in the order of the tries, and what was searched for those of the kernel form, in the same order.
#[derive(Drop)]
pub struct Searching {
    pub verdicts: Verdicts,
    pub searches: Searches,
}

// What was searched in all tries, where it was kept.
fn with_searches(all: AllTried) -> Searching
    requires { (ss : _) × (kept_searches all.searches ≡ Some ss) }
    ensures verdicts { result.verdicts ≡ all.verdicts }
    ensures searches { kept_searches all.searches ≡ Some (map plain_search result.searches) }
{
    let AllTried {
        verdicts,
        searches,
        ..
    } = all;
    match searches {
        None => unreachable!(),
        Some(searches) => Searching { verdicts, searches },
    }
}

// With a call that never drops a candidate.
fn search_past<F: Fn(&KFragment, &Candidate) -> PruneAnswer>(
    alloc: Global,
    schema: &Schema,
    typed: &Typed,
    size: u32,
    budget: u64,
    kept: &FurtherPruner<F>,
) -> Result<Searching, NoMemory>
    requires typed { IsWellTyped schema.now (read_by schema.now) (plain_program typed.now.program) }
    requires size { size ≤ 8 }
    requires budget { budget ≤ 1000000 }
    requires callable { (f : _) (c : _) → IsCandidateOf (fragment_of f.now) c.now → F.pre kept.now.call f c }
    requires never { (f : _) (c : _) → F.post kept.now.call f c answers.Drop → ⊥ }
    ensures { IfOk result (IsSearchingOf schema.now size budget (plain_program typed.now.program)) }
{
    let all = try_all(alloc, schema, typed, &[], size, budget, &[], kept, true)?;
    Ok(with_searches(all))
}

/// The loops of a well-typed program are tried as `rewrite` tries them, without pruners: what is said of them, and what was searched
/// (`IsSearchingOf`). Each fragment fits the schema. Only want of memory is an error.
pub fn search_loops(
    alloc: Global,
    schema: &Schema,
    typed: &Typed,
    size: u32,
    budget: u64,
) -> Result<Searching, NoMemory>
    requires typed { IsWellTyped schema.now (read_by schema.now) (plain_program typed.now.program) }
    requires size { size ≤ 8 }
    requires budget { budget ≤ 1000000 }
    ensures { IfOk result (IsSearchingOf schema.now size budget (plain_program typed.now.program)) }
{
    let kept = FurtherPruner::new(|_frag: &KFragment, _cand: &Candidate| PruneAnswer::Keep);
    search_past(alloc, schema, typed, size, budget, &kept)
}
