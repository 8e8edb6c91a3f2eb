// What a candidate chooses for each accumulator.
ghost use Rattle.std.specs.Prelude.{◌≡◌, ◌+◌, ◌<◌, ◌^◌, ◌++◌, IfOk, OnOk, length, map};
ghost use Rattle.std.specs.List.{list_any};
ghost use Rattle.tor_terms.specs.Plain.{forms_of};
ghost use Rattle.kernel_lang.specs.Plain.{accumulator};
ghost use Rattle.kernel_lang.specs.Pools as pools;
ghost use Rattle.kernel_lang.specs.Whole.{fragment_of};
ghost use Rattle.kernel_interp.specs.Members.{forms_lent, members_seen};
ghost use Rattle.std.specs.Prelude.{nat_eq};

use crate::member::Member;
use kernel_lang::{Acc, KFragment};
use qbs_base::NoMemory;
use std::alloc::Global;
use tor_terms::Formula;

fn is_chosen(cand: &[u32], n: usize) -> bool
    ensures { result ≡ list_any (nat_eq n) cand.now }
{
    match cand.split_first() {
        None => false,
        Some((k, rest)) => n == *k as usize || is_chosen(rest, n),
    }
}

// Pushes those of a pool whose numbers stand in the candidate; the first one has the number `n`.
fn push_chosen<'a>(
    cand: &[u32],
    n: usize,
    pool: &'a [Formula],
    all: &mut Vec<&'a Formula>,
) -> Result<(), NoMemory>
    requires { n + length pool.now < 2 ^ 32 }
    ensures { OnOk result (forms_lent all.new.items ≡ forms_lent all.old.items ++ pools.chosen cand.now n (forms_of pool.now)) }
{
    match pool.split_first() {
        None => Ok(()),
        Some((f, rest)) => {
            if is_chosen(cand, n) {
                all.push(f)?;
            }
            push_chosen(cand, n + 1, rest, all)
        }
    }
}

// Pushes the accumulators with their choices; the first formula of the first one has the number `n`.
fn push_members<'a>(
    alloc: Global,
    cand: &[u32],
    n: usize,
    accs: &'a [Acc],
    all: &mut Vec<Member<'a>>,
) -> Result<(), NoMemory>
    requires { n + length (pools.pooled (map accumulator accs.now)) < 2 ^ 32 }
    ensures { OnOk result (members_seen all.new.items ≡ members_seen all.old.items ++ pools.members_from cand.now n (map accumulator accs.now)) }
{
    match accs.split_first() {
        None => Ok(()),
        Some((acc, rest)) => {
            let mut chosen = Vec::new(alloc);
            push_chosen(cand, n, acc.pool.as_slice(), &mut chosen)?;
            all.push(Member { acc, chosen })?;
            push_members(alloc, cand, n + acc.pool.len(), rest, all)
        }
    }
}

/// The accumulators of a fragment, each with the formulas that a candidate has of its pool.
pub fn members<'a>(
    alloc: Global,
    frag: &'a KFragment,
    cand: &[u32],
) -> Result<Vec<Member<'a>>, NoMemory>
    ensures { IfOk result (λ all. members_seen all.items ≡ pools.members (fragment_of frag.now) cand.now) }
{
    let mut all = Vec::new(alloc);
    push_members(alloc, cand, 0, frag.accs.as_slice(), &mut all)?;
    Ok(all)
}
