// The fault that is kept of a program with calls.
ghost use Rattle.std.specs.Prelude.{◌≡◌, ◌++◌, IfOk, OnOk, None};
ghost use Rattle.std.specs.Option.{option_map};
ghost use Rattle.java_ast.specs.Reading.{program as plain_program};
ghost use Rattle.call_rules.specs.Candidates.{is_before as is_before_of, lesser as lesser_of, least as least_of, broken_there, broken_in, recursive_in, candidates_in, candidates_from, fault_in, is_recursive as is_recursive_of, IsRound, IsLeast};
ghost use Rattle.call_rules.specs.Faults.{IsFound};

use crate::cycles::{are_ranks, may_return, prove_round};
use crate::helpers::Helpers;
use crate::notes::{Noted, notes_in_methods};
use crate::ranks::ranks_of;
use crate::{HelperFault, HelperRule};
use java_ast::Program;
use qbs_base::{Items, NoMemory, Span};
use std::alloc::Global;

/// A rule that a call in this method breaks, where the method does reach itself if the rule is that it doesn't.
#[derive(Clone, Copy)]
pub struct Candidate {
    pub rule: HelperRule,
    pub at: Span,
    pub method: usize,
}

fn is_before(a: Candidate, b: Candidate) -> bool
    ensures { result ≡ is_before_of a b }
{
    if a.at.start < b.at.start {
        return true;
    }
    a.at.start == b.at.start && a.rule.number() < b.rule.number()
}

fn lesser(kept: Option<Candidate>, c: Candidate) -> Option<Candidate>
    ensures { result ≡ lesser_of kept c }
{
    match kept {
        None => Some(c),
        Some(d) => { if is_before(c, d) { Some(c) } else { Some(d) } }
    }
}

fn least(candidates: &[Candidate]) -> Option<Candidate>
    ensures { result ≡ least_of None candidates.now }
{
    let mut kept = None;
    for c in candidates {
        kept = lesser(kept, *c);
    }
    kept
}

fn push_broken(all: &mut Items<Candidate>, i: usize, call: Noted) -> Result<(), NoMemory>
    ensures { OnOk result (all.new ≡ all.old ++ broken_there i call.at call.breaks) }
{
    match call.breaks {
        None => Ok(()),
        Some(rule) => all.push(Candidate {
            rule,
            at: call.at,
            method: i,
        }),
    }
}

fn push_all_broken(all: &mut Items<Candidate>, i: usize, calls: &[Noted]) -> Result<(), NoMemory>
    ensures { OnOk result (all.new ≡ all.old ++ broken_in i calls.now) }
{
    for call in calls {
        push_broken(all, i, *call)?;
    }
    Ok(())
}

fn push_recursive(
    all: &mut Items<Candidate>,
    flag: bool,
    i: usize,
    calls: &[Noted],
) -> Result<(), NoMemory>
    ensures { OnOk result (all.new ≡ all.old ++ recursive_in flag i calls.now) }
{
    if !flag {
        return Ok(());
    }
    match calls.first() {
        None => Ok(()),
        Some(call) => all.push(Candidate {
            rule: HelperRule::Recursive,
            at: call.at,
            method: i,
        }),
    }
}

fn push_candidates(
    all: &mut Items<Candidate>,
    flag: bool,
    i: usize,
    calls: &[Noted],
) -> Result<(), NoMemory>
    ensures { OnOk result (all.new ≡ all.old ++ candidates_in i flag calls.now) }
{
    push_recursive(all, flag, i, calls)?;
    push_all_broken(all, i, calls)
}

fn candidates_of(
    alloc: Global,
    ranks: &[usize],
    calls: &[Items<Noted>],
) -> Result<Items<Candidate>, NoMemory>
    ensures { IfOk result (λ all. all ≡ candidates_from ranks.now 0 calls.now) }
{
    let mut all = Items::new(alloc);
    for (i, list) in calls.iter().enumerate() {
        let list = list.as_slice();
        push_candidates(&mut all, may_return(ranks, i, list), i, list)?;
    }
    Ok(all)
}

/// The least fault of calls, whose ranks are tested.
fn fault_of(
    alloc: Global,
    calls: &[Items<Noted>],
    ranks: &[usize],
) -> Result<Option<Candidate>, NoMemory>
    ensures { IfOk result (λ found. IsLeast calls.now ranks.now found) }
{
    if !are_ranks(ranks, calls) {
        return Err(NoMemory);
    }
    let candidates = candidates_of(alloc, ranks, calls)?;
    let found = least(candidates.as_slice());
    prove_found(alloc, calls, found)?;
    Ok(found)
}

fn is_recursive(rule: HelperRule) -> bool
    ensures { result ≡ is_recursive_of rule }
{
    matches!(rule, HelperRule::Recursive)
}

/// Ok only where the method of a candidate for recursion reaches itself.
fn prove_found(
    alloc: Global,
    calls: &[Items<Noted>],
    found: Option<Candidate>,
) -> Result<(), NoMemory>
    ensures { OnOk result (IsRound calls.now found) }
{
    match found {
        None => Ok(()),
        Some(c) => {
            if is_recursive(c.rule) {
                prove_round(alloc, calls, c.method)?;
            }
            Ok(())
        }
    }
}

fn fault_from(found: Option<Candidate>) -> Option<HelperFault>
    ensures { result ≡ option_map fault_in found }
{
    match found {
        None => None,
        Some(c) => Some(HelperFault {
            rule: c.rule,
            at: c.at,
        }),
    }
}

/// The fault that is kept of the first four rules of helpers. Where there is none, calls of methods come to an end.
pub fn first_fault(alloc: Global, program: &Program) -> Result<Option<HelperFault>, NoMemory>
    ensures { IfOk result (IsFound (plain_program program.now)) }
{
    let methods = program.methods.as_slice();
    let helpers = Helpers::new(alloc, methods)?;
    let calls = notes_in_methods(alloc, &helpers, methods)?;
    let listed = calls.as_slice();
    let ranks = ranks_of(alloc, listed)?;
    let found = fault_of(alloc, listed, ranks.as_slice())?;
    Ok(fault_from(found))
}
