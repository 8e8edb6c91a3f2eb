// Methods that reach themselves by calls. Ranks tell those that don't; a way round tells that one does.
ghost use Rattle.std.specs.Prelude.{◌≡◌, OnOk};
ghost use Rattle.std.specs.List.{list_all, list_any};
ghost use Rattle.call_rules.specs.Cycles.{rank_of, falls, sinks, falls_to, sinks_to, all_sink, may_return as may_return_of, calls_it, is_edge, leads_round, Leads};

use crate::notes::Noted;
use qbs_base::{Items, NoMemory};
use std::alloc::Global;

fn rank_at(ranks: &[usize], i: usize) -> usize
    ensures { result ≡ rank_of ranks.now i }
{
    match ranks.get(i) {
        Some(rank) => *rank,
        None => 0,
    }
}

fn call_falls(ranks: &[usize], rank: usize, callee: Option<usize>) -> bool
    ensures { result ≡ falls_to ranks.now rank callee }
{
    match callee {
        Some(j) => rank_at(ranks, j) < rank,
        None => true,
    }
}

fn call_sinks(ranks: &[usize], rank: usize, callee: Option<usize>) -> bool
    ensures { result ≡ sinks_to ranks.now rank callee }
{
    match callee {
        Some(j) => !(rank < rank_at(ranks, j)),
        None => true,
    }
}

fn calls_fall(ranks: &[usize], rank: usize, calls: &[Noted]) -> bool
    ensures { result ≡ list_all (falls ranks.now rank) calls.now }
{
    for call in calls {
        if !call_falls(ranks, rank, call.callee) {
            return false;
        }
    }
    true
}

fn calls_sink(ranks: &[usize], rank: usize, calls: &[Noted]) -> bool
    ensures { result ≡ list_all (sinks ranks.now rank) calls.now }
{
    for call in calls {
        if !call_sinks(ranks, rank, call.callee) {
            return false;
        }
    }
    true
}

/// Whether no call's rank is above its method's.
pub fn are_ranks(ranks: &[usize], calls: &[Items<Noted>]) -> bool
    ensures { result ≡ all_sink ranks.now 0 calls.now }
{
    for (i, list) in calls.iter().enumerate() {
        if !calls_sink(ranks, rank_at(ranks, i), list.as_slice()) {
            return false;
        }
    }
    true
}

/// Whether a method may reach itself: where the ranks fall at all its calls it doesn't.
pub fn may_return(ranks: &[usize], i: usize, calls: &[Noted]) -> bool
    ensures { result ≡ may_return_of ranks.now i calls.now }
{
    !calls_fall(ranks, rank_at(ranks, i), calls)
}

fn is_call_of(call: Noted, j: usize) -> bool
    ensures { result ≡ calls_it j call }
{
    match call.callee {
        Some(k) => k == j,
        None => false,
    }
}

fn some_call_of(list: &[Noted], j: usize) -> bool
    ensures { result ≡ list_any (calls_it j) list.now }
{
    for call in list {
        if is_call_of(*call, j) {
            return true;
        }
    }
    false
}

fn calls_method(calls: &[Items<Noted>], i: usize, j: usize) -> bool
    ensures { result ≡ is_edge calls.now i j }
{
    match calls.get(i) {
        Some(list) => some_call_of(list.as_slice(), j),
        None => false,
    }
}

/// Whether methods, the first of which `i` calls, call one another in a row, and the last one calls `to`.
fn is_way(calls: &[Items<Noted>], i: usize, way: &[usize], to: usize) -> bool
    ensures { result ≡ leads_round calls.now i way.now to }
{
    let mut last = i;
    for j in way {
        if !calls_method(calls, last, *j) {
            return false;
        }
        last = *j;
    }
    calls_method(calls, last, to)
}

// ---- A way, of which nothing is promised

fn note_met(
    met: &mut Vec<usize>,
    way: &mut Vec<usize>,
    from: usize,
    to: usize,
) -> Result<(), NoMemory> {
    if let Some(there) = met.get_mut(to) {
        if *there == usize::MAX {
            *there = from;
            way.push(to)?;
        }
    }
    Ok(())
}

fn note_all(
    met: &mut Vec<usize>,
    queue: &mut Vec<usize>,
    from: usize,
    list: &[Noted],
) -> Result<(), NoMemory> {
    for call in list {
        if let Some(j) = call.callee {
            note_met(met, queue, from, j)?;
        }
    }
    Ok(())
}

/// Of each method one from which it was met on the ways from `i`.
fn met_from(alloc: Global, calls: &[Items<Noted>], i: usize) -> Result<Vec<usize>, NoMemory> {
    let mut met = Vec::new(alloc);
    met.resize(calls.len(), usize::MAX)?;
    let mut queue = Vec::new(alloc);
    queue.push(i)?;
    for at in 0..calls.len() {
        let Some(from) = queue.get(at) else {
            break;
        };
        let from = *from;
        let Some(list) = calls.get(from) else {
            break;
        };
        note_all(&mut met, &mut queue, from, list.as_slice())?;
    }
    Ok(met)
}

fn way_round(alloc: Global, calls: &[Items<Noted>], i: usize) -> Result<Vec<usize>, NoMemory> {
    let met = met_from(alloc, calls, i)?;
    let mut way = Vec::new(alloc);
    let mut last = i;
    for _ in 0..calls.len() {
        let Some(from) = met.get(last) else {
            break;
        };
        if *from == i {
            break;
        }
        last = *from;
        way.push(last)?;
    }
    way.reverse();
    Ok(way)
}

/// Ok only for a method that reaches itself. That a way is missed, which the search doesn't do, counts as want of memory.
pub fn prove_round(alloc: Global, calls: &[Items<Noted>], i: usize) -> Result<(), NoMemory>
    ensures { OnOk result (Leads calls.now i i) }
{
    let way = way_round(alloc, calls, i)?;
    if is_way(calls, i, way.as_slice(), i) {
        Ok(())
    } else {
        Err(NoMemory)
    }
}
