// Ranks of methods, of which a call's is never above its method's. How they are found is left to the search of strongly connected
// components by Tarjan (SIAM Journal on Computing, 1972); whoever uses them tests them, so that nothing is promised of them.
use crate::notes::Noted;
use qbs_base::{Items, NoMemory};
use std::alloc::Global;

const UNMET: usize = usize::MAX;

/// A search on the way. Of each method: when it was met, the earliest that was met on the way from it, and its rank. Those that wait
/// for a rank, and those that are open, each with the number of the call that is next.
#[derive(Drop)]
struct Search {
    met: Vec<usize>,
    low: Vec<usize>,
    ranks: Vec<usize>,
    waiting: Vec<usize>,
    open: Vec<(usize, usize)>,
    count: usize,
    rank: usize,
}

fn at(list: &[usize], i: usize) -> usize {
    match list.get(i) {
        Some(n) => *n,
        None => UNMET,
    }
}

fn set(list: &mut Vec<usize>, i: usize, n: usize) {
    if let Some(there) = list.get_mut(i) {
        *there = n;
    }
}

fn lower(list: &mut Vec<usize>, i: usize, n: usize) {
    if n < at(list.as_slice(), i) {
        set(list, i, n);
    }
}

fn filled(alloc: Global, len: usize) -> Result<Vec<usize>, NoMemory> {
    let mut all = Vec::new(alloc);
    all.resize(len, UNMET)?;
    Ok(all)
}

fn meet(search: &mut Search, i: usize) -> Result<(), NoMemory> {
    set(&mut search.met, i, search.count);
    set(&mut search.low, i, search.count);
    search.count = search.count.wrapping_add(1);
    search.waiting.push(i)?;
    search.open.push((i, 0))?;
    Ok(())
}

/// Goes on with a call of the method `i`.
fn follow(search: &mut Search, i: usize, callee: Option<usize>) -> Result<(), NoMemory> {
    let Some(j) = callee else {
        return Ok(());
    };
    if at(search.met.as_slice(), j) == UNMET {
        return meet(search, j);
    }
    if at(search.ranks.as_slice(), j) == UNMET {
        let met = at(search.met.as_slice(), j);
        lower(&mut search.low, i, met);
    }
    Ok(())
}

/// Gives the next rank to those that have waited since the method `i`.
fn give_rank(search: &mut Search, i: usize) {
    for _ in 0..search.waiting.len() {
        let Some(j) = search.waiting.pop() else {
            break;
        };
        set(&mut search.ranks, j, search.rank);
        if j == i {
            break;
        }
    }
    search.rank = search.rank.wrapping_add(1);
}

/// Closes the method `i`, all of whose calls were followed.
fn close(search: &mut Search, i: usize) {
    let low = at(search.low.as_slice(), i);
    if low == at(search.met.as_slice(), i) {
        give_rank(search, i);
    }
    let caller = match search.open.last() {
        Some(open) => Some(open.0),
        None => None,
    };
    if let Some(caller) = caller {
        lower(&mut search.low, caller, low);
    }
}

/// One step, and whether there was one.
fn step(search: &mut Search, calls: &[Items<Noted>]) -> Result<bool, NoMemory> {
    let Some((i, next)) = search.open.pop() else {
        return Ok(false);
    };
    let Some(list) = calls.get(i) else {
        return Ok(true);
    };
    match list.as_slice().get(next) {
        None => close(search, i),
        Some(call) => {
            search.open.push((i, next + 1))?;
            follow(search, i, call.callee)?;
        }
    }
    Ok(true)
}

fn search_from(
    search: &mut Search,
    calls: &[Items<Noted>],
    i: usize,
    steps: usize,
) -> Result<(), NoMemory> {
    if at(search.met.as_slice(), i) != UNMET {
        return Ok(());
    }
    meet(search, i)?;
    for _ in 0..steps {
        if !step(search, calls)? {
            return Ok(());
        }
    }
    Ok(())
}

fn steps_of(calls: &[Items<Noted>]) -> usize {
    let mut steps = 1usize;
    for list in calls {
        steps = steps.wrapping_add(list.len()).wrapping_add(1);
    }
    steps
}

/// Ranks of the methods with these calls.
pub fn ranks_of(alloc: Global, calls: &[Items<Noted>]) -> Result<Vec<usize>, NoMemory> {
    let steps = steps_of(calls);
    let mut search = Search {
        met: filled(alloc, calls.len())?,
        low: filled(alloc, calls.len())?,
        ranks: filled(alloc, calls.len())?,
        waiting: Vec::new(alloc),
        open: Vec::new(alloc),
        count: 0,
        rank: 0,
    };
    for i in 0..calls.len() {
        search_from(&mut search, calls, i, steps)?;
    }
    Ok(search.ranks)
}
