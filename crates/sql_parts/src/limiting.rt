// WHEREs with conditions more, and the first rows of lists without keys.
ghost use Rattle.std.specs.Prelude.{◌≡◌, ◌+◌, ◌<◌, ◌^◌, length, IfOk};
ghost use Rattle.sql_ast.specs.Reading.{condition, inner_filter};
ghost use Rattle.sql_parts.specs.Emitted as spec;
ghost use Rattle.sql_parts.specs.Scopes.{list_of};
ghost use Rattle.sql_build.specs.Filters.{with_also};
ghost use Rattle.sql_parts.specs.Reading.{ground_of, all_also};

use crate::ground::Ground;
use kernel_lang::ListDef;
use qbs_base::{NoMemory, Scalar};
use sql_ast::{Cmp, Cond, SqlOpnd};
use sql_build::filters::also_compared;
use sql_build::keys::position;
use std::alloc::Global;

/// The first rows of a list without keys.
fn limit_of_list(
    alloc: Global,
    n: u32,
    list: &ListDef,
    filter: Option<Box<Cond>>,
) -> Result<Option<Box<Cond>>, NoMemory>
    ensures { IfOk result (λ f. inner_filter f ≡ all_also (inner_filter filter) (spec.limit_tests n list.now.keys list.now.limit)) }
{
    if !list.keys.is_empty() {
        return Ok(filter);
    }
    let limit = match list.limit {
        Some(limit) => limit,
        None => return Ok(filter),
    };
    let limit = match i64::try_from(limit) {
        Ok(limit) => limit,
        Err(_) => return Err(NoMemory),
    };
    let first = SqlOpnd::Column(position(n));
    let limit = SqlOpnd::Lit(Scalar::Long(limit));
    also_compared(alloc, filter, Cmp::Lt, first, limit)
}

fn limit_of_loop(
    alloc: Global,
    g: Ground,
    n: u32,
    j: u32,
    filter: Option<Box<Cond>>,
) -> Result<Option<Box<Cond>>, NoMemory>
    ensures { IfOk result (λ f.
        inner_filter f ≡ all_also (inner_filter filter) (spec.limit_tests n (list_of (ground_of g.entry) j).keys (list_of (ground_of g.entry) j).limit)) }
{
    match g.lists.get(j as usize) {
        Some(list) => limit_of_list(alloc, n, list, filter),
        None => Ok(filter),
    }
}

/// The first rows of the lists without keys of these loops, whose FROM items have the numbers after `n`.
#[tactic(auto, using(crate::proofs::Also::also_append))]
pub fn limits(
    alloc: Global,
    g: Ground,
    n: u32,
    loops: &[u32],
    filter: Option<Box<Cond>>,
) -> Result<Option<Box<Cond>>, NoMemory>
    requires { n + length loops.now < 2 ^ 32 }
    ensures { IfOk result (λ f. inner_filter f ≡ all_also (inner_filter filter) (spec.limits (ground_of g.entry) n loops.now)) }
{
    match loops.split_first() {
        None => Ok(filter),
        Some((j, rest)) => {
            let filter = limit_of_loop(alloc, g, n + 1, *j, filter)?;
            limits(alloc, g, n + 1, rest, filter)
        }
    }
}
