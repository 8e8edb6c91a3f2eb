// Live variables.
ghost use Rattle.std.specs.Prelude.{◌≡◌, IfOk};
ghost use Rattle.std.specs.List.{filter};
ghost use Rattle.loop_text.specs.Statements.Fragment as fragment;
ghost use Rattle.loop_setting.specs.Listed.{IsListed};
ghost use Rattle.loop_setting.specs.Reading.{fragment_in_code};
ghost use Rattle.java_ast.specs.Names.{names_lent};

use crate::kept::mentioned::put_all_mentioned;
use crate::kept::name_list::NameList;
use crate::places::setting::Fragment;
use java_mean::is_live as is_live_where;
use loop_text::statements::names::block_mentions;
use qbs_base::{Items, Name, NoMemory, boxed};
use std::alloc::Global;

/// Whether a variable is live: visible before the run, or mentioned behind the loop.
#[tactic(auto, using(java_mean::proofs::Sets::sets))]
pub fn is_live(f: &Fragment, x: &Name) -> bool
    ensures { result ≡ fragment.is_live (fragment_in_code f.now) x.now }
{
    f.visible.has(x) || block_mentions(f.behind, x)
}

// Whether a variable is visible before the run, or among those that are mentioned behind the loop.
#[tactic(auto, using(java_mean::proofs::Sets::sets))]
fn is_live_beside(f: &Fragment, mentioned: &NameList, x: &Name) -> bool
    requires listed { IsListed mentioned.now }
    requires names { names_lent mentioned.now.names ≡ fragment.mentioned_behind (fragment_in_code f.now) }
    ensures { result ≡ fragment.is_live (fragment_in_code f.now) x.now }
{
    is_live_where(f.visible.has(x), mentioned.seen.has(x))
}

// Of so many names each is looked for by itself.
const FEW: usize = 8;

// The live ones of a few accumulators. Each is looked for behind the loop, as far as it is mentioned first: no other name is looked at twice.
#[tactic(auto, using(loop_text::proofs::Trees::Kept::kept))]
fn live_of_few<'a>(
    alloc: Global,
    f: &Fragment,
    names: &[&'a Name],
) -> Result<Items<&'a Name>, NoMemory>
    ensures { IfOk result (λ r. names_lent r ≡ filter (fragment.is_live (fragment_in_code f.now)) (names_lent names.now)) }
{
    let mut live = Items::new(alloc);
    for x in names {
        if is_live(f, x) {
            live.push(*x)?;
        }
    }
    Ok(live)
}

// The live ones of many accumulators, by a list of all that is mentioned behind the loop.
#[tactic(auto, using(loop_text::proofs::Trees::Kept::kept))]
fn live_of_many<'a>(
    alloc: Global,
    f: &Fragment,
    names: &[&'a Name],
) -> Result<Items<&'a Name>, NoMemory>
    ensures { IfOk result (λ r. names_lent r ≡ filter (fragment.is_live (fragment_in_code f.now)) (names_lent names.now)) }
{
    let mut mentioned = boxed(alloc, NameList::new(alloc))?;
    put_all_mentioned(f.behind, &mut *mentioned)?;
    let mut live = Items::new(alloc);
    for x in names {
        if is_live_beside(f, &mentioned, x) {
            live.push(*x)?;
        }
    }
    Ok(live)
}

/// The live ones of some accumulators.
pub fn live_among<'a>(
    alloc: Global,
    f: &Fragment,
    names: &[&'a Name],
) -> Result<Items<&'a Name>, NoMemory>
    ensures { IfOk result (λ r. names_lent r ≡ filter (fragment.is_live (fragment_in_code f.now)) (names_lent names.now)) }
{
    if names.len() <= FEW {
        return live_of_few(alloc, f, names);
    }
    live_of_many(alloc, f, names)
}
