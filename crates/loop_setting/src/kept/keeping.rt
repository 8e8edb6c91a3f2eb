// The statements of a run that a rewrite keeps.
ghost use Rattle.std.specs.Prelude.{◌≡◌, ◌<◌, [], ℕ, List, Some, Ok, IfOk, OnOk, length, slice_get};
ghost use Rattle.java_ast.specs.Reading.{statement, statements};
ghost use Rattle.loop_text.specs.Statements.Fragment as fragment;
ghost use Rattle.loop_text.specs.Statements.KeptStatements.{AreKept};
ghost use Rattle.loop_setting.specs.Listed.{IsListed};
ghost use Rattle.java_ast.specs.Names.{names_read, Names, with_names, names_lent};
ghost use Rattle.loop_text.specs.Sites.Reading.{exprs_lent};
ghost use Rattle.loop_setting.specs.Reading.{fragment_in_code};
ghost use Rattle.loop_setting.specs.Wanted as specs;

use crate::kept::accumulators::{accumulators, counter};
use crate::kept::mentioned::{put_all_mentioned, put_mentioned, put_names};
use crate::kept::name_list::NameList;
use crate::kept::setters::{Setters, set_by, setters_of};
use crate::places::setting::Fragment;
use java_ast::{Expr, Stmt};
use java_mean::are_left;
use loop_text::sites::bindings::is_name;
use qbs_base::{Name, NoMemory, Numbers, boxed, held};
use std::alloc::Global;

/// The numbers of the kept statements of a run whose first one has this number, where the queries of the rewrite read
/// these entry values. Where the run sets nothing but what is dropped, none is kept, and what stands behind the loop isn't looked at.
pub fn kept_of(
    alloc: Global,
    f: &Fragment,
    entries: &[&Expr],
    first: u64,
) -> Result<Numbers, NoMemory>
    ensures { IfOk result (AreKept (fragment_in_code f.now) (names_read (exprs_lent entries.now)) first (statements f.now.run.now)) }
{
    let none = Name::from_string(String::new(alloc));
    kept_beside(alloc, f, entries, first, &none)
}

// The same, beside an empty name.
fn kept_beside<'a>(
    alloc: Global,
    f: &Fragment<'a>,
    entries: &[&'a Expr],
    first: u64,
    none: &Name,
) -> Result<Numbers, NoMemory>
    requires { none.now ≡ [] }
    ensures { IfOk result (AreKept (fragment_in_code f.now) (names_read (exprs_lent entries.now)) first (statements f.now.run.now)) }
{
    let accumulators = accumulators(alloc, f)?;
    if drops_all(f, &accumulators, none) {
        return Ok(Numbers::new(alloc));
    }
    kept_where_wanted(alloc, f, entries, first, &accumulators, none)
}

// The same by the variables that are wanted.
fn kept_where_wanted<'a>(
    alloc: Global,
    f: &Fragment<'a>,
    entries: &[&'a Expr],
    first: u64,
    accumulators: &NameList,
    none: &Name,
) -> Result<Numbers, NoMemory>
    requires empty { none.now ≡ [] }
    requires listed { IsListed accumulators.now }
    requires names { names_lent accumulators.now.names ≡ fragment.accumulators (fragment_in_code f.now) }
    ensures { IfOk result (AreKept (fragment_in_code f.now) (names_read (exprs_lent entries.now)) first (statements f.now.run.now)) }
{
    let wanted = wanted_of(alloc, f, entries, accumulators, none)?;
    kept_numbers(alloc, f, accumulators, &wanted, none, first)
}

// Whether the statements that set this variable are dropped.
fn drops(f: &Fragment, accumulators: &NameList, x: &Name) -> bool
    requires listed { IsListed accumulators.now }
    requires names { names_lent accumulators.now.names ≡ fragment.accumulators (fragment_in_code f.now) }
    ensures { result ≡ specs.drops (fragment_in_code f.now) x.now }
{
    accumulators.seen.has(x) || is_name(counter(f.looped), x)
}

// Whether the run sets nothing but variables whose statements are dropped.
fn drops_all(f: &Fragment, accumulators: &NameList, none: &Name) -> bool
    requires empty { none.now ≡ [] }
    requires listed { IsListed accumulators.now }
    requires names { names_lent accumulators.now.names ≡ fragment.accumulators (fragment_in_code f.now) }
    ensures { result ≡ specs.all_dropped (fragment_in_code f.now) (statements f.now.run.now) }
{
    for s in f.run {
        if !drops(f, accumulators, set_by(s, none)) {
            return false;
        }
    }
    true
}

// Puts what follows from a wanted variable behind the names of a list: what the statements mention that set it.
fn put_following<'a>(
    f: &Fragment,
    accumulators: &NameList,
    setters: &Setters<'a>,
    x: &Name,
    list: &mut NameList<'a>,
) -> Result<(), NoMemory>
    requires accumulators_listed { IsListed accumulators.now }
    requires accumulators { names_lent accumulators.now.names ≡ fragment.accumulators (fragment_in_code f.now) }
    requires setters { (y : List ℕ) → specs.under setters.now y ≡ specs.setting y (statements f.now.run.now) }
    requires listed { IsListed list.old }
    ensures names { OnOk result (names_lent list.new.names ≡ with_names (names_lent list.old.names) (specs.following (fragment_in_code f.now) x.now)) }
    ensures listed { OnOk result (IsListed list.new) }
{
    if drops(f, accumulators, x) {
        return Ok(());
    }
    setters.put_mentioned_by(x, list)
}

// The name with this number.
fn name_at<'a>(list: &NameList<'a>, i: usize) -> &'a Name
    requires { i < length list.now.names }
    ensures { Some result.now ≡ slice_get (names_lent list.now.names) i }
{
    list.names.as_slice()[i]
}

// Puts what follows from the names of a list behind them, and what follows from that, so that each name is looked at once.
fn put_all_following<'a>(
    f: &Fragment,
    accumulators: &NameList,
    setters: &Setters<'a>,
    list: &mut NameList<'a>,
) -> Result<(), NoMemory>
    requires accumulators_listed { IsListed accumulators.now }
    requires accumulators { names_lent accumulators.now.names ≡ fragment.accumulators (fragment_in_code f.now) }
    requires setters { (y : List ℕ) → specs.under setters.now y ≡ specs.setting y (statements f.now.run.now) }
    requires listed { IsListed list.old }
    ensures wanted { OnOk result (
        (further : Names)
        → specs.AreWanted (fragment_in_code f.now) further (names_lent list.old.names)
        → specs.AreWanted (fragment_in_code f.now) further (names_lent list.new.names)) }
    ensures all { OnOk result (specs.HasAll (names_lent list.new.names) (names_lent list.old.names)) }
    ensures following { OnOk result (specs.HasFollowing (fragment_in_code f.now) (names_lent list.new.names) (names_lent list.new.names)) }
    ensures listed { OnOk result (IsListed list.new) }
{
    let mut i = 0;
    while are_left(list.names.len(), i) {
        let x = name_at(list, i);
        put_following(f, accumulators, setters, x, list)?;
        i += 1;
    }
    Ok(())
}

// Puts the names in these expressions behind those of a list.
#[tactic(auto, using(crate::proofs::Gathered::gathered))]
fn put_names_read<'a>(entries: &[&'a Expr], list: &mut NameList<'a>) -> Result<(), NoMemory>
    requires { IsListed list.old }
    ensures names { OnOk result (names_lent list.new.names ≡ with_names (names_lent list.old.names) (names_read (exprs_lent entries.now))) }
    ensures listed { OnOk result (IsListed list.new) }
{
    for e in entries {
        put_names(e, list)?;
    }
    Ok(())
}

// Puts what a statement that sets this variable mentions behind the names of a list, where it is kept since the variable is
// visible before the run.
#[tactic(auto, using(java_mean::proofs::Sets::sets))]
fn put_where_visible<'a>(
    f: &Fragment,
    accumulators: &NameList,
    x: &Name,
    s: &'a Stmt,
    list: &mut NameList<'a>,
) -> Result<(), NoMemory>
    requires accumulators_listed { IsListed accumulators.now }
    requires accumulators { names_lent accumulators.now.names ≡ fragment.accumulators (fragment_in_code f.now) }
    requires listed { IsListed list.old }
    ensures names { OnOk result (
        names_lent list.new.names
        ≡ with_names (names_lent list.old.names) (specs.mentioned_where (specs.keeps_visible (fragment_in_code f.now) x.now) (statement s.now))) }
    ensures listed { OnOk result (IsListed list.new) }
{
    if f.visible.has(x) && !drops(f, accumulators, x) {
        put_mentioned(s, list)
    } else {
        Ok(())
    }
}

// The same of all statements of the run.
#[tactic(auto, using(crate::proofs::Gathered::gathered))]
fn put_all_visible<'a>(
    f: &Fragment<'a>,
    accumulators: &NameList,
    none: &Name,
    list: &mut NameList<'a>,
) -> Result<(), NoMemory>
    requires empty { none.now ≡ [] }
    requires accumulators_listed { IsListed accumulators.now }
    requires accumulators { names_lent accumulators.now.names ≡ fragment.accumulators (fragment_in_code f.now) }
    requires listed { IsListed list.old }
    ensures names { OnOk result (
        names_lent list.new.names
        ≡ with_names (names_lent list.old.names) (specs.mentioned_by_visible (fragment_in_code f.now) (statements f.now.run.now))) }
    ensures listed { OnOk result (IsListed list.new) }
{
    for s in f.run {
        put_where_visible(f, accumulators, set_by(s, none), s, list)?;
    }
    Ok(())
}

// The variables that are wanted to begin with, beside those that are visible before the run: those that are mentioned behind
// the loop, those that the entry values read, and those that statements mention which set a visible variable.
fn wanted_first<'a>(
    alloc: Global,
    f: &Fragment<'a>,
    entries: &[&'a Expr],
    accumulators: &NameList,
    none: &Name,
) -> Result<Box<NameList<'a>>, NoMemory>
    requires empty { none.now ≡ [] }
    requires accumulators_listed { IsListed accumulators.now }
    requires accumulators { names_lent accumulators.now.names ≡ fragment.accumulators (fragment_in_code f.now) }
    ensures names { IfOk result (λ r. names_lent r.value.names ≡ specs.wanted_first (fragment_in_code f.now) (names_read (exprs_lent entries.now))) }
    ensures listed { IfOk result (λ r. IsListed r.value) }
{
    let mut list = boxed(alloc, NameList::new(alloc))?;
    put_all_mentioned(f.behind, &mut *list)?;
    put_names_read(entries, &mut *list)?;
    put_all_visible(f, accumulators, none, &mut *list)?;
    Ok(list)
}

// The wanted variables, but for those that are visible before the run.
fn wanted_of<'a>(
    alloc: Global,
    f: &Fragment<'a>,
    entries: &[&'a Expr],
    accumulators: &NameList,
    none: &Name,
) -> Result<Box<NameList<'a>>, NoMemory>
    requires empty { none.now ≡ [] }
    requires accumulators_listed { IsListed accumulators.now }
    requires accumulators { names_lent accumulators.now.names ≡ fragment.accumulators (fragment_in_code f.now) }
    ensures wanted { IfOk result (λ r. specs.AreWanted (fragment_in_code f.now) (names_read (exprs_lent entries.now)) (names_lent r.value.names)) }
    ensures all { IfOk result (λ r. specs.HasAll (names_lent r.value.names) (specs.wanted_first (fragment_in_code f.now) (names_read (exprs_lent entries.now)))) }
    ensures following { IfOk result (λ r. specs.HasFollowing (fragment_in_code f.now) (names_lent r.value.names) (names_lent r.value.names)) }
    ensures listed { IfOk result (λ r. IsListed r.value) }
{
    let mut list = wanted_first(alloc, f, entries, accumulators, none)?;
    let setters = held(alloc, setters_of(alloc, f.run))?;
    put_all_following(f, accumulators, &setters, &mut *list)?;
    Ok(list)
}

// Whether the statements that set this variable are kept.
#[tactic(auto, using(java_mean::proofs::Sets::sets))]
fn keeps_setting(f: &Fragment, accumulators: &NameList, wanted: &NameList, x: &Name) -> bool
    requires accumulators_listed { IsListed accumulators.now }
    requires accumulators { names_lent accumulators.now.names ≡ fragment.accumulators (fragment_in_code f.now) }
    requires listed { IsListed wanted.now }
    ensures { result ≡ specs.keeps_setting (fragment_in_code f.now) (names_lent wanted.now.names) x.now }
{
    (f.visible.has(x) || wanted.seen.has(x)) && !drops(f, accumulators, x)
}

// The numbers of the statements that set a wanted variable and aren't dropped. No block in memory has a statement whose
// number is too large.
fn kept_numbers(
    alloc: Global,
    f: &Fragment,
    accumulators: &NameList,
    wanted: &NameList,
    none: &Name,
    first: u64,
) -> Result<Numbers, NoMemory>
    requires empty { none.now ≡ [] }
    requires accumulators_listed { IsListed accumulators.now }
    requires accumulators { names_lent accumulators.now.names ≡ fragment.accumulators (fragment_in_code f.now) }
    requires listed { IsListed wanted.now }
    ensures { IfOk result (λ r. r ≡ specs.kept_numbers (fragment_in_code f.now) (names_lent wanted.now.names) first (statements f.now.run.now)) }
{
    let mut numbers = Numbers::new(alloc);
    for (i, s) in f.run.iter().enumerate() {
        if keeps_setting(f, accumulators, wanted, set_by(s, none)) {
            numbers.push(first.checked_add(i as u64).ok_or(NoMemory)?)?;
        }
    }
    Ok(numbers)
}
