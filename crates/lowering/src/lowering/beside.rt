// What stands beside a lowered fragment.
ghost use Rattle.std.specs.Prelude.{◌≡◌, ◌<◌, ◌≤◌, ◌^◌, ◌++◌, ◌∷◌, [], true, IfOk, OnOk, Some, None, length, option_copied, map};
ghost use Rattle.std.specs.List.{AllByRecursion, list_all};
ghost use Rattle.std.specs.Option.{option_map};
ghost use Rattle.sql_ast.specs.Reading.{query};
ghost use Rattle.sql_ast.specs.Valid.{IsQueryOf};
ghost use Rattle.java_ast.specs.Reading.{expression, expressions, statement, statements};
ghost use Rattle.kernel_lang.specs.Parts.{parts_of};
ghost use Rattle.kernel_lang.specs.Validity as validity;
ghost use Rattle.kernel_lang.specs.Whole.{fragment_of};
ghost use Rattle.lowering.specs.Asked.{HasQueriesOf};
ghost use Rattle.lowering.specs.InCode.Counted.{numbers_in_code, HasFewLoops, AreNumbersOf};
ghost use Rattle.loop_text.specs.Statements.Fragment as fragment;
ghost use Rattle.loop_text.specs.Kernel.KernelConditions as conditions;
ghost use Rattle.java_loops.specs.Lowering.Lowered as specs;
ghost use Rattle.lowering.specs.InCode.LoweredInCode.{has_query, set_among};
ghost use Rattle.lowering.specs.Lowers.{lowering_in_code};
ghost use Rattle.java_loops.specs.Lowering.Numbering as numbering;
ghost use Rattle.loop_text.specs.Sites.Reading.{asked_in_code, exprs_lent};
ghost use Rattle.lowering.specs.InCode.Reading.{setting_in_code};
ghost use Rattle.loop_setting.specs.Reading.{fragment_in_code};
ghost use Rattle.java_ast.specs.Names.{names_lent};
ghost use Rattle.loop_text.specs.Sites.Sites as sites;

use crate::lowering::lowered::Lowered;
use crate::lowering::parts::fragment_with;
use crate::numbering::numbers::{Numbers, entry_number};
use crate::rules::k7_known::asked_for;
use java_ast::{Expr, Exprs, Stmt};
use java_copies::copy_expression;
use java_types::read_query;
use kernel_lang::{KFragment, Parts};
use loop_setting::places::setting::Setting;
use loop_text::conditions::asked::Asked;
use loop_text::sites::bindings::declared_name;
use loop_text::statements::names::sets;
use qbs_base::{Items, Name, Names, NoMemory, NumberLists, Text, boxed};
use sql_ast::{Queries, Query};
use std::alloc::Global;

// ---- The needed accumulators in order

// The name that a statement sets, where it is one of these.
fn set_name<'a>(names: &[&'a Name], s: &Stmt) -> Option<&'a Name>
    ensures { option_copied result ≡ set_among (names_lent names.now) (statement s.now) }
{
    for x in names {
        if sets(s, x) {
            return Some(*x);
        }
    }
    None
}

fn push_set<'a>(names: &[&'a Name], s: &Stmt, ordered: &mut Items<&'a Name>) -> Result<(), NoMemory>
    ensures { OnOk result (names_lent ordered.new ≡ names_lent ordered.old ++ specs.found_name (set_among (names_lent names.now) (statement s.now))) }
{
    match set_name(names, s) {
        None => Ok(()),
        Some(x) => ordered.push(x),
    }
}

// The names that a run sets, one for each statement that sets one of these.
#[tactic(auto, using(crate::proofs::Lowerings::LoweredBeside::beside))]
fn set_in_order<'a>(
    alloc: Global,
    names: &[&'a Name],
    run: &[Stmt],
) -> Result<Items<&'a Name>, NoMemory>
    ensures { IfOk result (λ r. names_lent r ≡ specs.set_in_order (names_lent names.now) (statements run.now)) }
{
    let mut ordered = Items::new(alloc);
    for s in run {
        push_set(names, s, &mut ordered)?;
    }
    Ok(ordered)
}

/// The needed accumulators in the order of the statements that start them.
pub fn needed_in_order<'a>(
    alloc: Global,
    w: &Setting,
    needed: &[&'a Name],
) -> Result<Items<&'a Name>, NoMemory>
    requires { names_lent needed.now ≡ fragment.needed_of (fragment_in_code w.now.fragment) }
    ensures { IfOk result (λ r. names_lent r ≡ specs.needed_in_order (setting_in_code w.now)) }
{
    set_in_order(alloc, needed, w.fragment.run)
}

// ---- Names and entry values

fn push_name(x: &Name, names: &mut Names) -> Result<(), NoMemory>
    ensures { OnOk result (names.new ≡ names.old ++ x.now ∷ []) }
{
    names.push(x.clone()?)
}

/// Copies of names.
#[tactic(auto, using(crate::proofs::Lowerings::LoweredBeside::beside))]
pub fn copy_names(alloc: Global, names: &[&Name]) -> Result<Names, NoMemory>
    ensures { IfOk result (λ copies. copies ≡ names_lent names.now) }
{
    let mut copies = Names::new(alloc);
    for x in names {
        push_name(x, &mut copies)?;
    }
    Ok(copies)
}

fn push_declared(s: &Stmt, names: &mut Names) -> Result<(), NoMemory>
    ensures { OnOk result (names.new ≡ names.old ++ specs.found_name (sites.declared_name (statement s.now))) }
{
    match declared_name(s) {
        None => Ok(()),
        Some(x) => push_name(x, names),
    }
}

#[tactic(auto, using(crate::proofs::Lowerings::LoweredBeside::beside))]
fn push_flag_names(w: &Setting, names: &mut Names) -> Result<(), NoMemory>
    ensures { OnOk result (names.new ≡ names.old ++ specs.names_of_flags (setting_in_code w.now).sites) }
{
    for s in w.sites.as_slice() {
        push_declared(s.statement, names)?;
    }
    Ok(())
}

// The variables of the accumulators, and behind them those of all flags.
fn names_of(alloc: Global, w: &Setting, names: &[&Name]) -> Result<Names, NoMemory>
    ensures { IfOk result (λ all. all ≡ names_lent names.now ++ specs.names_of_flags (setting_in_code w.now).sites) }
{
    let mut all = copy_names(alloc, names)?;
    push_flag_names(w, &mut all)?;
    Ok(all)
}

#[tactic(auto, using(crate::proofs::Lowerings::LoweredBeside::beside))]
fn copy_entries(alloc: Global, entries: &[&Expr]) -> Result<Exprs, NoMemory>
    ensures { IfOk result (λ copies. map expression copies ≡ exprs_lent entries.now) }
{
    let mut copies = Exprs::new(alloc);
    for e in entries {
        copies.push(copy_expression(alloc, e)?)?;
    }
    Ok(copies)
}

// ---- Known lists

// Reads the length of a text: that of any that is held has 64 bits. It changes nothing.
fn read_length(text: &Text)
    ensures { length text.now < 2 ^ 64 }
{
    let _length = text.as_str().len();
}

// The query that the run gives to a variable.
fn query_asked(alloc: Global, w: &Setting, x: &Name) -> Result<Query, NoMemory>
    requires { has_query (setting_in_code w.now) x.now ≡ true }
    ensures asked { IfOk result (λ q. Some (query q) ≡ specs.query_asked (setting_in_code w.now).read (conditions.asked_for (setting_in_code w.now).fragment.run x.now)) }
    ensures valid { IfOk result (λ q. IsQueryOf (setting_in_code w.now).schema (query q)) }
{
    match asked_for(w.fragment.run, x) {
        None => unreachable!(),
        Some(a) => {
            read_length(a.text);
            match read_query(alloc, w.schema, a.text)? {
                None => unreachable!(),
                Some(q) => Ok(q),
            }
        }
    }
}

#[tactic(auto, using(crate::proofs::Lowerings::LoweredBeside::beside, crate::proofs::Known::KnownHeld::valid_added))]
fn queries_asked(alloc: Global, w: &Setting, known: &[&Name]) -> Result<Queries, NoMemory>
    requires { list_all (has_query (setting_in_code w.now)) (names_lent known.now) ≡ true }
    ensures valid { IfOk result (AllByRecursion (λ q. IsQueryOf (setting_in_code w.now).schema (query q))) }
    ensures asked { IfOk result (λ qs.
        map (λ q. Some (query q)) qs
        ≡ map (λ x. specs.query_asked (setting_in_code w.now).read (conditions.asked_for (setting_in_code w.now).fragment.run x)) (names_lent known.now)) }
{
    let mut queries = Queries::new(alloc);
    for x in known {
        queries.push(query_asked(alloc, w, x)?)?;
    }
    Ok(queries)
}

#[tactic(auto, using(crate::proofs::Lowerings::LoweredBeside::beside))]
fn numbers_of_arguments(
    alloc: Global,
    entries: &[&Expr],
    arguments: &[Expr],
) -> Result<qbs_base::Numbers, NoMemory>
    requires { length entries.now ≤ 9 }
    ensures { IfOk result (λ ns. ns ≡ specs.numbers_of_arguments (exprs_lent entries.now) (numbering.arguments (expressions arguments.now))) }
{
    let mut numbers = qbs_base::Numbers::new(alloc);
    for e in arguments {
        numbers.push(u64::from(entry_number(entries, e)))?;
    }
    Ok(numbers)
}

fn numbers_asked(
    alloc: Global,
    entries: &[&Expr],
    asked: Option<Asked>,
) -> Result<qbs_base::Numbers, NoMemory>
    requires { length entries.now ≤ 9 }
    ensures { IfOk result (λ ns. ns ≡ specs.numbers_of_arguments (exprs_lent entries.now) (numbering.arguments_asked (option_map asked_in_code asked.entry))) }
{
    match asked {
        None => Ok(qbs_base::Numbers::new(alloc)),
        Some(a) => numbers_of_arguments(alloc, entries, a.arguments),
    }
}

// The entry numbers of the arguments of each known query.
#[tactic(auto, using(crate::proofs::Lowerings::LoweredBeside::beside))]
fn arguments_of(
    alloc: Global,
    w: &Setting,
    entries: &[&Expr],
    known: &[&Name],
) -> Result<NumberLists, NoMemory>
    requires { length entries.now ≤ 9 }
    ensures { IfOk result (λ all.
        all
        ≡ map (λ x. specs.numbers_of_arguments (exprs_lent entries.now) (numbering.arguments_asked (conditions.asked_for (setting_in_code w.now).fragment.run x))) (names_lent known.now)) }
{
    let mut all = NumberLists::new(alloc);
    for x in known {
        all.push(numbers_asked(alloc, entries, asked_for(w.fragment.run, x))?)?;
    }
    Ok(all)
}

// ---- The whole

fn valid_fragment(parts: Parts) -> KFragment
    requires { validity.broken (parts_of parts) ≡ None }
    ensures { fragment_of result ≡ parts_of parts }
{
    match KFragment::from_parts(parts) {
        Ok(fragment) => fragment,
        Err(_) => unreachable!(),
    }
}

/// The lowered fragment with the accumulators of these variables and all flags, and what stands beside it, for a loop
/// whose fragment is valid and whose known lists have queries.
pub fn lowering_with(
    alloc: Global,
    w: &Setting,
    t: &Numbers,
    needed: usize,
    names: &[&Name],
    first: u64,
    kept: qbs_base::Numbers,
) -> Result<Box<Lowered>, NoMemory>
    requires few { HasFewLoops (setting_in_code w.now) }
    requires needed { needed ≡ length (fragment.needed_of (setting_in_code w.now).fragment) }
    requires numbers { AreNumbersOf (setting_in_code w.now) (numbers_in_code t.now) }
    requires valid { validity.broken (specs.fragment_with (setting_in_code w.now) (numbers_in_code t.now) (names_lent names.now)) ≡ None }
    requires known { list_all (has_query (setting_in_code w.now)) (numbers_in_code t.now).known ≡ true }
    ensures lowered { IfOk result (λ l. lowering_in_code l.value ≡ specs.lowering_with (setting_in_code w.now) (numbers_in_code t.now) (names_lent names.now)) }
    ensures queries { IfOk result (λ l. HasQueriesOf (setting_in_code w.now).schema (lowering_in_code l.value)) }
    ensures first { IfOk result (λ l. l.value.first ≡ first) }
    ensures kept { IfOk result (λ l. l.value.kept ≡ kept) }
{
    let entries = t.entries.as_slice();
    let known = t.known.as_slice();
    let parts = fragment_with(alloc, w, t, needed, names)?;
    let lowered = boxed(
        alloc,
        Lowered {
            frag: valid_fragment(parts),
            names: names_of(alloc, w, names)?,
            entries: copy_entries(alloc, entries)?,
            known: queries_asked(alloc, w, known)?,
            known_args: arguments_of(alloc, w, entries, known)?,
            first,
            kept,
        },
    )?;
    Ok(lowered)
}
