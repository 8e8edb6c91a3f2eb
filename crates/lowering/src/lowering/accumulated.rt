// Accumulators and flags, as a fragment has them.
ghost use Rattle.std.specs.Prelude.{◌≡◌, ◌++◌, IfOk, OnOk, length, option_copied, map};
ghost use Rattle.std.specs.Option.{option_map};
ghost use Rattle.java_ast.specs.Reading.{expression, statement};
ghost use Rattle.kernel_lang.specs.Plain.{accumulator};
ghost use Rattle.tor_terms.specs.Plain.{forms_of};
ghost use Rattle.lowering.specs.InCode.Contexts.{numbers_given, setting_given, IsNumbered};
ghost use Rattle.loop_text.specs.Kernel.KernelForms as kernel;
ghost use Rattle.loop_text.specs.Kernel.KernelStarts as starts;
ghost use Rattle.java_loops.specs.Lowering.Lowered as specs;
ghost use Rattle.lowering.specs.InCode.LoweredInCode.{update_in_code};
ghost use Rattle.java_loops.specs.Lowering.Numbering.{loop_number};
ghost use Rattle.loop_text.specs.Sites.Reading.{column_in_code, form_in_code, round_of, site_of, taken_in_code};
ghost use Rattle.java_ast.specs.Names.{names_lent};
ghost use Rattle.lowering.specs.InCode.Reading.{setting_in_code};
ghost use Rattle.loop_text.specs.Sites.Sites as sites;

use crate::lowering::context::Context;
use crate::lowering::guards::guards_of;
use crate::numbering::counts::loop_number as loop_number_of;
use crate::numbering::numbers::column_of;
use crate::rules::k6_forms::is_distinct;
use java_ast::{Expr, ExprNode, Stmt};
use kernel_lang::{Acc, Accs, Update, pool_of};
use loop_setting::places::setting::Setting;
use loop_text::sites::bindings::{RowColumn, declared_name, is_name};
use loop_text::sites::list::{Round, Site, Sites};
use loop_text::statements::runs::{first_touching, given_by};
use loop_text::updates::best::{best_claims, best_way};
use loop_text::updates::forms::{Form, Taken, form_of};
use loop_text::updates::targets::{target_of, updates_local};
use qbs_base::{Name, NoMemory, Scalar};
use std::alloc::Global;
use tor_terms::{Elem, Formula, Loops, Way};

/// The site of an update, and its number.
#[derive(Clone, Copy)]
pub struct UpdateSite<'s, 'a> {
    pub number: usize,
    pub site: &'s Site<'a>,
}

/// The update of an accumulator.
pub fn update_of<'s, 'a>(all: &'s Sites<'a>, x: &Name) -> Option<UpdateSite<'s, 'a>>
    ensures { option_map update_in_code result ≡ starts.update_of (map site_of all.now) x.now }
{
    for (number, site) in all.as_slice().iter().enumerate() {
        if is_name(target_of(site.statement), x) {
            return Some(UpdateSite { number, site });
        }
    }
    None
}

/// The update of the flag that is declared at this number.
pub fn update_of_flag<'s, 'a>(all: &'s Sites<'a>, d: usize) -> Option<UpdateSite<'s, 'a>>
    ensures { option_map update_in_code result ≡ starts.update_of_flag (map site_of all.now) d }
{
    for (number, site) in all.as_slice().iter().enumerate() {
        if updates_local(all, d, number, site) {
            return Some(UpdateSite { number, site });
        }
    }
    None
}

// ---- Updates

fn loop_of(context: &Context, n: usize) -> u32
    requires { IsNumbered context.now }
    ensures { result ≡ loop_number (setting_given context.now).sites n }
{
    loop_number_of(context.setting, context.counts, n)
}

fn element_of_column(context: &Context, c: RowColumn) -> Elem
    requires { IsNumbered context.now }
    ensures { result ≡ specs.element_of_column (setting_given context.now) (column_in_code c.entry) }
{
    let looped = loop_of(context, c.looped);
    Elem::Field(looped, column_of(context.setting, c))
}

fn element_of(context: &Context, taken: Taken) -> Elem
    requires { IsNumbered context.now }
    ensures { result ≡ specs.element_of (setting_given context.now) (taken_in_code taken.entry) }
{
    match taken {
        Taken::Whole(j) => Elem::Whole(loop_of(context, j)),
        Taken::Column(c) => element_of_column(context, c),
    }
}

fn added(distinct: bool, e: Elem) -> Update
    ensures { result ≡ specs.added distinct e }
{
    if distinct {
        Update::PushNew(e)
    } else {
        Update::Push(e)
    }
}

fn way_or_max(way: Option<Way>) -> Way
    ensures { result ≡ specs.way_found way }
{
    match way {
        Some(way) => way,
        None => Way::Max,
    }
}

// How a best value moves.
fn way_of(alloc: Global, all: &Sites, x: &Name, c: RowColumn, r: &Round) -> Result<Way, NoMemory>
    ensures { IfOk result (λ way. way ≡ specs.way_found (kernel.best_way (map site_of all.now) x.now (column_in_code c.entry) (round_of r.now))) }
{
    let found = best_claims(alloc, x, r)?;
    Ok(way_or_max(best_way(all, x, c, found.as_slice())))
}

// The update of a variable that has this form.
fn update_with(
    alloc: Global,
    context: &Context,
    x: &Name,
    r: &Round,
    form: Form,
) -> Result<Update, NoMemory>
    requires { IsNumbered context.now }
    ensures { IfOk result (λ u. u ≡ specs.update_with (setting_given context.now) x.now (round_of r.now) (form_in_code form.entry)) }
{
    let w = context.setting;
    match form {
        Form::Adds(taken) => {
            let distinct = is_distinct(w.fragment.types.type_of(x));
            Ok(added(distinct, element_of(context, taken)))
        }
        Form::Counts => Ok(Update::Tick),
        Form::Sums(c) => Ok(Update::Plus(element_of_column(context, c))),
        Form::Takes(c) => {
            let way = way_of(alloc, w.sites, x, c, r)?;
            Ok(Update::Best(way, element_of_column(context, c)))
        }
        Form::Marks(_) => Ok(Update::Mark),
        Form::Other => Ok(Update::Mark),
    }
}

// ---- Starts

fn literal_of(e: &Expr) -> Result<Option<Scalar>, NoMemory>
    ensures { IfOk result (λ o. o ≡ specs.literal_given (Some (expression e.now))) }
{
    match &e.node {
        ExprNode::Lit(value) => Ok(Some(value.clone()?)),
        _ => Ok(None),
    }
}

fn literal_given(e: Option<&Expr>) -> Result<Option<Scalar>, NoMemory>
    ensures { IfOk result (λ o. o ≡ specs.literal_given (option_map expression (option_copied e.entry))) }
{
    match e {
        None => Ok(None),
        Some(e) => literal_of(e),
    }
}

fn literal_by(x: &Name, s: Option<&Stmt>) -> Result<Option<Scalar>, NoMemory>
    ensures { IfOk result (λ o. o ≡ specs.literal_by x.now (option_map statement (option_copied s.entry))) }
{
    match s {
        None => Ok(None),
        Some(s) => literal_given(given_by(x, s)),
    }
}

// What an accumulator with this update starts with.
fn start_with(w: &Setting, x: &Name, u: Update) -> Result<Option<Scalar>, NoMemory>
    ensures { IfOk result (λ o. o ≡ specs.start_with (setting_in_code w.now) x.now u) }
{
    match u {
        Update::Push(_) => Ok(None),
        Update::PushNew(_) => Ok(None),
        Update::Mark => Ok(Some(Scalar::Bool(false))),
        _ => literal_by(x, first_touching(x, w.fragment.run)),
    }
}

// A variable that is set to false is kept by its opposite.
fn is_opposite(form: Form) -> bool
    ensures { result ≡ specs.is_opposite (form_in_code form.entry) }
{
    match form {
        Form::Marks(b) => !b,
        _ => false,
    }
}

// ---- Accumulators

#[tactic(auto, using(java_loops::proofs::Lowering::LoweredAccumulators::accumulating))]
fn chain_of(alloc: Global, context: &Context, loops: &[usize]) -> Result<Loops, NoMemory>
    requires { IsNumbered context.now }
    ensures { IfOk result (λ chain. chain ≡ map (loop_number (setting_given context.now).sites) loops.now) }
{
    let mut chain = Loops::new(alloc);
    for j in loops {
        chain.push(loop_of(context, *j))?;
    }
    Ok(chain)
}

// How many loops stand round a place. What has no 32 bits is more than memory holds.
fn depth_of(r: &Round) -> Result<u32, NoMemory>
    ensures { IfOk result (λ depth. depth ≡ length (round_of r.now).loops) }
{
    match u32::try_from(r.loops.len()) {
        Ok(depth) => Ok(depth),
        Err(_) => Err(NoMemory),
    }
}

// The accumulator of a variable with an update of this form.
fn accumulator_with(
    alloc: Global,
    context: &Context,
    conditions: &[Formula],
    x: &Name,
    base: u32,
    r: &Round,
    form: Form,
) -> Result<Acc, NoMemory>
    requires { IsNumbered context.now }
    ensures { IfOk result (λ a.
        accumulator a
        ≡ specs.accumulator_with (setting_given context.now) (numbers_given context.now) (forms_of conditions.now) x.now base (round_of r.now) (form_in_code form.entry)) }
{
    let atoms = context.numbers.atoms.as_slice();
    let update = update_with(alloc, context, x, r, form)?;
    let chain = chain_of(alloc, context, r.loops.as_slice())?;
    let guards = guards_of(alloc, context, r)?;
    let start = start_with(context.setting, x, update)?;
    let pool = pool_of(alloc, atoms, conditions, chain.as_slice(), base)?;
    Ok(Acc {
        chain,
        base,
        guards,
        update,
        start,
        opposite: is_opposite(form),
        pool,
    })
}

// Appends the accumulator of a variable with this update, whose declaration stands in so many loops.
#[tactic(auto, using(java_loops::proofs::Lowering::LoweredAccumulators::accumulating))]
fn push_accumulator(
    alloc: Global,
    context: &Context,
    conditions: &[Formula],
    x: &Name,
    base: u32,
    update: Option<UpdateSite>,
    accs: &mut Accs,
) -> Result<(), NoMemory>
    requires { IsNumbered context.now }
    ensures { OnOk result (
        map accumulator accs.new
        ≡ map accumulator accs.old
        ++ specs.accumulator_of (setting_given context.now) (numbers_given context.now) (forms_of conditions.now) x.now base (option_map update_in_code update.entry)) }
{
    match update {
        None => Ok(()),
        Some(u) => {
            let form = form_of(context.setting.sites, u.number, u.site.statement);
            let acc = accumulator_with(alloc, context, conditions, x, base, &u.site.round, form)?;
            accs.push(acc)
        }
    }
}

#[tactic(auto, using(java_loops::proofs::Lowering::LoweredAccumulators::accumulating))]
fn push_outer(
    alloc: Global,
    context: &Context,
    conditions: &[Formula],
    names: &[&Name],
    accs: &mut Accs,
) -> Result<(), NoMemory>
    requires { IsNumbered context.now }
    ensures { OnOk result (
        map accumulator accs.new
        ≡ map accumulator accs.old
        ++ specs.outer_accumulators (setting_given context.now) (numbers_given context.now) (forms_of conditions.now) (names_lent names.now)) }
{
    for x in names {
        let update = update_of(context.setting.sites, x);
        push_accumulator(alloc, context, conditions, x, 0, update, accs)?;
    }
    Ok(())
}

#[tactic(auto, using(java_loops::proofs::Lowering::LoweredAccumulators::accumulating))]
fn push_flag(
    alloc: Global,
    context: &Context,
    conditions: &[Formula],
    d: usize,
    s: &Site,
    accs: &mut Accs,
) -> Result<(), NoMemory>
    requires { IsNumbered context.now }
    ensures { OnOk result (
        map accumulator accs.new
        ≡ map accumulator accs.old
        ++ specs.flag_here (setting_given context.now) (numbers_given context.now) (forms_of conditions.now) d (site_of s.now).round (sites.declared_name (site_of s.now).statement)) }
{
    match declared_name(s.statement) {
        None => Ok(()),
        Some(x) => {
            let base = depth_of(&s.round)?;
            let update = update_of_flag(context.setting.sites, d);
            push_accumulator(alloc, context, conditions, x, base, update, accs)
        }
    }
}

#[tactic(auto, using(java_loops::proofs::Lowering::LoweredAccumulators::accumulating))]
fn push_flags(
    alloc: Global,
    context: &Context,
    conditions: &[Formula],
    accs: &mut Accs,
) -> Result<(), NoMemory>
    requires { IsNumbered context.now }
    ensures { OnOk result (
        map accumulator accs.new
        ≡ map accumulator accs.old
        ++ specs.flags_from (setting_given context.now) (numbers_given context.now) (forms_of conditions.now) 0 (map site_of context.now.setting.now.sites.now)) }
{
    for (d, s) in context.setting.sites.as_slice().iter().enumerate() {
        push_flag(alloc, context, conditions, d, s, accs)?;
    }
    Ok(())
}

/// The accumulators of these variables, and behind them all flags.
#[tactic(auto, using(java_loops::proofs::Lowering::LoweredAccumulators::accumulating))]
pub fn accumulators_of(
    alloc: Global,
    context: &Context,
    conditions: &[Formula],
    names: &[&Name],
) -> Result<Accs, NoMemory>
    requires { IsNumbered context.now }
    ensures { IfOk result (λ accs.
        map accumulator accs
        ≡ specs.accumulators_of (setting_given context.now) (numbers_given context.now) (forms_of conditions.now) (names_lent names.now)) }
{
    let mut accs = Accs::new(alloc);
    push_outer(alloc, context, conditions, names, &mut accs)?;
    push_flags(alloc, context, conditions, &mut accs)?;
    Ok(accs)
}
