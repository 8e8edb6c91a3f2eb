// The guards of accumulators, and the conditions of all `if`s.
ghost use Rattle.std.specs.Prelude.{◌≡◌, ◌++◌, IfOk, OnOk, option_copied, map};
ghost use Rattle.std.specs.Option.{option_map};
ghost use Rattle.java_ast.specs.Reading.{expression};
ghost use Rattle.kernel_lang.specs.Plain.{guard_of};
ghost use Rattle.tor_terms.specs.Plain.{form_of, forms_of};
ghost use Rattle.lowering.specs.InCode.Contexts.{numbers_given, setting_given, IsNumbered};
ghost use Rattle.java_loops.specs.Lowering.Lowered as specs;
ghost use Rattle.java_loops.specs.Lowering.Numbering as numbering;
ghost use Rattle.loop_text.specs.Sites.Reading.{round_of};

use crate::lowering::context::Context;
use crate::numbering::numbers::{both_of, form_counted};
use java_ast::Expr;
use kernel_lang::Guards;
use loop_places::asks::asked_at;
use loop_text::conditions::flags::condition_of;
use loop_text::sites::list::Round;
use qbs_base::NoMemory;
use std::alloc::Global;
use tor_terms::{Formula, Formulas};

// The formula that a condition holds, or fails.
fn form_at(
    alloc: Global,
    context: &Context,
    n: usize,
    holds: bool,
    e: &Expr,
) -> Result<Option<Formula>, NoMemory>
    requires { IsNumbered context.now }
    ensures { IfOk result (λ o. option_map form_of o ≡ numbering.form_of_condition (setting_given context.now) (numbers_given context.now) n holds (expression e.now)) }
{
    form_counted(
        alloc,
        context.setting,
        context.numbers,
        context.counts,
        n,
        holds,
        e,
    )
}

// The conditions between the loop of this level and the next one, joined from left to right.
#[tactic(auto, using(java_loops::proofs::Lowering::LoweredGuards::guards))]
fn guard_at(
    alloc: Global,
    context: &Context,
    r: &Round,
    level: usize,
) -> Result<Option<Formula>, NoMemory>
    requires { IsNumbered context.now }
    ensures { IfOk result (λ guard. guard_of guard ≡ specs.guard_at (setting_given context.now) (numbers_given context.now) (round_of r.now) level) }
{
    let mut guard = None;
    for t in r.tests.as_slice() {
        if let Some(a) = asked_at(t, level) {
            let next = form_at(alloc, context, a.number, a.holds, a.condition)?;
            guard = both_of(alloc, guard, next)?;
        }
    }
    Ok(guard)
}

/// The guard of each loop round a place, the outermost first.
#[tactic(auto, using(java_loops::proofs::Lowering::LoweredGuards::guards))]
pub fn guards_of(alloc: Global, context: &Context, r: &Round) -> Result<Guards, NoMemory>
    requires { IsNumbered context.now }
    ensures { IfOk result (λ guards.
        map guard_of guards ≡ specs.guards_from (setting_given context.now) (numbers_given context.now) (round_of r.now) 1 (round_of r.now).loops) }
{
    let mut guards = Guards::new(alloc);
    for level in 0..r.loops.len() {
        guards.push(guard_at(alloc, context, r, level + 1)?)?;
    }
    Ok(guards)
}

// The formula of a condition as it is written, where there is one.
fn form_written(
    alloc: Global,
    context: &Context,
    n: usize,
    c: Option<&Expr>,
) -> Result<Option<Formula>, NoMemory>
    requires { IsNumbered context.now }
    ensures { IfOk result (λ o.
        specs.found_form (option_map form_of o)
        ≡ specs.form_written (setting_given context.now) (numbers_given context.now) n (option_map expression (option_copied c.entry))) }
{
    match c {
        None => Ok(None),
        Some(c) => form_at(alloc, context, n, true, c),
    }
}

#[tactic(auto, using(java_loops::proofs::Lowering::LoweredGuards::guards))]
fn push_found(o: Option<Formula>, forms: &mut Formulas) -> Result<(), NoMemory>
    ensures { OnOk result (forms_of forms.new ≡ forms_of forms.old ++ specs.found_form (option_map form_of o)) }
{
    match o {
        None => Ok(()),
        Some(f) => forms.push(f),
    }
}

/// The conditions of all `if`s in text order as they are written, without the conjuncts of best values.
#[tactic(auto, using(java_loops::proofs::Lowering::LoweredGuards::guards))]
pub fn conditions_of(alloc: Global, context: &Context) -> Result<Formulas, NoMemory>
    requires { IsNumbered context.now }
    ensures { IfOk result (λ forms. forms_of forms ≡ specs.conditions_of (setting_given context.now) (numbers_given context.now)) }
{
    let mut forms = Formulas::new(alloc);
    for (n, s) in context.setting.sites.as_slice().iter().enumerate() {
        let form = form_written(alloc, context, n, condition_of(s.statement))?;
        push_found(form, &mut forms)?;
    }
    Ok(forms)
}
