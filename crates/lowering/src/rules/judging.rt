// The rule of the kernel form that a loop breaks first.
ghost use Rattle.std.specs.Prelude.{◌≡◌, IfOk, IfErr, None};
ghost use Rattle.std.specs.Option.{option_map};
ghost use Rattle.lowering.specs.InCode.Counted.{numbers_in_code};
ghost use Rattle.loop_text.specs.Statements.Fragment as fragment;
ghost use Rattle.lowering.specs.Lowers.{broken_in_code};
ghost use Rattle.lowering.specs.InCode.Reading.{setting_in_code};
ghost use Rattle.loop_setting.specs.Reading.{fragment_in_code};
ghost use Rattle.java_ast.specs.Names.{names_lent};
ghost use Rattle.lowering.specs.InCode.Verdicts.{first_rules, middle_rules, BreaksNone, BreaksFirst};

use crate::numbering::numbers::Numbers;
use crate::rules::k1_loop::broken_loop;
use crate::rules::k2_lists::broken_lists;
use crate::rules::k4_statements::broken_statements;
use crate::rules::k5_updates::broken_updates;
use crate::rules::k6_forms::broken_forms;
use crate::rules::k7_conditions::broken_conditions;
use crate::rules::k8_sizes::counted;
use crate::rules::k9_starts::broken_starts;
use loop_places::outside::{Outside, first_broken};
use loop_setting::places::setting::Setting;
use loop_text::loops::limits::broken_depth;
use qbs_base::{Fail, Name, NoMemory};
use std::alloc::Global;

// Of the rules on the loop itself, its lists, its depth and its statements.
fn broken_first(w: &Setting) -> Option<Outside>
    ensures { option_map broken_in_code result ≡ first_rules (setting_in_code w.now) None }
{
    first_broken(
        broken_loop(w),
        broken_lists(w),
        broken_depth(w.sites),
        broken_statements(w),
    )
}

// Of the rules on updates, their forms, and conditions.
fn broken_between(alloc: Global, w: &Setting, needed: &[&Name]) -> Result<Option<Outside>, NoMemory>
    requires { names_lent needed.now ≡ fragment.needed_of (fragment_in_code w.now.fragment) }
    ensures { IfOk result (λ o. option_map broken_in_code o ≡ middle_rules (setting_in_code w.now) None) }
{
    if let Some(at) = broken_updates(w, needed) {
        return Ok(Some(Outside { rule: 5, at }));
    }
    if let Some(at) = broken_forms(alloc, w)? {
        return Ok(Some(Outside { rule: 6, at }));
    }
    match broken_conditions(alloc, w)? {
        None => Ok(None),
        Some(at) => Ok(Some(Outside { rule: 7, at })),
    }
}

// The numbers of a loop that breaks none of the first seven rules, where it breaks neither of the others.
#[tactic(auto, using(loop_text::proofs::Trees::Rounds::rounds))]
fn judged_last<'a>(
    alloc: Global,
    w: &Setting<'a>,
    accs: &[&Name],
    needed: &[&Name],
) -> Result<Numbers<'a>, Fail<Outside>>
    requires accs { names_lent accs.now ≡ fragment.accumulators (fragment_in_code w.now.fragment) }
    requires needed { names_lent needed.now ≡ fragment.needed_of (fragment_in_code w.now.fragment) }
    requires first { first_rules (setting_in_code w.now) None ≡ None }
    requires middle { middle_rules (setting_in_code w.now) None ≡ None }
    ensures numbers { IfOk result (λ t. BreaksNone (setting_in_code w.now) (numbers_in_code t)) }
    ensures outside { IfErr result (BreaksFirst (setting_in_code w.now)) }
{
    match counted(alloc, w, accs, needed)? {
        None => Err(Fail::Fault(Outside {
            rule: 8,
            at: w.fragment.looped.span,
        })),
        Some(t) => match broken_starts(alloc, w, accs)? {
            None => Ok(t),
            Some(at) => Err(Fail::Fault(Outside { rule: 9, at })),
        },
    }
}

/// The numbers of a loop that breaks no rule of the kernel form, and else the one that it breaks first.
pub fn judged<'a>(
    alloc: Global,
    w: &Setting<'a>,
    accs: &[&Name],
    needed: &[&Name],
) -> Result<Numbers<'a>, Fail<Outside>>
    requires accs { names_lent accs.now ≡ fragment.accumulators (fragment_in_code w.now.fragment) }
    requires needed { names_lent needed.now ≡ fragment.needed_of (fragment_in_code w.now.fragment) }
    ensures numbers { IfOk result (λ t. BreaksNone (setting_in_code w.now) (numbers_in_code t)) }
    ensures outside { IfErr result (BreaksFirst (setting_in_code w.now)) }
{
    match broken_first(w) {
        Some(outside) => Err(Fail::Fault(outside)),
        None => match broken_between(alloc, w, needed)? {
            Some(outside) => Err(Fail::Fault(outside)),
            None => judged_last(alloc, w, accs, needed),
        },
    }
}
