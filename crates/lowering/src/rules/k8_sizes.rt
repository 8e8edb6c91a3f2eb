// How many loops, accumulators, atoms, entry values, formulas and conditions a fragment has.
ghost use Rattle.std.specs.Prelude.{◌≡◌, ◌+◌, ◌≤◌, ◌&&◌, IfOk, length, map, nat_le};
ghost use Rattle.kernel_lang.specs.Plain.{accumulator};
ghost use Rattle.kernel_lang.specs.Validity as validity;
ghost use Rattle.lowering.specs.InCode.Counted.{numbers_in_code, HasFewLoops, AreNumbersOf};
ghost use Rattle.loop_text.specs.Statements.Fragment as fragment;
ghost use Rattle.java_loops.specs.Kernel.Kernel.{is_small};
ghost use Rattle.loop_text.specs.Kernel.KernelLists as lists;
ghost use Rattle.java_loops.specs.Lowering.Lowered.{fragment_with};
ghost use Rattle.lowering.specs.InCode.LoweredInCode.{IsCounted};
ghost use Rattle.java_loops.specs.Lowering.Numbering as numbering;
ghost use Rattle.lowering.specs.InCode.Reading.{setting_in_code};
ghost use Rattle.loop_setting.specs.Reading.{fragment_in_code};
ghost use Rattle.java_ast.specs.Names.{names_lent};
ghost use Rattle.loop_text.specs.Sites.Reading.{site_of};

use crate::lowering::accumulated::accumulators_of;
use crate::lowering::context::Context;
use crate::lowering::guards::conditions_of;
use crate::numbering::counts::counts_of;
use crate::numbering::numbers::{Numbers, numbers_of};
use crate::rules::k8_pools::pools_are_small;
use kernel_lang::{Acc, count_conditions};
use loop_setting::places::setting::Setting;
use loop_text::loops::limits::count_loops;
use loop_text::sites::list::Sites;
use loop_text::updates::targets::is_declaration;
use qbs_base::{Name, NoMemory};
use std::alloc::Global;

fn conditions_are_few(accs: &[Acc]) -> bool
    ensures { result ≡ nat_le (validity.count_conditions (map accumulator accs.now)) 4096 }
{
    count_conditions(accs) <= 4096
}

// ---- The rule

#[tactic(auto, using(loop_text::proofs::Trees::Rounds::rounds))]
fn count_flags(all: &Sites) -> usize
    ensures count { result ≡ numbering.count_flags (map site_of all.now) }
    ensures small { result ≤ length all.now }
{
    let mut count = 0;
    for (n, s) in all.as_slice().iter().enumerate() {
        if is_declaration(s.statement) {
            count += 1;
        }
    }
    count
}

// Whether there are at most 256 loops, and 8 accumulators and flags.
#[tactic(auto, using(crate::proofs::Ruled::LoweredCounts::counting))]
fn parts_are_few(w: &Setting, accs: &[&Name]) -> bool
    ensures { result
        ≡ (nat_le (lists.count_loops (setting_in_code w.now).sites) 256 && nat_le (length (names_lent accs.now) + numbering.count_flags (setting_in_code w.now).sites) 8) }
{
    count_loops(w.sites.as_slice()) <= 256
        && (accs.len() <= 8 && accs.len() + count_flags(w.sites) <= 8)
}

// Whether pools and conditions are few, with atoms and entry values that are.
fn fragment_is_small(
    alloc: Global,
    w: &Setting,
    t: &Numbers,
    needed: &[&Name],
) -> Result<bool, NoMemory>
    requires few { HasFewLoops (setting_in_code w.now) }
    requires needed { names_lent needed.now ≡ fragment.needed_of (fragment_in_code w.now.fragment) }
    requires numbers { AreNumbersOf (setting_in_code w.now) (numbers_in_code t.now) }
    ensures { IfOk result (λ small.
        small
        ≡ is_small (length (fragment.accumulators (setting_in_code w.now).fragment) + numbering.count_flags (setting_in_code w.now).sites) (
        fragment_with (setting_in_code w.now) (numbers_in_code t.now) (names_lent needed.now))) }
{
    let counts = counts_of(alloc, w, needed.len())?;
    let context = Context {
        setting: w,
        numbers: t,
        counts: &counts,
    };
    let conditions = conditions_of(alloc, &context)?;
    let accs = accumulators_of(alloc, &context, &[], needed)?;
    let atoms = t.atoms.as_slice();
    if pools_are_small(alloc, atoms, conditions.as_slice(), accs.as_slice())? {
        Ok(conditions_are_few(accs.as_slice()))
    } else {
        Ok(false)
    }
}

// The numbers of a loop of which there are few, where its fragment is small.
fn numbered<'a>(
    alloc: Global,
    w: &Setting<'a>,
    needed: &[&Name],
) -> Result<Option<Numbers<'a>>, NoMemory>
    requires few { HasFewLoops (setting_in_code w.now) }
    requires needed { names_lent needed.now ≡ fragment.needed_of (fragment_in_code w.now.fragment) }
    ensures { IfOk result (IsCounted (setting_in_code w.now)) }
{
    match numbers_of(alloc, w, needed.len())? {
        None => Ok(None),
        Some(t) => {
            if fragment_is_small(alloc, w, &t, needed)? {
                Ok(Some(t))
            } else {
                Ok(None)
            }
        }
    }
}

/// K8: the numbers of a loop whose fragment is small, and none where it isn't; then the place is the loop's.
pub fn counted<'a>(
    alloc: Global,
    w: &Setting<'a>,
    accs: &[&Name],
    needed: &[&Name],
) -> Result<Option<Numbers<'a>>, NoMemory>
    requires accs { names_lent accs.now ≡ fragment.accumulators (fragment_in_code w.now.fragment) }
    requires needed { names_lent needed.now ≡ fragment.needed_of (fragment_in_code w.now.fragment) }
    ensures { IfOk result (IsCounted (setting_in_code w.now)) }
{
    if parts_are_few(w, accs) {
        numbered(alloc, w, needed)
    } else {
        Ok(None)
    }
}
