// What accumulators and flags start with.
ghost use Rattle.std.specs.Prelude.{◌≡◌, IfOk};
ghost use Rattle.loop_text.specs.Statements.Fragment as fragment;
ghost use Rattle.java_loops.specs.Kernel.KernelStarts as specs;
ghost use Rattle.lowering.specs.InCode.Reading.{setting_in_code};
ghost use Rattle.loop_setting.specs.Reading.{fragment_in_code};
ghost use Rattle.java_ast.specs.Names.{names_lent};

use loop_setting::places::setting::Setting;
use loop_text::updates::starts::{broken_starts_of, first_flag_start};
use loop_text::updates::targets::first_place;
use qbs_base::{Name, NoMemory, Span};
use std::alloc::Global;

/// K9: the first statement of the run that mentions an accumulator and doesn't start it rightly, the loop
/// where none mentions one, and then the first flag that isn't declared with the opposite of its update.
#[tactic(auto, using(loop_text::proofs::Trees::Rounds::rounds))]
pub fn broken_starts(alloc: Global, w: &Setting, accs: &[&Name]) -> Result<Option<Span>, NoMemory>
    requires { names_lent accs.now ≡ fragment.accumulators (fragment_in_code w.now.fragment) }
    ensures { IfOk result (λ o. o ≡ specs.broken_starts (setting_in_code w.now)) }
{
    let first = broken_starts_of(alloc, w.sites, w.fragment.looped.span, accs, w.fragment.run)?;
    Ok(first_place(first, first_flag_start(w.sites)))
}
