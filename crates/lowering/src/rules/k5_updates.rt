// How often variables are updated in a loop.
ghost use Rattle.std.specs.Prelude.{◌≡◌};
ghost use Rattle.loop_text.specs.Statements.Fragment as fragment;
ghost use Rattle.java_loops.specs.Kernel.KernelStatements as specs;
ghost use Rattle.lowering.specs.InCode.Reading.{setting_in_code};
ghost use Rattle.loop_setting.specs.Reading.{fragment_in_code};
ghost use Rattle.java_ast.specs.Names.{names_lent};

use loop_setting::places::setting::Setting;
use loop_text::sites::list::place_where;
use loop_text::updates::targets::{first_broken_update, first_place, has_idle_flag, is_none};
use qbs_base::{Name, Span};

/// K5: the loop, where no accumulator is needed or a flag isn't updated; and else the first update of what
/// was updated before, or that stands beside the one before a `break` of its loop.
#[tactic(auto, using(loop_text::proofs::Trees::Rounds::rounds))]
pub fn broken_updates(w: &Setting, needed: &[&Name]) -> Option<Span>
    requires { names_lent needed.now ≡ fragment.needed_of (fragment_in_code w.now.fragment) }
    ensures { result ≡ specs.broken_updates (setting_in_code w.now) }
{
    first_place(
        place_where(
            is_none(needed) || has_idle_flag(w.sites),
            w.fragment.looped.span,
        ),
        first_broken_update(w.sites),
    )
}
