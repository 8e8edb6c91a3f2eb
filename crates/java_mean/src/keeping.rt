// The fault that is kept while a program is walked.
ghost use Rattle.std.specs.Prelude.{◌≡◌};
ghost use Rattle.java_mean.specs.Rules.{only_if};
ghost use Rattle.java_mean.specs.WellTyped.{is_before, marked};
ghost use Rattle.java_mean.specs.Least.{lesser, least};

use crate::{TypeFault, TypeRule};
use qbs_base::Span;

// Whether a fault is kept rather than another: its place comes first, or it stands at the same place
// and its rule has the smaller number.
fn is_earlier(f: TypeFault, g: TypeFault) -> bool
    ensures { result ≡ is_before f g }
{
    if f.at.start < g.at.start {
        return true;
    }
    f.at.start == g.at.start && f.rule.number() < g.rule.number()
}

// Keeps a fault, where none before it is kept.
fn note(kept: &mut Option<TypeFault>, f: TypeFault)
    ensures { kept.new ≡ lesser kept.old f }
{
    match *kept {
        None => *kept = Some(f),
        Some(g) => {
            if is_earlier(f, g) {
                *kept = Some(f);
            }
        }
    }
}

/// Keeps the fault that a rule is broken at this place, where it is.
pub fn note_if(kept: &mut Option<TypeFault>, broken: bool, rule: TypeRule, at: Span)
    ensures { kept.new ≡ least kept.old (marked rule (only_if broken at)) }
{
    if broken {
        note(kept, TypeFault { rule, at });
    }
}
