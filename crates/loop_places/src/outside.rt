//! The rule of the kernel form that a loop breaks first.
ghost use Rattle.std.specs.Prelude.{◌≡◌};
ghost use Rattle.loop_places.specs.FirstBroken as specs;

use qbs_base::Span;

/// The rule of the kernel form, from 1 to 9, that a loop breaks first, and the first place that breaks it.
#[derive(Clone, Copy, PartialEq, Eq)]
pub struct Outside {
    pub rule: u32,
    pub at: Span,
}

/// The least of the first four rules that is broken: those on the loop itself, its lists, its depth and its statements, each
/// with the place that breaks it.
pub fn first_broken(
    looped: Option<Span>,
    lists: Option<Span>,
    depth: Option<Span>,
    statements: Option<Span>,
) -> Option<Outside>
    ensures { result ≡ specs.first_broken looped lists depth statements }
{
    if let Some(at) = looped {
        return Some(Outside { rule: 1, at });
    }
    if let Some(at) = lists {
        return Some(Outside { rule: 2, at });
    }
    if let Some(at) = depth {
        return Some(Outside { rule: 3, at });
    }
    match statements {
        None => None,
        Some(at) => Some(Outside { rule: 4, at }),
    }
}
