//! Laws with examples. They do nothing.
ghost use Rattle.std.specs.Prelude.{◌≡◌, true, bytes_eq};
ghost use Rattle.std.specs.declared.option.Option.TheVariants.{Some};
ghost use Rattle.qbs_base.specs.declared.span.Span.{Span};
ghost use Rattle.java_mean.specs.Types.{types_past};
ghost use Rattle.java_mean.specs.Typing.{Frame};
ghost use Rattle.java_loops.specs.Walks.Counting.{IsCountingText};
ghost use Rattle.java_loops.specs.Walks.Replacing.{MayGiveWay, replacement};
ghost use Rattle.java_loops.specs.Walks.Needed.{needed};
ghost use Rattle.java_loops.specs.Walks.Examples.{b, i, u, xs, table, first_two, adding, starting, until_set, kept_names, set_at_once, set_before, none_visible, no_names, moving};

/// A loop counts through the first two rows of a list. A flag that a loop sets gives way to the flag that is
/// set at once, while a statement before the loop is kept. For the sake of a variable that a statement in the
/// middle sets, what the last statement reads is needed too.
pub fn examples_count_and_give_way()
    ensures counts { (at : Span) → IsCountingText table i xs u (Some 2) (first_two at) (adding at) }
    ensures may { (c : Frame) (at : Span)
        → MayGiveWay c none_visible (types_past c.schema none_visible (replacement kept_names (starting at) (set_at_once at))) (starting at) (until_set at) kept_names (set_at_once at) }
    ensures moved { (at : Span) → needed (bytes_eq b) no_names (moving at) u ≡ true }
    ensures to { (at : Span) → replacement kept_names (starting at) (set_at_once at) ≡ set_before at }
{}
