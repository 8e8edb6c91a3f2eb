//! Worked classes with a call, and what they are inlined to. They do nothing.
ghost use Rattle.std.specs.Prelude.{◌≡◌};
ghost use Rattle.std.specs.declared.option.Option.TheVariants.{Some};
ghost use Rattle.java_calls.specs.Inlining.{inlined_within};
ghost use Rattle.java_calls.specs.Worked.{class_with, calling, replaced};
ghost use Rattle.inlining.specs.Inlined.{IsWhole};
ghost use Rattle.inlining.specs.Worked.{calling_marked, replaced_marked};

/// A class whose method calls a helper breaks no rule, and this is the class without the call.
pub fn worked_class_is_inlined()
    ensures { IsWhole (class_with calling) (class_with replaced) }
{}

/// Where a name ends in the mark of 1, the helper's variables take that of 2.
pub fn taken_mark_is_passed_over()
    ensures { inlined_within 1 (class_with calling_marked) ≡ Some (class_with replaced_marked) }
{}
