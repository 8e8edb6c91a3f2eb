//! What a worked class with a call does, as a law that computes. It does nothing.
ghost use Rattle.std.specs.Prelude.{◌≡◌, pos, []};
ghost use Rattle.std.specs.declared.option.Option.TheVariants.{Some};
ghost use Rattle.qbs_base.specs.declared.scalar.Scalar.TheVariants as scalars;
ghost use Rattle.qbs_base.specs.declared.scalar.Value.TheVariants.{One};
ghost use Rattle.qbs_base.specs.Values.{Schema};
ghost use Rattle.java_mean.specs.Outcome.{Done, outcome};
ghost use Rattle.java_mean.specs.Worked.{staff};
ghost use Rattle.java_calls.specs.Calling.{outcome_with};
ghost use Rattle.java_calls.specs.Inlining.{inlined_within};
ghost use Rattle.java_calls.specs.Fitting.{AreFitting};
ghost use Rattle.java_calls.specs.KeepsCalls.{KeepsCalls};
ghost use Rattle.java_calls.specs.Rules.{BreaksNone};
ghost use Rattle.java_calls.specs.Worked.{class_with, staff_with, calling, replaced};

/// A class whose method calls another is inlined so, and its method comes to what it came to.
pub fn worked_calls_are_replaced()
    ensures inlined { inlined_within 1 (class_with calling) ≡ Some (class_with replaced) }
    ensures before { outcome_with 1 staff (class_with calling).methods (staff_with calling) [] 100 ≡ Done [] (Some (One (scalars.Long (pos 2)))) }
    ensures after { outcome staff (staff_with replaced) [] 100 ≡ Done [] (Some (One (scalars.Long (pos 2)))) }
{}

/// That class breaks no rule and its helper fits, so that the inlined class keeps what it does.
pub fn worked_classes_are_kept()
    ensures rules { BreaksNone (class_with calling) }
    ensures fitting { AreFitting (class_with calling).methods }
    ensures kept { (schema : Schema) → KeepsCalls (class_with calling) (class_with replaced) schema }
{}
