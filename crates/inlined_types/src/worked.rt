//! Classes of which the laws speak, and two of which they don't, as laws that compute. They do nothing.
ghost use Rattle.std.specs.Prelude.{◌≡◌, false};
ghost use Rattle.std.specs.declared.option.Option.TheVariants.{Some};
ghost use Rattle.sql_ast.specs.Worked.{staff_schema};
ghost use Rattle.java_mean.specs.WellTyped.{IsWellTyped};
ghost use Rattle.java_calls.specs.Fitting.{is_fitting, AreFitting};
ghost use Rattle.java_calls.specs.Inlining.{inlined_within};
ghost use Rattle.java_calls.specs.KeepsCalls.{KeepsCalls};
ghost use Rattle.java_calls.specs.Rules.{BreaksNone};
ghost use Rattle.java_calls.specs.Worked.{class_with, calling, replaced};
ghost use Rattle.inlined_types.specs.PlainTypes.{HavePlainTypes};
ghost use Rattle.inlined_types.specs.Worked.{no_query, class_of, with_a_box, with_a_set};

/// A class whose method calls another: its types are plain, and the inlined class is well typed, so that the helper fits and the inlined
/// class keeps what the class does.
pub fn worked_classes_are_well_typed()
    ensures plain { HavePlainTypes (class_with calling).methods }
    ensures typed { IsWellTyped staff_schema no_query (class_with replaced) }
    ensures fitting { AreFitting (class_with calling).methods }
    ensures kept { KeepsCalls (class_with calling) (class_with replaced) staff_schema }
{}

/// A variable of a boxed type that is returned, and a parameter that is a set: each class breaks no rule of calls, is its own inlined class
/// and is well typed, and its method doesn't fit. The grammar has no such classes.
pub fn worked_types_that_are_not_plain_do_not_fit()
    ensures boxed { IsWellTyped staff_schema no_query (class_of with_a_box) }
    ensures boxed_rules { BreaksNone (class_of with_a_box) }
    ensures boxed_inlined { inlined_within 0 (class_of with_a_box) ≡ Some (class_of with_a_box) }
    ensures boxed_unfit { is_fitting with_a_box ≡ false }
    ensures set { IsWellTyped staff_schema no_query (class_of with_a_set) }
    ensures set_rules { BreaksNone (class_of with_a_set) }
    ensures set_inlined { inlined_within 0 (class_of with_a_set) ≡ Some (class_of with_a_set) }
    ensures set_unfit { is_fitting with_a_set ≡ false }
{}
