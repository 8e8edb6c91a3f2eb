//! Worked classes and the grammar, as laws that compute. They do nothing.
ghost use Rattle.std.specs.Prelude.{◌≡◌};
ghost use Rattle.std.specs.declared.option.Option.TheVariants.{Some};
ghost use Rattle.java_grammar.specs.InGrammar.{IsInGrammar};
ghost use Rattle.java_grammar.specs.Written.{IsWritten};
ghost use Rattle.java_calls.specs.Inlining.{inlined_within};
ghost use Rattle.java_calls.specs.Rules.{BreaksNone};
ghost use Rattle.java_calls.specs.Worked.{class_with, calling, replaced};
ghost use Rattle.inlined_grammar.specs.Worked.{ill_typed_with, asking, asked};

/// A class whose method calls another, and its inlined class, are of the grammar, and both can be written.
pub fn worked_classes_are_of_the_grammar()
    ensures calling { IsInGrammar (class_with calling) }
    ensures inlined { IsInGrammar (class_with replaced) }
    ensures written { IsWritten (class_with calling) }
    ensures inlined_written { IsWritten (class_with replaced) }
{}

/// A class of the grammar that breaks no rule of calls, and whose helper is ill typed so that it doesn't fit: its inlined class is none of the
/// grammar, since it reads a variable that is called `Long`.
pub fn worked_ill_typed_classes_leave_the_grammar()
    ensures calling { IsInGrammar (ill_typed_with asking) }
    ensures rules { BreaksNone (ill_typed_with asking) }
    ensures inlined { inlined_within 1 (ill_typed_with asking) ≡ Some (ill_typed_with asked) }
    ensures outside { IsInGrammar (ill_typed_with asked) → ⊥ }
{}
