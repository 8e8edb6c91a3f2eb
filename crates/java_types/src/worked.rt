//! Where the rules are broken, as a law that computes. It does nothing.
ghost use Rattle.std.specs.Prelude.{◌≡◌, [], ◌∷◌, Some, None};
ghost use Rattle.java_mean.specs.Numbers.{NumbersFit};
ghost use Rattle.java_mean.specs.declared.rule.TypeRule.TheVariants as rules;
ghost use Rattle.java_types.specs.Broken.{breaks, faults_of, right, past_its_block, less_than_true, one_and_true, row_printed, declared_again, named_again, text_by_identity, list_of_another, added_while_walked, list_for_a_number, without_order, returned_early, nothing_returned, argument_too_many, break_alone, break_in_the_middle};
ghost use Rattle.java_mean.specs.Least.{least};

/// Each rule at its place, and no fault in a program that is right.
pub fn rules_are_broken_at_their_places()
    ensures right { faults_of right ≡ [] }
    ensures numbers { NumbersFit right }
    ensures past_its_block { faults_of past_its_block ≡ breaks rules.Unknown 55 ∷ [] }
    ensures less_than_true { faults_of less_than_true ≡ breaks rules.Mismatch 36 ∷ [] }
    ensures one_and_true { faults_of one_and_true ≡ breaks rules.Mismatch 32 ∷ [] }
    ensures row_printed { faults_of row_printed ≡ breaks rules.Mismatch 79 ∷ [] }
    ensures declared_again { faults_of declared_again ≡ breaks rules.DoubleName 34 ∷ [] }
    ensures named_again { faults_of named_again ≡ breaks rules.DoubleName 24 ∷ [] }
    ensures text_by_identity { faults_of text_by_identity ≡ breaks rules.TextIdentity 40 ∷ [] }
    ensures list_of_another { faults_of list_of_another ≡ breaks rules.ListAlias 74 ∷ [] }
    ensures added_while_walked { faults_of added_while_walked ≡ breaks rules.ModifiedInLoop 78 ∷ [] }
    ensures list_for_a_number { faults_of list_for_a_number ≡ breaks rules.BadQuery 29 ∷ breaks rules.Arity 29 ∷ [] }
    ensures least_number { least None (faults_of list_for_a_number) ≡ Some (breaks rules.BadQuery 29) }
    ensures without_order { faults_of without_order ≡ breaks rules.UnorderedQuery 35 ∷ [] }
    ensures returned_early { faults_of returned_early ≡ breaks rules.ReturnPlace 22 ∷ [] }
    ensures nothing_returned { faults_of nothing_returned ≡ breaks rules.ReturnPlace 11 ∷ [] }
    ensures argument_too_many { faults_of argument_too_many ≡ breaks rules.Arity 29 ∷ [] }
    ensures break_alone { faults_of break_alone ≡ breaks rules.BreakPlace 22 ∷ [] }
    ensures break_in_the_middle { faults_of break_in_the_middle ≡ breaks rules.BreakPlace 60 ∷ [] }
{}
