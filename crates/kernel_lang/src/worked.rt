//! Worked fragments, computed. These functions do nothing.
ghost use Rattle.std.specs.Prelude.{◌≡◌, ◌-◌, ◌^◌, pos, negsuc, [], ◌∷◌, None, Some, true, false, codes};
ghost use Rattle.qbs_base.specs.declared.scalar.Scalar.TheVariants as scalars;
ghost use Rattle.qbs_base.specs.declared.scalar.Value.TheVariants as values;
ghost use Rattle.tor_terms.specs.Plain.{Is, Both, Either};
ghost use Rattle.kernel_lang.specs.Pools.{combined_pool, pool_of};
ghost use Rattle.kernel_lang.specs.Postcondition.{postconditions};
ghost use Rattle.kernel_lang.specs.Refuted.{Refutes, IsRefuted};
ghost use Rattle.kernel_lang.specs.Running.{fragment_end};
ghost use Rattle.kernel_lang.specs.Broken.{WorkedAreValid, SentencesAreBroken};
ghost use Rattle.kernel_lang.specs.Plain.{Fragment};
ghost use Rattle.kernel_lang.specs.Sentences.{IsValid};
ghost use Rattle.kernel_lang.specs.Validity.{broken, count_conditions};
ghost use Rattle.kernel_lang.specs.Worked.{staff, bob_alone, aged, given, nothing, ann, bob, cat, ann_again, dan, long, class_A, class_B, class_C, class_D, class_E, class_F, class_H, class_J, class_V, two_conjuncts, three_loops, flag_under_a_guard, name_set, rows_done, scalar_done, texts};

/// Fragments end with what their loops would.
pub fn fragments_do_what_they_say()
    ensures selected { fragment_end class_A staff nothing ≡ rows_done (ann ∷ cat ∷ []) }
    ensures both { fragment_end two_conjuncts staff nothing ≡ rows_done (ann ∷ cat ∷ []) }
    ensures joined { fragment_end class_B staff nothing ≡ rows_done (ann ∷ ann ∷ bob ∷ cat ∷ cat ∷ dan ∷ []) }
    ensures nested { fragment_end three_loops staff nothing ≡ rows_done (texts (codes "staff" ∷ codes "crew" ∷ codes "staff" ∷ codes "crew" ∷ [])) }
    ensures greatest { fragment_end class_C staff nothing ≡ scalar_done (long 41) }
    ensures sum { fragment_end class_D staff nothing ≡ scalar_done (long 140) }
    ensures sum_up_to_the_largest { fragment_end class_D (aged (pos (2 ^ 63 - 2) ∷ pos 1 ∷ [])) nothing ≡ scalar_done (long (2 ^ 63 - 1)) }
    ensures sum_past_it { fragment_end class_D (aged (pos (2 ^ 63 - 1) ∷ pos 1 ∷ [])) nothing ≡ None }
    ensures sum_past_it_and_back { fragment_end class_D (aged (pos (2 ^ 63 - 1) ∷ pos 1 ∷ negsuc 0 ∷ [])) nothing ≡ None }
    ensures sum_never_past_it { fragment_end class_D (aged (negsuc 0 ∷ pos (2 ^ 63 - 1) ∷ pos 1 ∷ [])) nothing ≡ scalar_done (long (2 ^ 63 - 1)) }
    ensures flagged { fragment_end class_E staff nothing ≡ rows_done (ann ∷ bob ∷ cat ∷ dan ∷ []) }
    ensures guarded_flag { fragment_end flag_under_a_guard staff nothing ≡ rows_done (texts (codes "ann" ∷ [])) }
    ensures known { fragment_end class_F staff (given [] ((long 2 ∷ []) ∷ [])) ≡ rows_done (ann ∷ cat ∷ []) }
    ensures first_by_name { fragment_end (class_H 3 false) staff nothing ≡ rows_done (ann ∷ ann_again ∷ bob ∷ []) }
    ensures last_by_name { fragment_end (class_H 3 true) staff nothing ≡ rows_done (dan ∷ cat ∷ bob ∷ []) }
    ensures counted { fragment_end class_J staff (given (long 2 ∷ []) []) ≡ scalar_done (long 2) }
    ensures opposite { fragment_end class_V staff nothing ≡ scalar_done (scalars.Bool false) }
    ensures different { fragment_end name_set staff nothing ≡ rows_done (texts (codes "ann" ∷ codes "bob" ∷ codes "cat" ∷ codes "dan" ∷ [])) }
{}

/// The postconditions of the right candidates say what the fragments end with, and those of a
/// wrong one don't.
pub fn postconditions_say_what_fragments_do()
    ensures selected { postconditions class_A (0 ∷ []) staff nothing ≡ values.Many (ann ∷ cat ∷ []) ∷ [] }
    ensures all { postconditions class_A [] staff nothing ≡ values.Many (ann ∷ bob ∷ cat ∷ ann_again ∷ dan ∷ []) ∷ [] }
    ensures both { postconditions two_conjuncts (0 ∷ 2 ∷ []) staff nothing ≡ values.Many (ann ∷ cat ∷ []) ∷ [] }
    ensures joined { postconditions class_B (0 ∷ []) staff nothing ≡ values.Many (ann ∷ ann ∷ bob ∷ cat ∷ cat ∷ dan ∷ []) ∷ [] }
    ensures greatest { postconditions class_C [] staff nothing ≡ values.One (long 41) ∷ [] }
    ensures sum { postconditions class_D [] staff nothing ≡ values.One (long 140) ∷ [] }
    ensures flagged { postconditions class_E (0 ∷ 2 ∷ []) staff nothing ≡ values.Many (ann ∷ bob ∷ cat ∷ dan ∷ []) ∷ [] }
    ensures nested { postconditions three_loops (0 ∷ 2 ∷ []) staff nothing ≡ values.Many (texts (codes "staff" ∷ codes "crew" ∷ codes "staff" ∷ codes "crew" ∷ [])) ∷ [] }
    ensures guarded_flag { postconditions flag_under_a_guard (0 ∷ 2 ∷ 4 ∷ 6 ∷ []) staff nothing ≡ values.Many (texts (codes "ann" ∷ [])) ∷ [] }
    ensures opposite { postconditions class_V (0 ∷ []) staff nothing ≡ values.One (scalars.Bool false) ∷ [] }
    ensures different { postconditions name_set [] staff nothing ≡ values.Many (texts (codes "ann" ∷ codes "bob" ∷ codes "cat" ∷ codes "dan" ∷ [])) ∷ [] }
{}

/// One user of another role refutes the candidate that chooses no condition.
pub fn a_wrong_candidate_is_refuted()
    ensures one_user { Refutes class_A [] bob_alone nothing }
    ensures refuted { IsRefuted class_A [] }
{}

/// Pools hold each conjunct once, followed by its opposite, and a flag's pool reads no flag.
pub fn pools_hold_conjuncts()
    ensures combined { combined_pool class_E ≡ Is 1 true ∷ Is 1 false ∷ Is 0 true ∷ Is 0 false ∷ [] }
    ensures both { pool_of two_conjuncts.atoms (Both (Is 0 true) (Is 1 true) ∷ []) (0 ∷ []) 0 ≡ combined_pool two_conjuncts }
    ensures repeated { pool_of two_conjuncts.atoms (Is 0 true ∷ Both (Is 1 true) (Is 0 false) ∷ Is 1 true ∷ []) (0 ∷ []) 0 ≡ combined_pool two_conjuncts }
    ensures outer { pool_of class_E.atoms (Is 0 true ∷ Is 1 true ∷ []) (0 ∷ []) 0 ≡ Is 1 true ∷ Is 1 false ∷ [] }
    ensures flag { pool_of class_E.atoms (Is 0 true ∷ Is 1 true ∷ []) (0 ∷ 1 ∷ []) 1 ≡ Is 0 true ∷ Is 0 false ∷ [] }
    ensures split { pool_of class_E.atoms (Both (Is 0 true) (Is 1 false) ∷ Is 1 true ∷ []) (0 ∷ 1 ∷ []) 0 ≡ Is 0 true ∷ Is 0 false ∷ Is 1 false ∷ Is 1 true ∷ [] }
{}

/// A fragment is valid exactly where it meets each sentence.
pub fn valid_fragments_meet_every_sentence()
    ensures all { (f : Fragment) → broken f ≡ None → IsValid f }
    ensures only { (f : Fragment) → IsValid f → broken f ≡ None }
{}

/// The worked fragments are valid, and for each sentence some fragments break it.
pub fn sentences_refuse_fragments()
    ensures valid { WorkedAreValid }
    ensures broken { SentencesAreBroken }
{}

/// How many conditions the worked fragments have.
pub fn conditions_are_counted()
    ensures one_guard { count_conditions class_A.accs ≡ 4 }
    ensures nest { count_conditions class_B.accs ≡ 7 }
    ensures no_guard { count_conditions class_C.accs ≡ 3 }
    ensures flag { count_conditions class_E.accs ≡ 8 }
{}
