//! Laws of conditions. These functions do nothing.
ghost use Rattle.std.specs.Prelude.{◌≡◌, ℕ, List, [], ◌∷◌, None};
ghost use Rattle.std.specs.List.{flat_map};
ghost use Rattle.tor_axioms.specs.Accepts.{Proof, Claim};
ghost use Rattle.kernel_lang.specs.Plain.{Fragment};
ghost use Rattle.kernel_lang.specs.Pools.{members};
ghost use Rattle.kernel_lang.specs.Refuted.{IsRefuted};
ghost use Rattle.kernel_lang.specs.Validity.{broken};
ghost use Rattle.kernel_lang.specs.Worked.{class_A, class_B, class_C, class_D, class_E, name_set};
ghost use Rattle.vc_gen.specs.Conditions.{conditions, own_conditions};
ghost use Rattle.vc_gen.specs.Soundness.{AllValid, AllValidAnywhere, AllSound, AllAccepted, EndsAsClaimed, EndsAnywhere};
ghost use Rattle.vc_gen.specs.Worked.{of_one_loop, of_a_nest, of_a_flag, of_the_greatest, of_a_sum, of_a_set};

/// The conditions of worked candidates are those written out.
pub fn worked_conditions()
    ensures one_loop { conditions class_A (0 ∷ []) ≡ of_one_loop }
    ensures nest { conditions class_B (0 ∷ []) ≡ of_a_nest }
    ensures flag { conditions class_E (0 ∷ 2 ∷ []) ≡ of_a_flag }
    ensures greatest { conditions class_C [] ≡ of_the_greatest }
    ensures sum { conditions class_D [] ≡ of_a_sum }
    ensures set { conditions name_set [] ≡ of_a_set }
{}

/// The conditions of a candidate are those of its accumulators, each with its own choice, one
/// accumulator after the other.
pub fn conditions_by_accumulator()
    ensures { (f : Fragment) (c : List ℕ) → conditions f c ≡ flat_map (own_conditions f.atoms) (members f c) }
{}

/// Conditions are valid where each is sound, as the checker of derivations says, and so where each
/// has an accepted derivation: also in worlds that their terms don't fit.
pub fn derived_conditions_are_valid()
    ensures sound { (cs : List Claim) → AllSound cs → AllValid cs }
    ensures accepted { (cs : List Claim) (ds : List Proof) → AllAccepted cs ds → AllValid cs }
    ensures sound_anywhere { (cs : List Claim) → AllSound cs → AllValidAnywhere cs }
    ensures accepted_anywhere { (cs : List Claim) (ds : List Proof) → AllAccepted cs ds → AllValidAnywhere cs }
{}

/// Where all conditions of a valid fragment and a candidate are valid, the fragment ends with what
/// the postconditions say, wherever its parts fit and it ends. Where they are valid also in worlds that
/// their terms don't fit, the parts needn't fit either.
pub fn valid_conditions_give_postconditions()
    ensures fitting { (f : Fragment) (c : List ℕ) → broken f ≡ None → AllValid (conditions f c) → EndsAsClaimed f c }
    ensures anywhere { (f : Fragment) (c : List ℕ) → broken f ≡ None → AllValidAnywhere (conditions f c) → EndsAnywhere f c }
{}

/// The conditions of a candidate that some database refutes don't all have accepted derivations; so
/// those of the worked candidate that chooses nothing don't.
pub fn refuted_candidates_are_not_derived()
    ensures all { (f : Fragment) (c : List ℕ) (ds : List Proof) → broken f ≡ None → IsRefuted f c → AllAccepted (conditions f c) ds → ⊥ }
    ensures worked { (ds : List Proof) → AllAccepted (conditions class_A []) ds → ⊥ }
{}
