//! Laws of normal forms and derivations, for the crates above. They do nothing.
ghost use Rattle.std.specs.Prelude.{◌≡◌, ◌||◌, ℕ, List, true, None, Some};
ghost use Rattle.deriv_parts.specs.Limits.{most_splits};
ghost use Rattle.tor_terms.specs.declared.term.Atom.{Atom as PlainAtom};
ghost use Rattle.tor_terms.specs.Plain.{Form, Tree, One as PlainOne, Sel as PlainSel};
ghost use Rattle.tor_axioms.specs.declared.facts.Literal.{Literal as PlainLiteral};
ghost use Rattle.tor_axioms.specs.Accepts.{Proof, Claim, accepts};
ghost use Rattle.tor_axioms.specs.Rules.{some_no, all_yes};
ghost use Rattle.tor_prover.specs.Common.{Common};
ghost use Rattle.tor_prover.specs.Derive.{derivation_of};
ghost use Rattle.tor_prover.specs.Ends.{EndsNormal};
ghost use Rattle.tor_prover.specs.Normal.{made, met, normal_form};
ghost use Rattle.tor_prover.specs.Shape.{IfNested};
ghost use Rattle.tor_prover.specs.Worked.{Worked};

/// The normal form of a term is made of the normal forms of its children and of what the first rule
/// gives, with no bound on how often.
pub fn normal_forms_are_made_of_parts()
    ensures { (atoms : List PlainAtom) (facts : List PlainLiteral) (t : Tree) → normal_form atoms facts t ≡ made atoms facts (normal_form atoms facts) t }
{}

/// No rule applies at any place in a normal form.
pub fn no_rule_applies_to_normal_forms()
    ensures { (atoms : List PlainAtom) (facts : List PlainLiteral) (t : Tree) → EndsNormal atoms facts (normal_form atoms facts t) }
{}

/// The selection of one tuple meets an open atom, unless some formula is decided to be false or all
/// are decided to be true.
pub fn open_selections_meet_an_atom()
    ensures { (atoms : List PlainAtom) (facts : List PlainLiteral) (fs : List Form) (loops : List ℕ)
        → met atoms facts (PlainSel fs (PlainOne loops)) ≡ None
        → (some_no atoms facts fs || all_yes atoms facts fs) ≡ true }
{}

/// What is derived for a condition is accepted, of plain conditions too.
pub fn derivations_are_accepted()
    ensures { (c : Claim) (d : Proof) → derivation_of c ≡ Some d → accepts c d ≡ true }
{}

/// A derivation has at most ten splits inside one another, on atoms of the condition; the rules of its
/// steps are numbered up to 44, and the children on their paths up to 1.
pub fn derivations_are_nested_within_ten()
    ensures { (c : Claim) → IfNested c.atoms most_splits (derivation_of c) }
{}

/// The derivations of the conditions of a small loop and of others, or that there is none.
pub fn worked_conditions_have_their_derivations()
    ensures { Worked }
{}

/// Two conditions of a loop share all terms of the second.
pub fn worked_conditions_share_terms()
    ensures { Common }
{}
