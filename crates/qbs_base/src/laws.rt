//! Laws of the order of scalars and of sorts, for the crates above. They do nothing.
ghost use Rattle.std.specs.Prelude.{Bool, List, map};
ghost use Rattle.std.specs.Cmp.{IsStrictWeakOrder};
ghost use Rattle.std.specs.List.Sorted.{IsPermutation};
ghost use Rattle.qbs_base.specs.Laws.{IsTheStableSort, SortsByValue};
ghost use Rattle.qbs_base.specs.Scalar.{scalar_before, value_before};
ghost use Rattle.qbs_base.specs.Sort.{stable_sort, then_by, turned, choices};

/// The orders of scalars, and of scalars that may be missing, compare any two.
#[tactic(auto, using(crate::proofs::Scalars::before_order, crate::proofs::Scalars::value_order))]
pub fn scalars_are_ordered()
    ensures scalars { IsStrictWeakOrder scalar_before }
    ensures values { IsStrictWeakOrder value_before }
{}

/// The stable sort is what its name says, and any sort that is in order and stable gives it.
#[tactic(auto, using(crate::proofs::Lawful::is_the_stable_sort))]
pub fn stable_sort_is_the_sort<T>()
    ensures { (lt : T → T → Bool) → IsStrictWeakOrder lt → (xs : List T) → IsTheStableSort lt xs }
{}

/// A sort by what a function gives is the sort of what it gives.
#[tactic(auto, using(crate::proofs::Lawful::sorts_by_value))]
pub fn sorting_by_value<T, U>()
    ensures { (lt : U → U → Bool) (f : T → U) (xs : List T) → SortsByValue lt f xs }
{}

/// Tests one after the other, and tests turned round, are orders.
#[tactic(auto, using(crate::proofs::Then::then_order, crate::proofs::Then::turned_order))]
pub fn tests_in_turn_are_an_order<T>()
    ensures both { (a b : T → T → Bool) → IsStrictWeakOrder a → IsStrictWeakOrder b → IsStrictWeakOrder (then_by a b) }
    ensures round { (down : Bool) (lt : T → T → Bool) → IsStrictWeakOrder lt → IsStrictWeakOrder (turned down lt) }
{}

/// Sorting the lists that choices are taken from permutes the choices.
#[tactic(auto, using(crate::proofs::Lawful::choices_of_sorted))]
pub fn choices_from_sorted_lists<T>()
    ensures { (lt : T → T → Bool) (xss : List (List T)) → IsPermutation (choices xss) (choices (map (stable_sort lt) xss)) }
{}
