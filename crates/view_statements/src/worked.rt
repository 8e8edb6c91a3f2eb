//! Worked statements, as laws that compute. They do nothing.
ghost use Rattle.view_statements.specs.Worked.{
  WorkedCasts,
  WorkedDifferences,
  WorkedElse,
  WorkedEmpty,
  WorkedExtremes,
  WorkedLists,
  WorkedOrders,
  WorkedSets,
  WorkedSkips,
};

/// What is behind a `continue` stands in an `if` that asks the other way round.
#[tactic(auto, using(crate::proofs::Computed::skips))]
pub fn what_is_skipped_is_conditional()
    ensures { WorkedSkips }
{}

/// `Math.max` is a comparison, where its value is of the variable's type.
#[tactic(auto, using(crate::proofs::Computed::extremes))]
pub fn greater_values_are_compared()
    ensures { WorkedExtremes }
{}

/// `x -= e` takes all of e away, in parentheses.
#[tactic(auto, using(crate::proofs::Computed::differences))]
pub fn all_of_a_value_is_taken_away()
    ensures { WorkedDifferences }
{}

/// An `else` belongs to the nearest `if`.
#[tactic(auto, using(crate::proofs::Computed::nearest))]
pub fn else_belongs_to_the_nearest_if()
    ensures { WorkedElse }
{}

/// A semicolon is a body in which nothing is done.
#[tactic(auto, using(crate::proofs::Computed::empty))]
pub fn semicolons_are_bodies()
    ensures { WorkedEmpty }
{}

/// A hash set isn't walked, in parentheses neither, since its order isn't known.
#[tactic(auto, using(crate::proofs::Computed::sets))]
pub fn hash_sets_are_not_walked()
    ensures { WorkedSets }
{}

/// A list from outside isn't added to, but may be set; then it is the slice's own.
#[tactic(auto, using(crate::proofs::Computed::lists))]
pub fn lists_from_outside_are_set_first()
    ensures { WorkedLists }
{}

/// `(int)` before a query stands only where the variable is an `int`.
#[tactic(auto, using(crate::proofs::Computed::casts))]
pub fn queries_are_narrowed_for_ints()
    ensures { WorkedCasts }
{}

/// `.reversed()` turns all before it, as often as it stands there.
#[tactic(auto, using(crate::proofs::Computed::orders))]
pub fn orders_are_turned_as_often()
    ensures { WorkedOrders }
{}
