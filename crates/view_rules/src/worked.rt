//! Worked expressions, as laws that compute. They do nothing.
ghost use Rattle.std.specs.Prelude.{◌≡◌, [], ◌∷◌, codes, false, Some, None};
ghost use Rattle.view_map.specs.declared.model.ScalarKind.TheVariants as kinds;
ghost use Rattle.view_rules.specs.declared.expression.Operator.TheVariants as ops;
ghost use Rattle.view_rules.specs.Decisions.{truth};
ghost use Rattle.view_rules.specs.Tree as plain;
ghost use Rattle.view_rules.specs.Worked as w;

/// A condition on a boxed number and a text is seen, and what is seen of it.
pub fn a_condition_is_seen()
    ensures seen { w.seen w.both_words w.both ≡ Some (21, truth) }
    ensures tokens { w.tokens w.both_words w.both ≡ w.both_tokens }
{}

/// Two boxed numbers aren't compared by `==`, nor a `Long` with an `int` by `equals`; one boxed and one primitive are.
pub fn boxed_numbers_are_no_values()
    ensures boxes { w.seen w.boxes_words w.boxes ≡ None }
    ensures unlike { w.seen w.unlike_words w.unlike ≡ None }
    ensures one { w.seen w.box_words w.box ≡ Some (7, truth) }
{}

/// A test for null falls away as a part of `&&` and of `||`, before and behind, in parentheses too; alone it isn't seen.
pub fn tests_for_null_fall_away()
    ensures before { w.seen w.before_words w.before ≡ Some (13, truth) }
    ensures left { w.tokens w.before_words w.before ≡ codes "u" ∷ codes "." ∷ codes "enabled" ∷ [] }
    ensures behind { w.seen w.behind_words w.behind ≡ Some (13, truth) }
    ensures wrapped { w.seen w.wrapped_words w.wrapped ≡ Some (15, truth) }
    ensures alone { w.seen w.alone_words (plain.Binary ops.Other (w.column_of 0 1) 5 (plain.Variable 6)) ≡ None }
{}

/// A `long` constant that is written `5` is a `long`, and seen as `5`.
pub fn constants_have_their_declared_types()
    ensures seen { w.seen w.limit_words (plain.MapConstant 0 0) ≡ Some (3, w.scalar kinds.Long false) }
    ensures tokens { w.tokens w.limit_words (plain.MapConstant 0 0) ≡ codes "5" ∷ [] }
{}

/// A `List` of `Long` is asked for a `Long`, and not for an `int`.
pub fn lists_contain_their_elements()
    ensures unlike { w.seen w.contains_words (plain.Contains 0 (plain.Variable 4) 5) ≡ None }
    ensures like { w.seen w.contains_id_words (plain.Contains 0 (w.column_of 4 0) 9) ≡ Some (10, truth) }
{}

/// Trees are those by which Java reads the items.
pub fn operators_bind_as_in_java()
    ensures sum { w.seen w.sum_words w.sum ≡ Some (5, w.scalar kinds.Int false) }
    ensures product { w.seen w.sum_words w.product ≡ None }
{}

/// The class of a query's rows is named before `.class`, or where nothing obscures its name.
pub fn a_class_is_named_where_it_is_one()
    ensures literal { w.type_end w.literal_words [] ≡ Some 1 }
    ensures obscured { w.type_end w.named_words [] ≡ None }
    ensures clear { w.type_end w.named_words (codes "UserAccount" ∷ []) ≡ Some 1 }
{}
