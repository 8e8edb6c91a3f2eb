// Rules by their numbers.
ghost use Rattle.std.specs.Prelude.{◌≡◌, IfOk, option_map};
ghost use Rattle.tor_terms.specs.Plain.{tree_of};
ghost use Rattle.tor_axioms.specs.Rules as spec;

use crate::elements::{proj_cat, proj_nil, proj_one, uniq_cat, uniq_nil};
use crate::facts::Literal;
use crate::lists::{
    cat_cat, cat_nil_left, cat_nil_right, join_cat_left, join_cat_right, join_nil_left,
    join_nil_right, join_one_join, join_ones, top_len, top_next, top_zero,
};
use crate::numbers::{
    add_add, add_zero_left, add_zero_right, best_cat, best_nil, best_one, count_cat, count_nil,
    count_one, sum_cat, sum_nil, sum_one,
};
use crate::selections::{sel_cat, sel_join_no, sel_join_yes, sel_nil, sel_no, sel_none, sel_yes};
use crate::truths::{
    any_cat, any_nil, any_one, or_false_left, or_false_right, or_or, or_true_left, or_true_right,
};
use qbs_base::NoMemory;
use std::alloc::Global;
use tor_terms::{Atom, Term};

fn in_box(alloc: Global, o: Option<Term>) -> Result<Option<Box<Term>>, NoMemory>
    ensures { IfOk result (λ p. option_map (λ u. tree_of u.value) p ≡ option_map tree_of o) }
{
    match o {
        Some(t) => Ok(Some(Box::new(alloc, t)?)),
        None => Ok(None),
    }
}

/// The rule of a number, at the head of a term.
pub fn at_head(
    alloc: Global,
    rule: u32,
    t: &Term,
    atoms: &[Atom],
    facts: &[Literal],
) -> Result<Option<Box<Term>>, NoMemory>
    ensures { IfOk result (λ o. option_map (λ u. tree_of u.value) o ≡ spec.at_head atoms.now facts.now rule (tree_of t.now)) }
{
    match rule {
        1 => in_box(alloc, top_zero(t)),
        2 => top_next(alloc, t),
        3 => in_box(alloc, top_len(t)),
        4 => cat_nil_left(alloc, t),
        5 => cat_nil_right(alloc, t),
        6 => cat_cat(alloc, t),
        7 => in_box(alloc, join_nil_left(t)),
        8 => in_box(alloc, join_nil_right(t)),
        9 => join_cat_left(alloc, t),
        10 => join_cat_right(alloc, t),
        11 => join_ones(alloc, t),
        12 => join_one_join(alloc, t),
        13 => sel_none(alloc, t),
        14 => in_box(alloc, sel_nil(t)),
        15 => sel_cat(alloc, t),
        16 => in_box(alloc, sel_no(t, atoms, facts)),
        17 => sel_yes(alloc, t, atoms, facts),
        18 => in_box(alloc, sel_join_no(t, atoms, facts)),
        19 => sel_join_yes(alloc, t, atoms, facts),
        20 => in_box(alloc, proj_nil(t)),
        21 => proj_cat(alloc, t),
        22 => in_box(alloc, proj_one(t)),
        23 => in_box(alloc, uniq_nil(t)),
        24 => uniq_cat(alloc, t),
        25 => in_box(alloc, count_nil(t)),
        26 => count_cat(alloc, t),
        27 => in_box(alloc, count_one(t)),
        28 => in_box(alloc, sum_nil(t)),
        29 => sum_cat(alloc, t),
        30 => in_box(alloc, sum_one(t)),
        31 => best_nil(alloc, t),
        32 => best_cat(alloc, t),
        33 => best_one(alloc, t),
        34 => in_box(alloc, any_nil(t)),
        35 => any_cat(alloc, t),
        36 => in_box(alloc, any_one(t)),
        37 => add_zero_left(alloc, t),
        38 => add_zero_right(alloc, t),
        39 => add_add(alloc, t),
        40 => or_false_left(alloc, t),
        41 => or_false_right(alloc, t),
        42 => in_box(alloc, or_true_right(t)),
        43 => in_box(alloc, or_true_left(t)),
        44 => or_or(alloc, t),
        _ => Ok(None),
    }
}
