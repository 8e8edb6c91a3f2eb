// Tests of columns for null.
ghost use Rattle.std.specs.Prelude.{◌≡◌};
ghost use Rattle.view_rules.specs.Nulls as specs;
ghost use Rattle.view_rules.specs.Setting.{within_of};

use crate::names::{is_row_of, may_be_read, past_member, variable_at};
use crate::steps::{here, next, past};
use crate::{NullTest, Sighted, Within};

fn is_row_to_read(w: &Within, class: u32, v: &Sighted) -> bool
    ensures { result ≡ specs.is_row_to_read (within_of w.now) class v.now }
{
    is_row_of(class, v.java) && (!v.outside || may_be_read(w, v))
}

fn past_column(w: &Within, sight: &[Sighted], class: u32, member: u32, i: usize) -> Option<usize>
    ensures { result ≡ specs.past_column (within_of w.now) sight.now class member i }
{
    let v = variable_at(w, sight, i)?;
    if is_row_to_read(w, class, v) {
        let j = next(w, i)?;
        let seen = past_member(w, class, member, j)?;
        Some(seen.0)
    } else {
        None
    }
}

fn null_sign(all: bool) -> &'static [u8]
    ensures { result.now ≡ specs.null_sign all }
{
    if all { b"!=" } else { b"==" }
}

fn joined_sign(all: bool) -> &'static [u8]
    ensures { result.now ≡ specs.joined_sign all }
{
    if all { b"&&" } else { b"||" }
}

fn past_test_at(
    w: &Within,
    sight: &[Sighted],
    all: bool,
    t: &NullTest,
    null_first: bool,
    i: usize,
) -> Option<usize>
    ensures { result ≡ specs.past_test_at (within_of w.now) sight.now all t.now null_first i }
{
    if null_first {
        let j = past(w, b"null", i)?;
        let k = past(w, null_sign(all), j)?;
        past_column(w, sight, t.class, t.member, k)
    } else {
        let j = past_column(w, sight, t.class, t.member, i)?;
        let k = past(w, null_sign(all), j)?;
        past(w, b"null", k)
    }
}

fn past_test_in(
    w: &Within,
    sight: &[Sighted],
    all: bool,
    t: &NullTest,
    wrapped: bool,
    i: usize,
) -> Option<usize>
    ensures { result ≡ specs.past_test_in (within_of w.now) sight.now all t.now wrapped i }
{
    if wrapped {
        let j = past(w, b"(", i)?;
        let k = past_test_at(w, sight, all, t, t.null_first, j)?;
        past(w, b")", k)
    } else {
        past_test_at(w, sight, all, t, t.null_first, i)
    }
}

fn past_test(w: &Within, sight: &[Sighted], all: bool, t: &NullTest, i: usize) -> Option<usize>
    ensures { result ≡ specs.past_test (within_of w.now) sight.now all t.now i }
{
    past_test_in(w, sight, all, t, t.wrapped, here(t.at, i)?)
}

fn past_test_before(
    w: &Within,
    sight: &[Sighted],
    all: bool,
    t: &NullTest,
    i: usize,
) -> Option<usize>
    ensures { result ≡ specs.past_test_before (within_of w.now) sight.now all t.now i }
{
    let j = past_test(w, sight, all, t, i)?;
    past(w, joined_sign(all), j)
}

fn past_test_behind(
    w: &Within,
    sight: &[Sighted],
    all: bool,
    t: &NullTest,
    i: usize,
) -> Option<usize>
    ensures { result ≡ specs.past_test_behind (within_of w.now) sight.now all t.now i }
{
    let j = past(w, joined_sign(all), i)?;
    past_test(w, sight, all, t, j)
}

/// The number behind tests, each with the operator behind it.
pub fn past_tests_before(
    w: &Within,
    sight: &[Sighted],
    all: bool,
    tests: &[NullTest],
    i: usize,
) -> Option<usize>
    ensures { result ≡ specs.past_tests_before (within_of w.now) sight.now all tests.now i }
{
    let mut j = i;
    for t in tests {
        j = past_test_before(w, sight, all, t, j)?;
    }
    Some(j)
}

/// The number behind tests, each with the operator before it.
pub fn past_tests_behind(
    w: &Within,
    sight: &[Sighted],
    all: bool,
    tests: &[NullTest],
    i: usize,
) -> Option<usize>
    ensures { result ≡ specs.past_tests_behind (within_of w.now) sight.now all tests.now i }
{
    let mut j = i;
    for t in tests {
        j = past_test_behind(w, sight, all, t, j)?;
    }
    Some(j)
}

pub fn has_some(tests: &[NullTest]) -> bool
    ensures { result ≡ specs.has_some tests.now }
{
    match tests {
        [] => false,
        [_, ..] => true,
    }
}
