// The loops of a program listed a stretch at a time, up to the next one behind those that stand.
ghost use Rattle.std.specs.Prelude.{◌≡◌, ◌≤◌, ◌+◌, ◌-◌, IfOk, length, map, take, drop, slice_get};
ghost use Rattle.std.specs.Option.{option_copied};
ghost use Rattle.java_ast.specs.Reading.{method as plain_method};
ghost use Rattle.loop_text.specs.Statements.Loops.{loops_of_methods};
ghost use Rattle.loop_lists.specs.Lists.{loops_numbered, Lists};

use crate::window::seen_in_method;
use java_ast::{Method, Path, Paths};
use qbs_base::NoMemory;
use std::alloc::Global;

/// The paths of some loops of the method with this number: those from the number `from` on, up to the number `upto`. So many loops stand in
/// the methods before it.
#[derive(Drop)]
pub struct Listed {
    pub number: usize,
    pub before: usize,
    pub from: usize,
    pub upto: usize,
    pub paths: Paths,
}

// So many loops are listed at once, and as many more as stand before them in their method: where one of them gives way, the list is made anew.
const LEAST: usize = 64;

/// The first method from a number on whose loops reach past those that stand, or the end of the methods. Its only error is want of memory.
pub fn listed_from(
    alloc: Global,
    methods: &[Method],
    standing: usize,
    number: usize,
    before: usize,
) -> Result<Listed, NoMemory>
    requires behind { before ≤ standing }
    requires before { before ≡ length (loops_of_methods 0 (take number (map plain_method methods.now))) }
    ensures { IfOk result (λ l. Lists (map plain_method methods.now) standing l) }
{
    let mut number = number;
    let mut before = before;
    while number < methods.len() {
        let from = standing - before;
        let Some(most) = from.checked_add(LEAST) else {
            return Err(NoMemory);
        };
        let Some(upto) = from.checked_add(most) else {
            return Err(NoMemory);
        };
        let seen = seen_in_method(alloc, methods, number, most, upto)?;
        if seen.paths.len() > 0 {
            return Ok(Listed {
                number,
                before,
                from,
                upto,
                paths: seen.paths,
            });
        }
        before += upto - seen.left;
        number += 1;
    }
    Ok(Listed {
        number,
        before,
        from: 0,
        upto: 0,
        paths: Paths::new(alloc),
    })
}

/// The same list as long as it reaches past the loops that stand, and else the next one. Its only error is want of memory.
pub fn listed_past(
    alloc: Global,
    methods: &[Method],
    standing: usize,
    listed: Listed,
) -> Result<Listed, NoMemory>
    requires behind { listed.before ≤ standing }
    requires before { listed.before ≡ length (loops_of_methods 0 (take listed.number (map plain_method methods.now))) }
    requires reached { listed.before + listed.from ≤ standing }
    requires paths { listed.paths ≡ drop listed.from (take listed.upto (loops_numbered listed.number (map plain_method methods.now))) }
    ensures { IfOk result (λ l. Lists (map plain_method methods.now) standing l) }
{
    if (standing - listed.before) - listed.from < listed.paths.len() {
        Ok(listed)
    } else {
        listed_from(alloc, methods, standing, listed.number, listed.before)
    }
}

/// The path of the next loop behind those that stand, where it is listed.
pub fn next_in(listed: &Listed, standing: usize) -> Option<&Path>
    requires { listed.now.before ≤ standing }
    ensures { option_copied result ≡ slice_get listed.now.paths ((standing - listed.now.before) - listed.now.from) }
{
    listed
        .paths
        .as_slice()
        .get((standing - listed.before).saturating_sub(listed.from))
}
