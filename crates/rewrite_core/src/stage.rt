// The next loop of a program to try, as its list has it.
ghost use Rattle.std.specs.Prelude.{◌≡◌, ◌≤◌, IfOk, suc, length, take};
ghost use Rattle.std.specs.declared.option.Option.TheVariants.{Some};
ghost use Rattle.std.specs.Option.{option_copied};
ghost use Rattle.java_ast.specs.Path.{last_of, replaced_at};
ghost use Rattle.java_ast.specs.Reading.{statements, program as plain_program};
ghost use Rattle.java_mean.specs.Numbers.{NumbersFit};
ghost use Rattle.loop_text.specs.Statements.Loops.{loops_of_methods};
ghost use Rattle.rewrite_core.specs.Stages.{IsStage, next_of, given_way};

use crate::replacing::put_instead;
use java_ast::{Path, Stmt};
use java_types::Typed;
use loop_lists::{Listed, listed_from, listed_past, next_in};
use qbs_base::NoMemory;
use std::alloc::Global;

/// A program as it stands: of all its loops the first ones, so many, have been tried and stand, and the next one is among those that are
/// listed, if there is one.
#[derive(Drop)]
pub struct Stage {
    pub typed: Typed,
    pub listed: Listed,
    pub standing: usize,
}

/// The stage of a program of which so many loops stand. `before` of them stand in the methods before the one with this number: the methods
/// from that one on are listed, as far as the next loop.
pub fn stage_of(
    alloc: Global,
    typed: Typed,
    standing: usize,
    number: usize,
    before: usize,
) -> Result<Box<Stage>, NoMemory>
    requires behind { before ≤ standing }
    requires before { before ≡ length (loops_of_methods 0 (take number (plain_program typed.program).methods)) }
    ensures program { IfOk result (λ s. s.value.typed.program ≡ typed.program) }
    ensures standing { IfOk result (λ s. s.value.standing ≡ standing) }
    ensures lists { IfOk result (λ s. IsStage s.value) }
{
    let listed = listed_from(
        alloc,
        typed.program().methods.as_slice(),
        standing,
        number,
        before,
    )?;
    Ok(Box::new(
        alloc,
        Stage {
            typed,
            listed,
            standing,
        },
    )?)
}

/// The path of the next loop, if there is one.
pub fn next_path(stage: &Stage) -> Option<&Path>
    requires { stage.now.listed.before ≤ stage.now.standing }
    ensures { option_copied result ≡ next_of stage.now }
{
    next_in(&stage.listed, stage.standing)
}

/// The stage behind a loop that stands. `NoMemory` comes also where more loops stand than can be counted.
pub fn stand(alloc: Global, stage: Box<Stage>) -> Result<Box<Stage>, NoMemory>
    requires lists { IsStage stage.value }
    ensures program { IfOk result (λ s. s.value.typed.program ≡ stage.value.typed.program) }
    ensures standing { IfOk result (λ s. s.value.standing ≡ suc stage.value.standing) }
    ensures lists { IfOk result (λ s. IsStage s.value) }
{
    let Stage {
        typed,
        listed,
        standing,
    } = Box::into_inner(stage);
    let Some(standing) = standing.checked_add(1) else {
        return Err(NoMemory);
    };
    let listed = listed_past(alloc, typed.program().methods.as_slice(), standing, listed)?;
    Ok(Box::new(
        alloc,
        Stage {
            typed,
            listed,
            standing,
        },
    )?)
}

/// The stage behind a loop that gives way: the next loop that is tried has the same number. The program is moved, and the next loops of the
/// loop's method are listed anew.
pub fn give_way(
    alloc: Global,
    stage: Box<Stage>,
    first: u64,
    others: Vec<Stmt>,
) -> Result<Box<Stage>, NoMemory>
    requires lists { IsStage stage.value }
    requires there { (path : _) × (next_of stage.value ≡ Some path) }
    requires first { (path : _) → next_of stage.value ≡ Some path → first ≤ last_of path }
    requires numbers { (path : _) → next_of stage.value ≡ Some path → NumbersFit (replaced_at path first (statements others.items) (plain_program stage.value.typed.program)) }
    ensures program { IfOk result (λ s.
        plain_program s.value.typed.program ≡ given_way (next_of stage.value) first (statements others.items) (plain_program stage.value.typed.program)) }
    ensures standing { IfOk result (λ s. s.value.standing ≡ stage.value.standing) }
    ensures lists { IfOk result (λ s. IsStage s.value) }
{
    let Stage {
        typed,
        listed,
        standing,
    } = Box::into_inner(stage);
    match next_in(&listed, standing) {
        None => unreachable!(),
        Some(path) => {
            let typed = put_instead(alloc, typed, path, first, others)?;
            stage_of(alloc, typed, standing, listed.number, listed.before)
        }
    }
}
