// The program in which the bodies of helpers stand in for their calls.
ghost use Rattle.std.specs.Prelude.{◌≤◌, IfOk};
ghost use Rattle.java_ast.specs.Reading.{statements, method as plain_method, program as plain_program};
ghost use Rattle.java_calls.specs.Renaming.{as_they_are};
ghost use Rattle.java_calls.specs.Rules.{most_statements};
ghost use Rattle.inlining.specs.Inlined.{IsAnswer};
ghost use Rattle.inlining.specs.Walked.{block_makes, most_open, IsMethodOf, IsBodies};

use crate::class::Class;
use crate::counts::{Counts, Walked};
use crate::walk::walk_block;
use call_rules::{HelperFault, HelperRule, first_fault};
use java_ast::{Method, Methods, Program};
use qbs_base::{NoMemory, Span};
use renamed_copies::{Renaming, method_with, program_with};
use std::alloc::Global;

/// A program without calls, or the fault that is kept of the rules of helpers.
#[derive(Drop)]
pub enum Inlined {
    Whole(Box<Program>),
    Broken(HelperFault),
}

/// The methods without calls, or the place of the one with which there are too many statements.
#[derive(Drop)]
enum Bodies {
    Whole(Methods),
    TooLarge(Span),
}

/// The method without calls, or none where its body has more statements than may be written.
fn inline_method(
    alloc: Global,
    class: &Class,
    m: &Method,
    counts: &mut Counts,
) -> Result<Option<Box<Method>>, NoMemory>
    requires { counts.old.left ≤ most_statements }
    ensures { IfOk result (λ o.
        IsMethodOf o most_open (block_makes (plain_program class.now) as_they_are counts.old.taken (plain_method m.now).body) (plain_method m.now)
        counts.old counts.new) }
{
    let mut body = Vec::new(alloc);
    let f = Renaming::AsTheyAre;
    match walk_block(alloc, class, 64, &f, m.body.as_slice(), &mut body, counts)? {
        Walked::Full => Ok(None),
        Walked::Pushed => {
            let made = method_with(alloc, m, body)?;
            Ok(Some(Box::new(alloc, made)?))
        }
    }
}

fn inline_methods(alloc: Global, program: &Program) -> Result<Bodies, NoMemory>
    ensures { IfOk result (λ b. IsBodies b (plain_program program.now)) }
{
    let class = Class::new(alloc, program)?;
    let mut counts = Counts {
        taken: 0,
        left: 100000,
        deep: 64,
    };
    let mut all = Methods::new(alloc);
    for m in program.methods.as_slice() {
        match inline_method(alloc, &class, m, &mut counts)? {
            None => return Ok(Bodies::TooLarge(m.span)),
            Some(made) => all.push(Box::into_inner(made))?,
        }
    }
    Ok(Bodies::Whole(all))
}

/// The program in which the bodies of helpers stand in for their calls, of at most 100,000 statements, or the fault that is kept of the rules
/// of helpers. Calls may be open in one another 64 deep, and so may blocks of what is written: past that, and where memory runs out, it is an error.
pub fn inline_helpers(alloc: Global, program: &Program) -> Result<Inlined, NoMemory>
    ensures { IfOk result (IsAnswer (plain_program program.now)) }
{
    match first_fault(alloc, program)? {
        Some(fault) => Ok(Inlined::Broken(fault)),
        None => match inline_methods(alloc, program)? {
            Bodies::TooLarge(at) => {
                let rule = HelperRule::TooLarge;
                Ok(Inlined::Broken(HelperFault { rule, at }))
            }
            Bodies::Whole(methods) => {
                let whole = program_with(alloc, program, methods)?;
                Ok(Inlined::Whole(Box::new(alloc, whole)?))
            }
        },
    }
}
