// The check.
ghost use Rattle.std.specs.Prelude.{◌≡◌, IfOk, IfErr, OnOk, None, map};
ghost use Rattle.java_ast.specs.Reading as reading;
ghost use Rattle.java_ast.specs.Reading.{program, method as plain_method};
ghost use Rattle.java_mean.specs.Numbers.{NumbersFit};
ghost use Rattle.java_mean.specs.WellTyped.{all_faults, faults_in_methods, IsWellTyped};
ghost use Rattle.java_mean.specs.Least.{least, IsRight, IsKept};
ghost use Rattle.java_types.specs.Texts.{read_by};

use crate::numbers::read_literals;
use crate::walk::walk_method;
use java_ast::{Method, Program};
use java_copies::copy_program;
use java_mean::{Scope, TypeFault};
use qbs_base::{Fail, NoMemory, boxed};
use schema::Schema;
use std::alloc::Global;

/// A program that was checked: its literals have 64 bits. What takes one with a schema requires
/// `IsWellTyped` of the two.
#[derive(Drop)]
pub struct Typed {
    program: Program,
    ghost numbers: { NumbersFit (reading.program program) },
}

impl Typed {
    /// A program as one that may be well typed, which isn't asked here. It takes no memory.
    pub fn of(program: Program) -> Typed
        ensures { result.program ≡ program }
    {
        read_literals(&program);
        Typed { program }
    }

    /// The same of a program whose literals are known to have 64 bits, which isn't looked at.
    pub fn with_numbers(program: Program) -> Typed
        requires { NumbersFit (reading.program program) }
        ensures { result.program ≡ program }
    {
        Typed { program }
    }

    /// The program that was checked.
    pub fn program(&self) -> &Program
        ensures { result.now ≡ self.now.program }
    {
        &self.program
    }

    /// The program that was checked, taken out.
    pub fn into_program(self) -> Program
        ensures { result ≡ self.program }
    {
        self.program
    }
}

// The fault that is kept of some methods.
#[tactic(auto, using(crate::proofs::Kept::parts))]
fn walk_methods<'a>(
    methods: &'a [Method],
    alloc: Global,
    schema: &Schema,
    names: &mut Scope<'a>,
    kept: &mut Option<TypeFault>,
) -> Result<(), NoMemory>
    ensures { OnOk result (kept.new ≡ least kept.old (faults_in_methods schema.now (read_by schema.now) names.old (map plain_method methods.now))) }
{
    for m in methods {
        walk_method(m, names.has(&m.name), alloc, schema, kept)?;
        names.declare(&m.name, None)?;
    }
    Ok(())
}

// The fault that is kept of a program.
fn first_fault(alloc: Global, schema: &Schema, p: &Program) -> Result<Option<TypeFault>, NoMemory>
    ensures { IfOk result (λ k. k ≡ least None (all_faults schema.now (read_by schema.now) (program p.now))) }
{
    let mut kept = None;
    let mut names = boxed(alloc, Scope::new(alloc))?;
    walk_methods(p.methods.as_slice(), alloc, schema, &mut *names, &mut kept)?;
    Ok(kept)
}

/// Takes a program that is well typed under the schema, with its spans. Otherwise it answers the first
/// fault: that of the first place in the text, and there the one of the rule with the smallest number.
#[tactic(auto, using(crate::proofs::First::kept_last))]
pub fn check(alloc: Global, schema: &Schema, p: &Program) -> Result<Typed, Fail<TypeFault>>
    ensures same { IfOk result (λ t. program t.program ≡ program p.now) }
    ensures typed { IfOk result (λ t. IsWellTyped schema.now (read_by schema.now) (program t.program)) }
    ensures exact { OnOk result (IsWellTyped schema.now (read_by schema.now) (program p.now)) }
    ensures fault { IfErr result (IsRight (all_faults schema.now (read_by schema.now) (program p.now))) }
    // Of faults with one place and one rule the first is kept.
    ensures kept { IfErr result (IsKept (all_faults schema.now (read_by schema.now) (program p.now))) }
{
    match first_fault(alloc, schema, p)? {
        None => {
            let program = copy_program(alloc, p)?;
            read_literals(&program);
            Ok(Typed { program })
        }
        Some(f) => Err(Fail::Fault(f)),
    }
}
