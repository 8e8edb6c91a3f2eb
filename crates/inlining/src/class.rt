// The class whose calls give way: its methods by name, and the numbers in whose marks names end.
ghost use Rattle.std.specs.Prelude.{◌≡◌, [], IfOk, OnOk, suc, map};
ghost use Rattle.std.specs.List.{flat_map};
ghost use Rattle.std.specs.Option.{option_map};
ghost use Rattle.java_ast.specs.Reading.{method as plain_method, program as plain_program};
ghost use Rattle.call_parts.specs.Marks.{is_marked as is_marked_of, next_number as next_number_of};
ghost use Rattle.java_calls.specs.Called.{method_named};
ghost use Rattle.java_calls.specs.ProgramNames.{dotted_parts, package_names, names_of};
ghost use Rattle.inlining.specs.Endings.{all_noted};

use crate::names::note_methods;
use crate::tails::Tails;
use call_rules::{Numbered, numbers_of};
use java_ast::{Method, Program};
use qbs_base::{Name, NoMemory, Text};
use renamed_copies::mark;
use std::alloc::Global;
use std::marker::Model;

fn note_package<'a>(tails: &mut Tails<'a>, name: &'a Option<Text>) -> Result<(), NoMemory>
    ensures { OnOk result (tails.new ≡ all_noted tails.old (package_names name.now)) }
{
    match name {
        None => Ok(()),
        Some(name) => tails.put_parts(name),
    }
}

fn note_imports<'a>(tails: &mut Tails<'a>, imports: &'a [Text]) -> Result<(), NoMemory>
    ensures { OnOk result (tails.new ≡ all_noted tails.old (flat_map dotted_parts imports.now)) }
{
    for name in imports {
        tails.put_parts(name)?;
    }
    Ok(())
}

fn note_program<'a>(tails: &mut Tails<'a>, p: &'a Program) -> Result<(), NoMemory>
    ensures { OnOk result (tails.new ≡ all_noted tails.old (names_of (plain_program p.now))) }
{
    note_package(tails, &p.package)?;
    note_imports(tails, p.imports.as_slice())?;
    tails.put(&p.name)?;
    note_methods(tails, p.methods.as_slice())
}

fn tails_of<'a>(alloc: Global, p: &'a Program) -> Result<Tails<'a>, NoMemory>
    ensures { IfOk result (λ t. t ≡ all_noted ([], 0) (names_of (plain_program p.now))) }
{
    let mut tails = Tails::new(alloc);
    note_program(&mut tails, p)?;
    Ok(tails)
}

fn following(number: u64) -> Result<u64, NoMemory>
    ensures { IfOk result (λ n. n ≡ suc number) }
{
    match number.checked_add(1) {
        None => Err(NoMemory),
        Some(next) => Ok(next),
    }
}

/// A class, as which contracts see it, its methods by name, and what its names end in.
#[derive(Drop)]
pub struct Class<'a> {
    program: &'a Program,
    numbers: Numbered<'a>,
    tails: Tails<'a>,
}

impl<'a> Model for Class<'a> {
    ghost use Rattle.std.specs.Prelude.{List, ℕ, [], ◌≡◌};
    ghost use Rattle.std.specs.Coded.{codes};
    ghost use Rattle.java_ast.specs.declared.tree.Program.{Program};
    ghost use Rattle.java_ast.specs.contracts.tree.StmtNode as statements;
    ghost use Rattle.java_ast.specs.contracts.tree.ExprNode as expressions;
    ghost use Rattle.java_ast.specs.contracts.tree.JTy as types;
    ghost use Rattle.java_ast.specs.Reading.{program as plain_program};
    ghost use Rattle.java_calls.specs.ProgramNames.{names_of};
    ghost use Rattle.java_calls.specs.Rules.{number_named};
    ghost use Rattle.call_rules.specs.Noted.{number_at};
    ghost use Rattle.inlining.specs.Endings.{all_noted};

    ghost Value = { Program };

    ghost coded = { Prim.hlevel (codes, statements.the_row.coded, expressions.the_row.coded, types.the_row.coded) };

    ghost view = { λ c. c.program.now };

    ghost invariant = { λ c.
        ((x : List ℕ) → number_at c.numbers x ≡ number_named (plain_program c.program.now).methods x)
        × (c.tails ≡ all_noted ([], 0) (names_of (plain_program c.program.now))) };
}

impl<'a> Class<'a> {
    /// The class of a program.
    pub fn new(alloc: Global, program: &'a Program) -> Result<Class<'a>, NoMemory>
        ensures { IfOk result (λ c. c ≡ program.now) }
    {
        let tails = tails_of(alloc, program)?;
        let numbers = numbers_of(alloc, program.methods.as_slice())?;
        Ok(Class {
            program,
            numbers,
            tails,
        })
    }

    /// The first method of a name.
    pub fn method(&self, name: &Name) -> Option<&'a Method>
        ensures { option_map (λ m. plain_method m.now) result ≡ method_named name.now (plain_program self.now).methods }
    {
        match self.numbers.of(name) {
            None => None,
            Some(number) => self.program.methods.as_slice().get(number),
        }
    }

    #[tactic(auto, using(crate::proofs::Marks::marks))]
    fn is_marked(&self, alloc: Global, number: u64) -> Result<bool, NoMemory>
        ensures { IfOk result (λ b. b ≡ is_marked_of (names_of (plain_program self.now)) number) }
    {
        let mark = mark(alloc, number)?;
        Ok(self.tails.has(mark.as_slice()))
    }

    /// The least number above one that was taken in whose mark no name ends.
    #[tactic(auto, using(crate::proofs::Fresh::fresh))]
    pub fn next_number(&self, alloc: Global, taken: u64) -> Result<u64, NoMemory>
        ensures { IfOk result (λ c. c ≡ next_number_of (names_of (plain_program self.now)) taken) }
    {
        let count = self.tails.count();
        let mut number = following(taken)?;
        for passed in 0..count {
            if !self.is_marked(alloc, number)? {
                return Ok(number);
            }
            number = following(number)?;
        }
        Ok(number)
    }
}
