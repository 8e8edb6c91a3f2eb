// Copies of methods and programs, and those with other parts.
ghost use Rattle.std.specs.Prelude.{◌≡◌, ◌++◌, IfOk, OnOk, map};
ghost use Rattle.java_ast.specs.Reading.{statements, method as plain_method, program as plain_program};
ghost use Rattle.java_ast.specs.Path.{with_body, with_methods};

use crate::copy::{copy_params, copy_result, copy_statements};
use java_ast::{Method, Methods, Program, Stmt, Stmts};
use qbs_base::{NoMemory, Text, copy_names};
use std::alloc::Global;

/// The method with another body.
pub fn method_with(alloc: Global, m: &Method, body: Vec<Stmt>) -> Result<Method, NoMemory>
    ensures { IfOk result (λ c. plain_method c ≡ with_body (plain_method m.now) (statements body.items)) }
{
    Ok(Method {
        access: m.access,
        fixed: m.fixed,
        result: copy_result(alloc, &m.result)?,
        name: m.name.clone()?,
        params: copy_params(alloc, m.params.as_slice())?,
        body: Stmts::from_vec(body),
        span: m.span,
    })
}

fn copy_method(alloc: Global, m: &Method) -> Result<Method, NoMemory>
    ensures { IfOk result (λ c. plain_method c ≡ plain_method m.now) }
{
    let body = copy_statements(alloc, m.body.as_slice())?;
    method_with(alloc, m, body)
}

pub fn push_methods(alloc: Global, all: &mut Methods, methods: &[Method]) -> Result<(), NoMemory>
    ensures { OnOk result (map plain_method all.new ≡ map plain_method all.old ++ map plain_method methods.now) }
{
    for m in methods {
        all.push(copy_method(alloc, m)?)?;
    }
    Ok(())
}

fn copy_package(name: &Option<Text>) -> Result<Option<Text>, NoMemory>
    ensures { IfOk result (λ c. c ≡ name.now) }
{
    match name {
        None => Ok(None),
        Some(name) => Ok(Some(name.clone()?)),
    }
}

/// The program with other methods.
pub fn program_with(alloc: Global, p: &Program, methods: Methods) -> Result<Program, NoMemory>
    ensures { IfOk result (λ c. plain_program c ≡ with_methods (plain_program p.now) (map plain_method methods)) }
{
    Ok(Program {
        package: copy_package(&p.package)?,
        imports: copy_names(alloc, p.imports.as_slice())?,
        public: p.public,
        name: p.name.clone()?,
        methods,
    })
}

/// A copy of a program, with every place as it was.
pub fn copy_program(alloc: Global, p: &Program) -> Result<Program, NoMemory>
    ensures { IfOk result (λ c. plain_program c ≡ plain_program p.now) }
{
    let mut methods = Methods::new(alloc);
    push_methods(alloc, &mut methods, p.methods.as_slice())?;
    program_with(alloc, p, methods)
}
