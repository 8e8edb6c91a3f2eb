// Methods and programs with other parts, the rest copied.
ghost use Rattle.std.specs.Prelude.{◌≡◌, IfOk, map};
ghost use Rattle.std.specs.Option.{option_map};
ghost use Rattle.java_ast.specs.Path.{with_body, with_methods};
ghost use Rattle.java_ast.specs.Reading.{spelled, param, statements, method as plain_method, program as plain_program};

use crate::renamed::copy_type;
use java_ast::{JTy, Method, Methods, Param, Params, Program, Stmt, Stmts};
use qbs_base::{NoMemory, Text, copy_names};
use std::alloc::Global;

fn copy_result(alloc: Global, ty: &Option<JTy>) -> Result<Option<JTy>, NoMemory>
    ensures { IfOk result (λ c. option_map spelled c ≡ option_map spelled ty.now) }
{
    match ty {
        None => Ok(None),
        Some(ty) => Ok(Some(copy_type(alloc, ty)?)),
    }
}

fn copy_param(alloc: Global, p: &Param) -> Result<Param, NoMemory>
    ensures { IfOk result (λ c. param c ≡ param p.now) }
{
    Ok(Param {
        ty: copy_type(alloc, &p.ty)?,
        name: p.name.clone()?,
    })
}

fn copy_params(alloc: Global, params: &[Param]) -> Result<Params, NoMemory>
    ensures { IfOk result (λ c. map param c ≡ map param params.now) }
{
    let mut all = Params::new(alloc);
    for p in params {
        all.push(copy_param(alloc, p)?)?;
    }
    Ok(all)
}

/// The method with another body.
pub fn method_with(alloc: Global, m: &Method, body: Vec<Stmt>) -> Result<Method, NoMemory>
    ensures { IfOk result (λ c. plain_method c ≡ with_body (plain_method m.now) (statements body.items)) }
{
    Ok(Method {
        access: m.access,
        fixed: m.fixed,
        result: copy_result(alloc, &m.result)?,
        name: m.name.clone()?,
        params: copy_params(alloc, m.params.as_slice())?,
        body: Stmts::from_vec(body),
        span: m.span,
    })
}

fn copy_package(name: &Option<Text>) -> Result<Option<Text>, NoMemory>
    ensures { IfOk result (λ c. c ≡ name.now) }
{
    match name {
        None => Ok(None),
        Some(name) => Ok(Some(name.clone()?)),
    }
}

/// The program with other methods.
pub fn program_with(alloc: Global, p: &Program, methods: Methods) -> Result<Program, NoMemory>
    ensures { IfOk result (λ c. plain_program c ≡ with_methods (plain_program p.now) (map plain_method methods)) }
{
    Ok(Program {
        package: copy_package(&p.package)?,
        imports: copy_names(alloc, p.imports.as_slice())?,
        public: p.public,
        name: p.name.clone()?,
        methods,
    })
}
