// Copies of types as they are spelled.
ghost use Rattle.std.specs.Prelude.{◌≡◌, IfOk};
ghost use Rattle.java_ast.specs.Reading.{spelled};

use java_ast::JTy;
use qbs_base::NoMemory;
use std::alloc::Global;

pub fn copy_type(alloc: Global, ty: &JTy) -> Result<JTy, NoMemory>
    ensures { IfOk result (λ c. spelled c ≡ spelled ty.now) }
{
    match ty {
        JTy::Int => Ok(JTy::Int),
        JTy::Long => Ok(JTy::Long),
        JTy::Boolean => Ok(JTy::Boolean),
        JTy::String => Ok(JTy::String),
        JTy::BoxedInteger => Ok(JTy::BoxedInteger),
        JTy::BoxedLong => Ok(JTy::BoxedLong),
        JTy::BoxedBoolean => Ok(JTy::BoxedBoolean),
        JTy::Table(name) => Ok(JTy::Table(name.clone()?)),
        JTy::List(element) => {
            let element = Box::new(alloc, copy_type(alloc, element)?)?;
            Ok(JTy::List(element))
        }
        JTy::Set(element) => {
            let element = Box::new(alloc, copy_type(alloc, element)?)?;
            Ok(JTy::Set(element))
        }
    }
}
