// The class: four methods, each with one walk of the users.
ghost use Rattle.std.specs.Prelude.{◌≡◌, [], ◌∷◌, ◌++◌, IfOk, OnOk, map};
ghost use Rattle.java_ast.specs.Reading.{method as plain_method, program as plain_program};
ghost use Rattle.sample.specs.Class as specs;

use crate::build::{
    Given, adding, assign, binary, field, over_users, put_walk, variable, where_so,
};
use java_ast::{Methods, Op, Program};
use qbs_base::{Name, NoMemory, Texts};
use sample_data::operands;
use std::alloc::Global;

// The users that are active.
fn put_evens(methods: &mut Methods, alloc: Global) -> Result<(), NoMemory>
    ensures { OnOk result (map plain_method methods.new ≡ map plain_method methods.old ++ specs.evens ∷ []) }
{
    let add = adding(alloc, "out", variable(alloc, "u")?)?;
    let body = where_so(alloc, field(alloc, "u", "active")?, add)?;
    over_users(methods, alloc, Given::Users, "evens", "out", body)
}

// The role's label is added where the user has that role.
fn put_pairs(methods: &mut Methods, alloc: Global) -> Result<(), NoMemory>
    ensures { OnOk result (map plain_method methods.new ≡ map plain_method methods.old ++ specs.pairs ∷ []) }
{
    let user = field(alloc, "u", "roleId")?;
    let role = field(alloc, "r", "id")?;
    let (left, right) = operands(user, role);
    let cond = binary(alloc, Op::Eq, left, right)?;
    let add = adding(alloc, "out", field(alloc, "r", "label")?)?;
    let walked = where_so(alloc, cond, add)?;
    let mut body = Vec::new(alloc);
    put_walk(&mut body, alloc, "Role", "r", walked)?;
    over_users(methods, alloc, Given::Texts, "pairs", "out", body)
}

// The sum of the ages.
fn put_total(methods: &mut Methods, alloc: Global) -> Result<(), NoMemory>
    ensures { OnOk result (map plain_method methods.new ≡ map plain_method methods.old ++ specs.total ∷ []) }
{
    let sum = variable(alloc, "sum")?;
    let age = field(alloc, "u", "age")?;
    let body = assign(alloc, "sum", binary(alloc, Op::Add, sum, age)?)?;
    over_users(methods, alloc, Given::Sum, "total", "sum", body)
}

// The users' names, each once.
fn put_names(methods: &mut Methods, alloc: Global) -> Result<(), NoMemory>
    ensures { OnOk result (map plain_method methods.new ≡ map plain_method methods.old ++ specs.names ∷ []) }
{
    let body = adding(alloc, "out", field(alloc, "u", "name")?)?;
    over_users(methods, alloc, Given::DistinctTexts, "names", "out", body)
}

fn put_methods(methods: &mut Methods, alloc: Global) -> Result<(), NoMemory>
    requires { methods.old ≡ [] }
    ensures { OnOk result (map plain_method methods.new ≡ specs.evens ∷ specs.pairs ∷ specs.total ∷ specs.names ∷ []) }
{
    put_evens(methods, alloc)?;
    put_pairs(methods, alloc)?;
    put_total(methods, alloc)?;
    put_names(methods, alloc)
}

/// The class. Only want of memory is an error.
pub fn sample_class(alloc: Global) -> Result<Program, NoMemory>
    ensures { IfOk result (λ p. plain_program p ≡ specs.sample_program) }
{
    let name = Name::from_str(alloc, "M")?;
    let mut methods = Methods::new(alloc);
    put_methods(&mut methods, alloc)?;
    let imports = Texts::new(alloc);
    Ok(Program {
        package: None,
        imports,
        public: false,
        name,
        methods,
    })
}
