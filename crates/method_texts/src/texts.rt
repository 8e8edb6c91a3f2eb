// The text of one method.
ghost use Rattle.std.specs.Prelude.{◌≡◌, ℕ, List, [], ◌∷◌, ◌++◌, IfOk, map};
ghost use Rattle.java_ast.specs.Reading.{method as plain_method, program as plain_program};
ghost use Rattle.method_texts.specs.Alone.{alone as alone_of, opening, closing, Encloses};
ghost use Rattle.method_texts.specs.Anew.{method_text as method_text_of};

use java_ast::{Method, Methods, Program};
use java_copies::copy_statements;
use java_text::print_program;
use qbs_base::{Name, NoMemory, Text, Texts};
use renamed_copies::method_with;
use std::alloc::Global;

fn copy_of(alloc: Global, m: &Method) -> Result<Method, NoMemory>
    ensures { IfOk result (λ c. plain_method c ≡ plain_method m.now) }
{
    let body = copy_statements(alloc, m.body.as_slice())?;
    method_with(alloc, m, body)
}

fn copied(alloc: Global, m: &Method) -> Result<Methods, NoMemory>
    ensures { IfOk result (λ ms. map plain_method ms ≡ plain_method m.now ∷ []) }
{
    let mut methods = Methods::new(alloc);
    methods.push(copy_of(alloc, m)?)?;
    Ok(methods)
}

// A class with a copy of the method.
fn alone(alloc: Global, m: &Method) -> Result<Program, NoMemory>
    ensures { IfOk result (λ p. plain_program p ≡ alone_of (plain_method m.now)) }
{
    Ok(Program {
        package: None,
        imports: Texts::new(alloc),
        public: false,
        name: Name::from_str(alloc, "C")?,
        methods: copied(alloc, m)?,
    })
}

fn behind_opening(text: &str) -> &str
    ensures { (rest : List ℕ) → text.now ≡ opening ++ rest → result.now ≡ rest }
{
    match text.strip_prefix("class C {\n    ") {
        None => text,
        Some(rest) => rest,
    }
}

fn before_closing(text: &str) -> &str
    ensures { (front : List ℕ) → text.now ≡ front ++ closing → result.now ≡ front }
{
    match text.strip_suffix("\n}\n") {
        None => text,
        Some(front) => front,
    }
}

// What stands in the class of one method.
fn enclosed(text: &str) -> &str
    ensures { (inner : List ℕ) → Encloses text.now inner → result.now ≡ inner }
{
    before_closing(behind_opening(text))
}

/// The lines of a method in canonical layout, but for the margin of the first and the line end of the last. The method is copied for it.
pub fn method_text(alloc: Global, m: &Method) -> Result<Text, NoMemory>
    ensures { IfOk result (λ text. text ≡ method_text_of (plain_method m.now)) }
{
    let program = alone(alloc, m)?;
    let printed = print_program(alloc, &program)?;
    Ok(Text::from_str(alloc, enclosed(printed.as_str()))?)
}
