// Methods whose bodies are looked into.
ghost use Rattle.std.specs.Prelude.{◌≡◌, ◌<◌, ◌≤◌, ◌+◌, ◌++◌, [], IfOk, IfSome, length};
ghost use Rattle.view_scope.specs.Methods as specs;

use crate::types::java_type_end;
use qbs_base::{Items, NoMemory};
use std::alloc::Global;
use view_items::{Item, is_shallow};
use view_shapes::{
    Method, Parameter, Stretch, closing_at, dotted_end, is_one_of_words, is_plain_name, is_sign,
    is_word, prefix_end, variable_prefix_end,
};

const METHOD_MODIFIERS: [&str; 10] = [
    "public",
    "protected",
    "private",
    "static",
    "final",
    "abstract",
    "native",
    "synchronized",
    "strictfp",
    "default",
];

/// The number behind annotations and the modifiers that a method may have.
#[tactic(auto, unfolding(crate::specs::Methods::method_prefix_end))]
pub fn method_prefix_end(items: &[Item], closings: &[usize], number: usize) -> Option<usize>
    ensures { result ≡ specs.method_prefix_end items.now closings.now number }
{
    prefix_end(&METHOD_MODIFIERS, items, closings, number)
}

fn parameter_named(items: &[Item], ty: usize, name: usize) -> Option<Parameter>
    ensures value { result ≡ specs.parameter_named items.now ty name }
    ensures within { IfSome result (λ p. p.name < length items.now) }
{
    if is_plain_name(items, name) {
        Some(Parameter { ty, name })
    } else {
        None
    }
}

/// The number behind the dots of a parameter that takes any number of values.
fn past_dots(items: &[Item], number: usize) -> usize
    requires { number ≤ length items.now + 1 }
    ensures { result ≡ specs.past_dots items.now number }
{
    if is_sign("...", items, number) {
        number + 1
    } else {
        number
    }
}

/// The parameter that begins at a number: annotations and `final`, a type, `...` or not, and a name.
pub fn parameter_at(items: &[Item], closings: &[usize], number: usize) -> Option<Parameter>
    ensures value { result ≡ specs.parameter_at items.now closings.now number }
    ensures within { IfSome result (λ p. p.name < length items.now) }
{
    let ty = variable_prefix_end(items, closings, number)?;
    let end = java_type_end(items, ty)?;
    parameter_named(items, ty, past_dots(items, end))
}

/// The parameters from a number up to the closing parenthesis, at least one. It fails only by want of memory.
#[tactic(auto, unfolding(crate::specs::Methods::parameters_from))]
fn parameters_from(
    alloc: Global,
    items: &[Item],
    closings: &[usize],
    first: usize,
    to: usize,
) -> Result<Option<Items<Parameter>>, NoMemory>
    ensures { IfOk result (λ ps. ps ≡ specs.parameters_from (length items.now) [] items.now closings.now first to) }
{
    let mut parameters = Items::new(alloc);
    let mut number = first;
    let mut left = items.len();
    while left > 0 {
        left -= 1;
        let Some(parameter) = parameter_at(items, closings, number) else {
            return Ok(None);
        };
        parameters.push(parameter)?;
        if parameter.name + 1 == to {
            return Ok(Some(parameters));
        }
        if !is_sign(",", items, parameter.name + 1) {
            return Ok(None);
        }
        number = parameter.name + 2;
    }
    Ok(None)
}

fn parameters_of(
    alloc: Global,
    items: &[Item],
    closings: &[usize],
    number: usize,
    to: usize,
) -> Result<Option<Items<Parameter>>, NoMemory>
    ensures { IfOk result (λ ps. ps ≡ specs.parameters_of items.now closings.now number to) }
{
    if number == to {
        return Ok(Some(Items::new(alloc)));
    }
    parameters_from(alloc, items, closings, number, to)
}

/// The number behind the names of exceptions with commas between them.
#[tactic(auto, unfolding(crate::specs::Methods::exceptions_end))]
fn exceptions_end(items: &[Item], first: usize) -> Option<usize>
    ensures value { result ≡ specs.exceptions_end (length items.now) items.now first }
    ensures within { IfSome result (λ m. m ≤ length items.now) }
{
    let mut number = first;
    let mut left = items.len();
    while left > 0 {
        left -= 1;
        let next = dotted_end(items, number)?;
        if !is_sign(",", items, next) {
            return Some(next);
        }
        number = next + 1;
    }
    None
}

/// The number behind `throws` and its names, if it stands there.
fn throws_end(items: &[Item], number: usize) -> Option<usize>
    requires { number ≤ length items.now }
    ensures value { result ≡ specs.throws_end items.now number }
    ensures within { IfSome result (λ m. m ≤ length items.now) }
{
    if is_word("throws", items, number) {
        exceptions_end(items, number + 1)
    } else {
        Some(number)
    }
}

/// The number behind `void` or a type.
fn result_end(items: &[Item], number: usize) -> Option<usize>
    ensures { result ≡ specs.result_end items.now number }
{
    if is_word("void", items, number) {
        Some(number + 1)
    } else {
        java_type_end(items, number)
    }
}

fn begins_other(items: &[Item], number: usize) -> bool
    ensures { result ≡ specs.begins_other items.now number }
{
    is_one_of_words(&["class", "interface", "enum", "record"], items, number)
}

/// Whether the type between two numbers is that of one truth value.
fn gives_truth(items: &[Item], number: usize, name: usize) -> bool
    ensures { result ≡ specs.gives_truth items.now number name }
{
    is_one_of_words(&["boolean", "Boolean"], items, number) && number + 1 == name
}

/// The closing brace of the block that begins at a number, where a member ends with that.
fn block_end(member: Stretch, items: &[Item], closings: &[usize], number: usize) -> Option<usize>
    ensures { result ≡ specs.block_end member items.now closings.now number }
{
    if !is_sign("{", items, number) {
        return None;
    }
    let closing = closing_at(items, closings, number)?;
    if closing + 1 == member.to {
        Some(closing)
    } else {
        None
    }
}

/// Where the parts of a method stand: the first item of its result, its name, its closing parenthesis, and those of its body.
#[derive(Clone, Copy, PartialEq, Eq)]
pub struct Outline {
    pub result: usize,
    pub name: usize,
    pub closing: usize,
    pub from: usize,
    pub to: usize,
}

/// The closing parenthesis behind the name of a method.
fn head_end(items: &[Item], closings: &[usize], name: usize) -> Option<usize>
    ensures value { result ≡ specs.head_end items.now closings.now name }
    ensures within { IfSome result (λ c. (name < c) × (c < length items.now)) }
{
    if is_plain_name(items, name) && is_sign("(", items, name + 1) {
        closing_at(items, closings, name + 1)
    } else {
        None
    }
}

/// The outline of a method whose result begins at a number.
fn outline_from(
    member: Stretch,
    items: &[Item],
    closings: &[usize],
    number: usize,
) -> Option<Outline>
    ensures value { result ≡ specs.outline_from member items.now closings.now number }
    ensures within { IfSome result (λ o. o.name + 1 < length items.now) }
{
    if begins_other(items, number) {
        return None;
    }
    let name = result_end(items, number)?;
    let closing = head_end(items, closings, name)?;
    let brace = throws_end(items, closing + 1)?;
    let to = block_end(member, items, closings, brace)?;
    Some(Outline {
        result: number,
        name,
        closing,
        from: brace + 1,
        to,
    })
}

/// The outline of the method that a member is, whatever its parameters are.
#[tactic(auto, unfolding(crate::specs::Methods::outline_of))]
fn outline_of(items: &[Item], closings: &[usize], member: Stretch) -> Option<Outline>
    ensures value { result ≡ specs.outline_of items.now closings.now member }
    ensures within { IfSome result (λ o. o.name + 1 < length items.now) }
{
    if !is_shallow(items, member.from, member.to) {
        return None;
    }
    let number = method_prefix_end(items, closings, member.from)?;
    outline_from(member, items, closings, number)
}

/// The method that a member is: annotations and modifiers, `void` or a type, a name, parameters, `throws` or not, and a block to its end. None
/// where it is none, or where more than 64 brackets are open at an item of it. It fails only by want of memory.
pub fn method_of(
    alloc: Global,
    items: &[Item],
    closings: &[usize],
    member: Stretch,
) -> Result<Option<Method>, NoMemory>
    ensures { IfOk result (λ m. m ≡ specs.method_of items.now closings.now member) }
{
    let Some(outline) = outline_of(items, closings, member) else {
        return Ok(None);
    };
    let Some(parameters) = parameters_of(alloc, items, closings, outline.name + 2, outline.closing)?
    else {
        return Ok(None);
    };
    Ok(Some(Method {
        name: outline.name,
        parameters,
        gives_truth: gives_truth(items, outline.result, outline.name),
        from: outline.from,
        to: outline.to,
    }))
}
