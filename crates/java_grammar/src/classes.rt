// Methods and programs.
ghost use Rattle.std.specs.Prelude.{◌≡◌, ◌∷◌, Ok, map, option_map, is_some, IfErr};
ghost use Rattle.readers.specs.Reading.{Gives, made, is_over};
ghost use Rattle.java_ast.specs.Reading.{spelled, param as param_of, method as method_of, program as program_of};
ghost use Rattle.java_grammar.specs.Marks.{all_strict};
ghost use Rattle.java_grammar.specs.Reading.{first_is, is_word as is_this_word, many_at};
ghost use Rattle.java_grammar.specs.ReadingExpressions.{is_no_comma};
ghost use Rattle.java_grammar.specs.ReadingBodies.{is_close};
ghost use Rattle.java_grammar.specs.ReadingPrograms.{reached_at, whether_at, result_at, parameter_at, next_parameter_at, is_scalar_type, some_parameters_at, parameters_at, parameter_part_at, method_at, methods_at, class_at, dotted_name_at, package_at, is_no_import, imports_at, program_in};

use crate::bodies::{block, ends_block};
use crate::dotted::dotted_name;
use crate::places::between;
use crate::plain::less;
use crate::tokens::{
    ends_before, ends_before_word, is_next_word, name, opening, scalar, sign, word,
};
use crate::types::spelling;
use crate::words::scalar_type;
use java_ast::{Access, JTy, Method, Param, Program};
use java_lex::{Token, TokenNode};
use qbs_base::{Items, Name, Text};
use readers::ReadError;
use std::alloc::Global;

/// How a method may be reached.
#[tactic(auto, unfolding(crate::specs::ReadingPrograms::reached_at, crate::specs::ReadingPrograms::public_at, crate::specs::ReadingPrograms::private_at))]
fn reached(tokens: &[Token]) -> Result<(Access, &[Token]), ReadError>
    ensures value { Gives (λ x. (x.0, all_strict x.1.now)) result (reached_at (all_strict tokens.now)) }
    ensures no_memory { IfErr result (λ e. e ≡ ReadError.Memory → ⊥) }
{
    if is_next_word("public", tokens) {
        let rest = word("public", tokens)?;
        return Ok((Access::Public, rest));
    }
    if is_next_word("private", tokens) {
        let rest = word("private", tokens)?;
        return Ok((Access::Private, rest));
    }
    Ok((Access::Plain, tokens))
}

/// Whether this word stands here.
#[tactic(auto, unfolding(crate::specs::ReadingPrograms::whether_at))]
fn whether<'a>(text: &str, tokens: &'a [Token]) -> Result<(bool, &'a [Token]), ReadError>
    ensures value { Gives (λ x. (x.0, all_strict x.1.now)) result (whether_at text.now (all_strict tokens.now)) }
    ensures no_memory { IfErr result (λ e. e ≡ ReadError.Memory → ⊥) }
{
    if is_next_word(text, tokens) {
        let rest = word(text, tokens)?;
        return Ok((true, rest));
    }
    Ok((false, tokens))
}

/// What a method gives, or none where it is void.
#[tactic(auto, unfolding(crate::specs::ReadingPrograms::result_at))]
fn result_type(alloc: Global, tokens: &[Token]) -> Result<(Option<JTy>, &[Token]), ReadError>
    ensures { Gives (λ x. (option_map spelled x.0, all_strict x.1.now)) result (result_at (all_strict tokens.now)) }
{
    if is_next_word("void", tokens) {
        let rest = word("void", tokens)?;
        return Ok((None, rest));
    }
    let (ty, rest) = spelling(alloc, tokens)?;
    Ok((Some(ty), rest))
}

// ---- parameters

#[tactic(auto, unfolding(crate::specs::ReadingPrograms::parameter_at))]
fn parameter(tokens: &[Token]) -> Result<(Param, &[Token]), ReadError>
    ensures { Gives (λ x. (param_of x.0, all_strict x.1.now)) result (parameter_at (all_strict tokens.now)) }
{
    let (ty, rest) = scalar(tokens)?;
    let (name, rest) = name(rest)?;
    let name = name.clone()?;
    Ok((Param { ty, name }, rest))
}

#[tactic(auto, unfolding(crate::specs::ReadingPrograms::next_parameter_at))]
fn next_parameter(tokens: &[Token]) -> Result<(Param, &[Token]), ReadError>
    ensures { Gives (λ x. (param_of x.0, all_strict x.1.now)) result (next_parameter_at (all_strict tokens.now)) }
{
    let rest = sign(",", tokens)?;
    let (param, rest) = parameter(rest)?;
    Ok((param, rest))
}

/// The first parameter, and the others, each with a comma before it.
fn parameters_behind(
    alloc: Global,
    first: Param,
    tokens: &[Token],
) -> Result<(Vec<Param>, &[Token]), ReadError>
    ensures { Gives (λ x. (map param_of x.0.items, all_strict x.1.now)) result (
        made (λ xs. param_of first ∷ xs) (many_at is_no_comma next_parameter_at) (all_strict tokens.now)) }
{
    let mut params = Vec::new(alloc);
    params.push(first)?;
    let mut rest = tokens;
    // Each has a token at least.
    for _ in 0..tokens.len() {
        if ends_before(",", rest) {
            break;
        }
        let (param, after) = next_parameter(rest)?;
        params.push(param)?;
        rest = after;
    }
    Ok((params, rest))
}

#[tactic(auto, unfolding(crate::specs::ReadingPrograms::some_parameters_at))]
fn some_parameters(alloc: Global, tokens: &[Token]) -> Result<(Vec<Param>, &[Token]), ReadError>
    ensures { Gives (λ x. (map param_of x.0.items, all_strict x.1.now)) result (some_parameters_at (all_strict tokens.now)) }
{
    let (first, rest) = parameter(tokens)?;
    parameters_behind(alloc, first, rest)
}

fn is_next_scalar_type(tokens: &[Token]) -> bool
    ensures { result ≡ first_is is_scalar_type (all_strict tokens.now) }
{
    match tokens {
        [] => false,
        [first, ..] => match &first.node {
            TokenNode::Word(word) => scalar_type(word.as_str()).is_some(),
            _ => false,
        },
    }
}

#[tactic(auto, unfolding(crate::specs::ReadingPrograms::parameters_at))]
fn parameters(alloc: Global, tokens: &[Token]) -> Result<(Vec<Param>, &[Token]), ReadError>
    ensures { Gives (λ x. (map param_of x.0.items, all_strict x.1.now)) result (parameters_at (all_strict tokens.now)) }
{
    if is_next_scalar_type(tokens) {
        return some_parameters(alloc, tokens);
    }
    Ok((Vec::new(alloc), tokens))
}

#[tactic(auto, unfolding(crate::specs::ReadingPrograms::parameter_part_at))]
fn parameter_part(
    alloc: Global,
    room: u32,
    tokens: &[Token],
) -> Result<(Vec<Param>, &[Token]), ReadError>
    ensures { Gives (λ x. (map param_of x.0.items, all_strict x.1.now)) result (parameter_part_at room (all_strict tokens.now)) }
{
    let rest = opening(room, "(", tokens)?;
    let (params, rest) = parameters(alloc, rest)?;
    let rest = sign(")", rest)?;
    Ok((params, rest))
}

// ---- methods

#[tactic(auto, unfolding(crate::specs::ReadingPrograms::method_at))]
fn method(alloc: Global, room: u32, tokens: &[Token]) -> Result<(Method, &[Token]), ReadError>
    ensures { Gives (λ x. (method_of x.0, all_strict x.1.now)) result (method_at room (all_strict tokens.now)) }
{
    let (access, rest) = reached(tokens)?;
    let (fixed, rest) = whether("static", rest)?;
    let (result, rest) = result_type(alloc, rest)?;
    let (name, rest) = name(rest)?;
    let (params, rest) = parameter_part(alloc, room, rest)?;
    let (body, rest) = block(alloc, room, rest)?;
    let span = between(tokens, rest);
    let name = name.clone()?;
    let params = Items::from_vec(params);
    let body = Items::from_vec(body);
    Ok((
        Method {
            access,
            fixed,
            result,
            name,
            params,
            body,
            span,
        },
        rest,
    ))
}

/// Methods up to a closing brace.
fn all_methods(
    alloc: Global,
    room: u32,
    tokens: &[Token],
) -> Result<(Vec<Method>, &[Token]), ReadError>
    ensures { Gives (λ x. (map method_of x.0.items, all_strict x.1.now)) result (many_at is_close (method_at room) (all_strict tokens.now)) }
{
    let mut methods = Vec::new(alloc);
    let mut rest = tokens;
    // Each has a token at least.
    for _ in 0..tokens.len() {
        if ends_block(rest) {
            break;
        }
        let (method, after) = method(alloc, room, rest)?;
        methods.push(method)?;
        rest = after;
    }
    Ok((methods, rest))
}

/// The methods of a class in their braces.
#[tactic(auto, unfolding(crate::specs::ReadingPrograms::methods_at))]
fn methods(alloc: Global, room: u32, tokens: &[Token]) -> Result<(Vec<Method>, &[Token]), ReadError>
    ensures { Gives (λ x. (map method_of x.0.items, all_strict x.1.now)) result (methods_at room (all_strict tokens.now)) }
{
    let rest = opening(room, "{", tokens)?;
    let (methods, rest) = all_methods(alloc, less(room), rest)?;
    let rest = sign("}", rest)?;
    Ok((methods, rest))
}

/// The name of a class and its methods.
#[tactic(auto, unfolding(crate::specs::ReadingPrograms::class_at))]
fn class(
    alloc: Global,
    room: u32,
    tokens: &[Token],
) -> Result<(&Name, Vec<Method>, &[Token]), ReadError>
    ensures { Gives (λ x. ((x.0.now, map method_of x.1.items), all_strict x.2.now)) result (class_at room (all_strict tokens.now)) }
{
    let rest = word("class", tokens)?;
    let (name, rest) = name(rest)?;
    let (methods, rest) = methods(alloc, room, rest)?;
    Ok((name, methods, rest))
}

// ---- programs

#[tactic(auto, unfolding(crate::specs::ReadingPrograms::package_at))]
fn package(alloc: Global, tokens: &[Token]) -> Result<(Option<Text>, &[Token]), ReadError>
    ensures { Gives (λ x. (x.0, all_strict x.1.now)) result (package_at (all_strict tokens.now)) }
{
    if is_next_word("package", tokens) {
        let (name, rest) = dotted_name(alloc, "package", false, tokens)?;
        return Ok((Some(name), rest));
    }
    Ok((None, tokens))
}

fn imports(alloc: Global, tokens: &[Token]) -> Result<(Vec<Text>, &[Token]), ReadError>
    ensures { Gives (λ x. (x.0.items, all_strict x.1.now)) result (imports_at (all_strict tokens.now)) }
{
    let mut names = Vec::new(alloc);
    let mut rest = tokens;
    // Each has a token at least.
    for _ in 0..tokens.len() {
        if ends_before_word("import", rest) {
            break;
        }
        let (name, after) = dotted_name(alloc, "import", true, rest)?;
        names.push(name)?;
        rest = after;
    }
    Ok((names, rest))
}

/// A program, where so many things may be open.
#[tactic(auto, unfolding(crate::specs::ReadingPrograms::program_in))]
pub fn program(alloc: Global, room: u32, tokens: &[Token]) -> Result<(Program, &[Token]), ReadError>
    ensures { Gives (λ x. (program_of x.0, all_strict x.1.now)) result (program_in room (all_strict tokens.now)) }
{
    let (package, rest) = package(alloc, tokens)?;
    let (imports, rest) = imports(alloc, rest)?;
    let (public, rest) = whether("public", rest)?;
    let (name, methods, rest) = class(alloc, room, rest)?;
    let name = name.clone()?;
    let imports = Items::from_vec(imports);
    let methods = Items::from_vec(methods);
    Ok((
        Program {
            package,
            imports,
            public,
            name,
            methods,
        },
        rest,
    ))
}
