// The words of a run as arguments of a method.
ghost use Rattle.std.specs.Prelude.{◌≡◌, ◌<◌, IfSome, length, map, position};
ghost use Rattle.java_ast.specs.Reading.{spelled, param as plain_param, method as plain_method};
ghost use Rattle.plans.specs.Calls.{param_type as type_of_param, method_named, method_at};
ghost use Rattle.plans.specs.Words.{Takes, TakesAll, ReadsArguments};
ghost use Rattle.std.specs.Str.{bytes_eq};

use crate::lines::word_refused;
use deliveries::fetch::Stop;
use java_ast::{JTy, Method, Param};
use java_mean::TypeRule;
use qbs_base::{Fail, Name, NoMemory, Scalar, Scalars, Text, Ty, Words};
use schema_text::read_field;
use std::alloc::Global;

fn method_place(methods: &[Method], name: &Name) -> Option<usize>
    ensures value { result ≡ position (λ m. bytes_eq m.name name.now) methods.now }
    ensures within { IfSome result (λ n. n < length methods.now) }
{
    methods.iter().position(|m| m.name == *name)
}

/// The place of the first method of this name.
#[tactic(auto, using(crate::proofs::Called::place_found))]
pub fn find_method(methods: &[Method], name: &Name) -> Option<usize>
    ensures named { method_at (map plain_method methods.now) result ≡ method_named name.now (map plain_method methods.now) }
    ensures within { IfSome result (λ n. n < length methods.now) }
{
    method_place(methods, name)
}

// The type of a parameter, which is a scalar's.
fn param_type(ty: &JTy) -> Option<Ty>
    ensures { result ≡ type_of_param (spelled ty.now) }
{
    match ty {
        JTy::Int | JTy::Long => Some(Ty::Long),
        JTy::Boolean => Some(Ty::Bool),
        JTy::String => Some(Ty::Text),
        _ => None,
    }
}

// What a word stands for as the argument of a parameter, and none where it is no field of its type.
#[tactic(auto, using(crate::proofs::Called::none_taken, crate::proofs::Called::is_taken, crate::proofs::Called::not_taken))]
fn argument(alloc: Global, p: &Param, word: &Text) -> Result<Option<Scalar>, NoMemory>
    ensures { Takes result (plain_param p.now) word.now }
{
    let Some(ty) = param_type(&p.ty) else {
        return Ok(None);
    };
    match read_field(alloc, ty, word.as_slice()) {
        Ok(x) => Ok(Some(x)),
        Err(Fail::Fault(_)) => Ok(None),
        Err(Fail::NoMemory) => Err(NoMemory),
    }
}

// The arguments of parameters, a word for each, and none where one doesn't fit.
fn fields(alloc: Global, params: &[Param], words: &[Text]) -> Result<Option<Scalars>, NoMemory>
    requires { length params.now ≡ length words.now }
    ensures { TakesAll result (map plain_param params.now) words.now }
{
    let mut taken = Scalars::new(alloc);
    for i in 0..params.len() {
        match argument(alloc, &params[i], &words[i])? {
            Some(x) => taken.push(x)?,
            None => return Ok(None),
        }
    }
    Ok(Some(taken))
}

/// The arguments that the words are for parameters. Otherwise it answers the refusal: `Arity` where there are
/// more or fewer words than parameters, `Mismatch` where a word is no field of its parameter's type.
#[tactic(auto, using(crate::proofs::Called::too_many, crate::proofs::Called::not_fields, crate::proofs::Called::fields_fit))]
pub fn read_arguments(alloc: Global, params: &[Param], words: &Words) -> Result<Scalars, Stop>
    ensures { ReadsArguments result (map plain_param params.now) words.now }
{
    let words = words.as_slice();
    if params.len() != words.len() {
        return Err(word_refused(alloc, TypeRule::Arity));
    }
    match fields(alloc, params, words)? {
        Some(args) => Ok(args),
        None => Err(word_refused(alloc, TypeRule::Mismatch)),
    }
}
