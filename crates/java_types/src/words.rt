// The words of the rule on types: each notes the place where something does not fit, and says nothing of
// what has no type.
ghost use Rattle.std.specs.Prelude.{◌≡◌, not, Some};
ghost use Rattle.java_mean.specs.declared.types.JavaType.{JavaType};
ghost use Rattle.java_mean.specs.declared.types.Kindred.{Kindred};
ghost use Rattle.java_mean.specs.Rules as rules;
ghost use Rattle.java_mean.specs.WellTyped.{marked};
ghost use Rattle.java_mean.specs.declared.rule.TypeRule.TheVariants as broken;
ghost use Rattle.java_mean.specs.Least.{least};

use crate::types::{column_in, may_be, same_type};
use java_mean::{JavaType, Kindred, Single, TypeFault, TypeRule, note_if};
use qbs_base::{Name, Span, Ty, same_ty};
use schema::Schema;

pub fn unless(kept: &mut Option<TypeFault>, k: Option<Kindred>, j: JavaType, at: Span)
    ensures { kept.new ≡ least kept.old (marked broken.Mismatch (rules.unless k j at)) }
{
    if let Some(k) = k {
        note_if(kept, !may_be(k, j), TypeRule::Mismatch, at);
    }
}

pub fn unless_both(kept: &mut Option<TypeFault>, k: Option<Kindred>, j: Option<JavaType>, at: Span)
    ensures { kept.new ≡ least kept.old (marked broken.Mismatch (rules.unless_both k j at)) }
{
    if let Some(j) = j {
        unless(kept, k, j, at);
    }
}

pub fn unless_single(kept: &mut Option<TypeFault>, k: Option<Kindred>, a: Option<Single>, at: Span)
    ensures { kept.new ≡ least kept.old (marked broken.Mismatch (rules.unless_single k a at)) }
{
    if let Some(a) = a {
        unless(kept, k, JavaType::Of(a), at);
    }
}

/// The type of a scalar, where what is of the kindred is one.
pub fn scalar_ty(k: Option<Kindred>) -> Option<Ty>
    ensures { result ≡ rules.scalar_ty k }
{
    match k {
        Some(Kindred::Only(JavaType::Of(Single::ScalarOf(ty)))) => Some(ty),
        _ => None,
    }
}

fn is_scalar(k: Kindred) -> bool
    ensures { result ≡ rules.is_scalar k }
{
    match k {
        Kindred::Only(JavaType::Of(Single::ScalarOf(_))) => true,
        _ => false,
    }
}

pub fn unless_scalar(kept: &mut Option<TypeFault>, k: Option<Kindred>, at: Span)
    ensures { kept.new ≡ least kept.old (marked broken.Mismatch (rules.unless_scalar k at)) }
{
    if let Some(k) = k {
        note_if(kept, !is_scalar(k), TypeRule::Mismatch, at);
    }
}

pub fn unless_alike(kept: &mut Option<TypeFault>, a: Option<Ty>, b: Option<Ty>, at: Span)
    ensures { kept.new ≡ least kept.old (marked broken.Mismatch (rules.unless_alike a b at)) }
{
    match (a, b) {
        (Some(a), Some(b)) => note_if(kept, !same_ty(a, b), TypeRule::Mismatch, at),
        _ => {}
    }
}

/// Whether a variable of this type has many members: a list or a set.
pub fn is_many(k: JavaType) -> bool
    ensures { result ≡ rules.is_many k }
{
    match k {
        JavaType::Of(_) => false,
        JavaType::Listed(_) => true,
        JavaType::Distinct(_) => true,
    }
}

fn is_many_kindred(k: Kindred) -> bool
    ensures { result ≡ rules.is_many_kindred k }
{
    match k {
        Kindred::Only(k) => is_many(k),
        Kindred::AnyList => true,
        Kindred::AnySet => true,
    }
}

pub fn unless_many(kept: &mut Option<TypeFault>, k: Option<JavaType>, at: Span)
    ensures { kept.new ≡ least kept.old (marked broken.Mismatch (rules.unless_passes rules.is_many k at)) }
{
    if let Some(k) = k {
        note_if(kept, !is_many(k), TypeRule::Mismatch, at);
    }
}

pub fn unless_walked(kept: &mut Option<TypeFault>, k: Option<Kindred>, at: Span)
    ensures { kept.new ≡ least kept.old (marked broken.Mismatch (rules.unless_passes rules.is_many_kindred k at)) }
{
    if let Some(k) = k {
        note_if(kept, !is_many_kindred(k), TypeRule::Mismatch, at);
    }
}

pub fn unless_listed(kept: &mut Option<TypeFault>, k: Option<JavaType>, at: Span)
    ensures { kept.new ≡ least kept.old (marked broken.Mismatch (rules.unless_passes rules.is_listed k at)) }
{
    if let Some(k) = k {
        note_if(
            kept,
            !matches!(k, JavaType::Listed(_)),
            TypeRule::Mismatch,
            at,
        );
    }
}

pub fn unless_element(
    kept: &mut Option<TypeFault>,
    a: Option<Single>,
    k: Option<JavaType>,
    at: Span,
)
    ensures { kept.new ≡ least kept.old (marked broken.Mismatch (rules.unless_element a k at)) }
{
    match (a, k) {
        (Some(a), Some(k)) => {
            note_if(kept, !same_type(JavaType::Of(a), k), TypeRule::Mismatch, at)
        }
        _ => {}
    }
}

/// The members of a list or a set.
pub fn element_of(k: Option<JavaType>) -> Option<Single>
    ensures { result ≡ rules.element_of k }
{
    match k {
        Some(JavaType::Listed(a)) => Some(a),
        Some(JavaType::Distinct(a)) => Some(a),
        _ => None,
    }
}

/// The members of a list.
pub fn listed_in(k: Option<JavaType>) -> Option<Single>
    ensures { result ≡ rules.listed_in k }
{
    match k {
        Some(JavaType::Listed(a)) => Some(a),
        _ => None,
    }
}

/// The members of a list or a set, where they are scalars.
pub fn scalars_of(k: Option<JavaType>) -> Option<Single>
    ensures { result ≡ rules.scalars_of k }
{
    match k {
        Some(JavaType::Listed(Single::ScalarOf(ty))) => Some(Single::ScalarOf(ty)),
        Some(JavaType::Distinct(Single::ScalarOf(ty))) => Some(Single::ScalarOf(ty)),
        _ => None,
    }
}

/// The members of what a for-each walks.
pub fn walked_element(k: Option<Kindred>) -> Option<Single>
    ensures { result ≡ rules.walked_element k }
{
    match k {
        Some(Kindred::Only(k)) => element_of(Some(k)),
        _ => None,
    }
}

/// A set by its head, of the scalars that a list has. Of anything else its elements aren't known.
pub fn set_of(k: Option<Kindred>) -> Option<Kindred>
    ensures { result ≡ rules.set_of k }
{
    match k {
        Some(Kindred::Only(JavaType::Listed(Single::ScalarOf(ty)))) => {
            Some(Kindred::Only(JavaType::Distinct(Single::ScalarOf(ty))))
        }
        _ => Some(Kindred::AnySet),
    }
}

fn lists_scalars(k: Kindred) -> bool
    ensures { result ≡ rules.lists_scalars k }
{
    match k {
        Kindred::Only(JavaType::Listed(Single::ScalarOf(_))) => true,
        _ => false,
    }
}

pub fn unless_scalars(kept: &mut Option<TypeFault>, k: Option<JavaType>, at: Span)
    ensures { kept.new ≡ least kept.old (marked broken.Mismatch (rules.unless_passes (λ (j : JavaType). not (rules.is_none (rules.scalars_of (Some j)))) k at)) }
{
    if let Some(j) = k {
        note_if(kept, scalars_of(Some(j)).is_none(), TypeRule::Mismatch, at);
    }
}

pub fn unless_set(kept: &mut Option<TypeFault>, k: Option<Kindred>, at: Span)
    ensures { kept.new ≡ least kept.old (marked broken.Mismatch (rules.unless_passes rules.lists_scalars k at)) }
{
    if let Some(j) = k {
        note_if(kept, !lists_scalars(j), TypeRule::Mismatch, at);
    }
}

/// Notes a column that what is of the kindred does not have.
pub fn note_column(
    kept: &mut Option<TypeFault>,
    schema: &Schema,
    k: Option<Kindred>,
    name: &Name,
    at: Span,
)
    ensures { kept.new ≡ least kept.old (marked broken.Unknown (rules.unknown_column schema.now k name.now at)) }
{
    if let Some(j) = k {
        note_if(
            kept,
            column_in(schema, Some(j), name).is_none(),
            TypeRule::Unknown,
            at,
        );
    }
}

/// Notes each key that is no column of what a list has.
#[tactic(auto, using(crate::proofs::Kept::parts))]
pub fn note_keys(
    kept: &mut Option<TypeFault>,
    schema: &Schema,
    a: Option<Single>,
    keys: &[Name],
    at: Span,
)
    ensures { kept.new ≡ least kept.old (marked broken.Unknown (rules.unknown_keys schema.now a keys.now at)) }
{
    if let Some(a) = a {
        for key in keys {
            note_column(kept, schema, Some(Kindred::Only(JavaType::Of(a))), key, at);
        }
    }
}
