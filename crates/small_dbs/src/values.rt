// The values of each type, in ascending order and each once.
ghost use Rattle.std.specs.Prelude.{◌≡◌, ◌++◌, ◌∷◌, ◌-ℤ◌, ◌+ℤ◌, pos, true, false, [], IfOk, OnOk};
ghost use Rattle.qbs_base.specs.declared.scalar.Scalar.TheVariants as scalars;
ghost use Rattle.qbs_base.specs.declared.scalar.Ty.TheVariants as tys;
ghost use Rattle.kernel_lang.specs.Whole.{fragment_of};
ghost use Rattle.kernel_steps.specs.Put.{put};
ghost use Rattle.small_dbs.specs.Held.{held, long_or_none};
ghost use Rattle.small_dbs.specs.Literals as spec;

use crate::choice::Values;
use crate::literals::{put_atoms, put_starts};
use kernel_lang::KFragment;
use kernel_steps::push_with;
use qbs_base::{Items, NoMemory, Scalar, Scalars, Text, Ty};
use std::alloc::Global;

// Puts one more value at its place, where it isn't there.
fn put(alloc: Global, x: &Scalar, values: &mut Scalars) -> Result<(), NoMemory>
    ensures { OnOk result (values.new ≡ put x.now values.old) }
{
    let mut all = Items::new(alloc);
    push_with(alloc, x, values.as_slice(), &mut all)?;
    *values = all;
    Ok(())
}

fn put_long(alloc: Global, n: Option<i64>, values: &mut Scalars) -> Result<(), NoMemory>
    ensures { OnOk result (values.new ≡ spec.put_all (long_or_none n) values.old) }
{
    match n {
        Some(n) => put(alloc, &Scalar::Long(n), values),
        None => Ok(()),
    }
}

fn before(n: i64) -> Option<i64>
    ensures { long_or_none result ≡ spec.long_within (n -ℤ pos 1) }
{
    n.checked_sub(1)
}

fn behind(n: i64) -> Option<i64>
    ensures { long_or_none result ≡ spec.long_within (n +ℤ pos 1) }
{
    n.checked_add(1)
}

fn itself(n: i64) -> Option<i64>
    ensures { long_or_none result ≡ spec.long_within n }
{
    Some(n)
}

// Puts what is near a number.
fn put_near(alloc: Global, x: &Scalar, values: &mut Scalars) -> Result<(), NoMemory>
    ensures { OnOk result (values.new ≡ spec.put_all (spec.near x.now) values.old) }
{
    match x {
        Scalar::Long(n) => {
            put_long(alloc, before(*n), &mut *values)?;
            put_long(alloc, itself(*n), &mut *values)?;
            put_long(alloc, behind(*n), values)
        }
        _ => Ok(()),
    }
}

fn put_text(alloc: Global, x: &Scalar, values: &mut Scalars) -> Result<(), NoMemory>
    ensures { OnOk result (values.new ≡ spec.put_all (spec.texts_of x.now) values.old) }
{
    match x {
        Scalar::Text(_) => put(alloc, x, values),
        _ => Ok(()),
    }
}

/// Puts the values of a type that a literal gives.
pub fn put_literal(alloc: Global, ty: Ty, x: &Scalar, values: &mut Scalars) -> Result<(), NoMemory>
    ensures { OnOk result (values.new ≡ spec.put_all (spec.given_by ty x.now) values.old) }
{
    match ty {
        Ty::Long => put_near(alloc, x, values),
        Ty::Bool => Ok(()),
        Ty::Text => put_text(alloc, x, values),
    }
}

// Puts numbers.
fn put_longs(alloc: Global, frag: &KFragment, values: &mut Scalars) -> Result<(), NoMemory>
    ensures { OnOk result (values.new ≡ spec.put_all (spec.candidates (fragment_of frag.now) tys.Long) values.old) }
{
    put_long(alloc, Some(0), &mut *values)?;
    put_long(alloc, Some(1), &mut *values)?;
    put_atoms(alloc, Ty::Long, frag.atoms.as_slice(), &mut *values)?;
    put_starts(alloc, Ty::Long, frag.accs.as_slice(), values)
}

// Pushes both truth values.
fn push_bools(all: &mut Scalars) -> Result<(), NoMemory>
    ensures { OnOk result (all.new ≡ all.old ++ scalars.Bool false ∷ scalars.Bool true ∷ []) }
{
    all.push(Scalar::Bool(false))?;
    all.push(Scalar::Bool(true))
}

fn put_word(alloc: Global, word: &str, values: &mut Scalars) -> Result<(), NoMemory>
    ensures { OnOk result (values.new ≡ put (scalars.Text word.now) values.old) }
{
    put(alloc, &Scalar::Text(Text::from_str(alloc, word)?), values)
}

// Puts texts.
fn put_texts(alloc: Global, frag: &KFragment, values: &mut Scalars) -> Result<(), NoMemory>
    ensures { OnOk result (values.new ≡ spec.put_all (spec.candidates (fragment_of frag.now) tys.Text) values.old) }
{
    put_word(alloc, "", &mut *values)?;
    put_word(alloc, "a", &mut *values)?;
    put_atoms(alloc, Ty::Text, frag.atoms.as_slice(), values)
}

/// The values of each type.
pub fn values_of(alloc: Global, frag: &KFragment) -> Result<Values, NoMemory>
    ensures { IfOk result (λ v. held v ≡ spec.values (fragment_of frag.now)) }
{
    let mut values = Values {
        longs: Items::new(alloc),
        bools: Items::new(alloc),
        texts: Items::new(alloc),
    };
    put_longs(alloc, frag, &mut values.longs)?;
    push_bools(&mut values.bools)?;
    put_texts(alloc, frag, &mut values.texts)?;
    Ok(values)
}
