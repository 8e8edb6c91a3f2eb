// Comparisons of operands as conditions.
ghost use Rattle.std.specs.Prelude.{◌≡◌, IfOk};
ghost use Rattle.kernel_lang.specs.Validity.{is_field as is_a_field};
ghost use Rattle.sql_ast.specs.Reading.{condition};
ghost use Rattle.sql_ast.specs.Tree as plain;
ghost use Rattle.sql_parts.specs.Emitted as spec;
ghost use Rattle.sql_parts.specs.Reading.{ground_of, scope_of, IsSmall};

use crate::ground::{Ground, column, number_in};
use crate::within::next;
use qbs_base::{NoMemory, Scalar};
use sql_ast::{Cmp, Cond, SqlOpnd};
use sql_build::conditions::opposite;
use sql_build::scope::Scope;
use std::alloc::Global;
use tor_terms::{Operand, Way};

/// An operand of an atom, as an operand of a condition.
pub fn side(alloc: Global, g: Ground, s: Scope, a: &Operand) -> Result<SqlOpnd, NoMemory>
    requires { IsSmall s }
    ensures { IfOk result (λ opnd. opnd ≡ spec.side (ground_of g.entry) (scope_of s.entry) a.now) }
{
    match a {
        Operand::Field(j, c) => Ok(SqlOpnd::Column(column(alloc, g, number_in(s, *j), *j, *c)?)),
        Operand::Entry(k) => Ok(SqlOpnd::Param(next(*k)?)),
        Operand::Lit(x) => Ok(SqlOpnd::Lit(x.clone()?)),
    }
}

/// A condition that is true, or false, everywhere.
pub fn fixed(alloc: Global, b: bool) -> Result<Box<Cond>, NoMemory>
    ensures { IfOk result (λ c. condition c.value ≡ spec.fixed b) }
{
    let yes = SqlOpnd::Lit(Scalar::Bool(true));
    let b = SqlOpnd::Lit(Scalar::Bool(b));
    Ok(Box::new(alloc, Cond::Compare(Cmp::Eq, yes, b))?)
}

fn is_field(a: &Operand) -> bool
    ensures { result ≡ is_a_field a.now }
{
    matches!(a, Operand::Field(_, _))
}

fn less_test(holds: bool) -> Cmp
    ensures { result ≡ spec.less_test holds }
{
    if holds { Cmp::Lt } else { Cmp::Ge }
}

fn greater_test(holds: bool) -> Cmp
    ensures { result ≡ spec.greater_test holds }
{
    if holds { Cmp::Gt } else { Cmp::Le }
}

/// The comparison that says that operands are the same, or that they aren't.
pub fn same_test(holds: bool) -> Cmp
    ensures { result ≡ spec.same_test holds }
{
    if holds { Cmp::Eq } else { Cmp::Ne }
}

/// A comparison of two operands.
pub fn compared(
    alloc: Global,
    g: Ground,
    s: Scope,
    cmp: Cmp,
    a: &Operand,
    b: &Operand,
) -> Result<Box<Cond>, NoMemory>
    requires { IsSmall s }
    ensures { IfOk result (λ c.
        condition c.value
        ≡ plain.Compare cmp (spec.side (ground_of g.entry) (scope_of s.entry) a.now) (spec.side (ground_of g.entry) (scope_of s.entry) b.now)) }
{
    let a = side(alloc, g, s, a)?;
    let b = side(alloc, g, s, b)?;
    Ok(Box::new(alloc, Cond::Compare(cmp, a, b))?)
}

/// A field stands on the left.
pub fn less(
    alloc: Global,
    g: Ground,
    s: Scope,
    a: &Operand,
    b: &Operand,
    holds: bool,
) -> Result<Box<Cond>, NoMemory>
    requires { IsSmall s }
    ensures { IfOk result (λ c. condition c.value ≡ spec.less_condition (ground_of g.entry) (scope_of s.entry) a.now b.now holds) }
{
    if is_field(a) || !is_field(b) {
        compared(alloc, g, s, less_test(holds), a, b)
    } else {
        compared(alloc, g, s, greater_test(holds), b, a)
    }
}

/// An operand is true, or false.
pub fn truth(
    alloc: Global,
    g: Ground,
    s: Scope,
    a: &Operand,
    holds: bool,
) -> Result<Box<Cond>, NoMemory>
    requires { IsSmall s }
    ensures { IfOk result (λ c. condition c.value ≡ plain.Compare Cmp.Eq (spec.side (ground_of g.entry) (scope_of s.entry) a.now) (SqlOpnd.Lit (Scalar.Bool holds))) }
{
    let a = side(alloc, g, s, a)?;
    let b = SqlOpnd::Lit(Scalar::Bool(holds));
    Ok(Box::new(alloc, Cond::Compare(Cmp::Eq, a, b))?)
}

/// The condition, or its opposite.
pub fn signed(alloc: Global, holds: bool, c: Box<Cond>) -> Result<Box<Cond>, NoMemory>
    ensures { IfOk result (λ d. condition d.value ≡ spec.signed holds (condition c.value)) }
{
    if holds { Ok(c) } else { opposite(alloc, c) }
}

/// The comparison that says that a value is better.
pub fn way_test(way: Way) -> Cmp
    ensures { result ≡ spec.way_test way }
{
    match way {
        Way::Max => Cmp::Gt,
        Way::Min => Cmp::Lt,
    }
}
