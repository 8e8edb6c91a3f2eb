// Operators.
ghost use Rattle.std.specs.Prelude.{◌≡◌, ◌+ℤ◌, ◌-ℤ◌, ◌*ℤ◌, pos};
ghost use Rattle.std.specs.Option.{option_map};
ghost use Rattle.qbs_base.specs.Scalar.{scalar_same};
ghost use Rattle.qbs_base.specs.declared.scalar.Value.TheVariants as values;
ghost use Rattle.java_mean.specs.Expression as meant;
ghost use Rattle.java_mean.specs.Expression.{truth, number, same_of, same_text, of_bools, of_longs};
ghost use Rattle.java_steps.specs.Gives.{Gives, GivesBy};

use crate::stop::Stop;
use java_ast::Op;
use java_mean::{Ending, RunFault};
use qbs_base::{Scalar, Span, scalar_cmp};

/// Whether two scalars are one.
pub fn same(x: &Scalar, y: &Scalar) -> bool
    ensures { result ≡ scalar_same x.now y.now }
{
    match (x, y) {
        (Scalar::Long(_), Scalar::Long(_)) => scalar_cmp(x, y).is_eq(),
        (Scalar::Bool(_), Scalar::Bool(_)) => scalar_cmp(x, y).is_eq(),
        (Scalar::Text(_), Scalar::Text(_)) => scalar_cmp(x, y).is_eq(),
        _ => false,
    }
}

/// What `||` and `&&` are where their first operand settles it.
pub fn settled(op: Op, x: &Scalar) -> Option<bool>
    ensures { option_map truth result ≡ meant.settled op x.now }
{
    match (op, x) {
        (Op::Or, Scalar::Bool(true)) => Some(true),
        (Op::And, Scalar::Bool(false)) => Some(false),
        _ => None,
    }
}

fn same_values(x: &Scalar, y: &Scalar) -> Result<bool, Stop>
    ensures { Gives result (same_of x.now y.now) }
{
    match (x, y) {
        (Scalar::Long(_), Scalar::Long(_)) => Ok(same(x, y)),
        (Scalar::Bool(_), Scalar::Bool(_)) => Ok(same(x, y)),
        _ => Err(Stop::Ends(Ending::Stuck)),
    }
}

/// Whether two texts are one.
pub fn same_texts(x: &Scalar, y: &Scalar) -> Result<bool, Stop>
    ensures { Gives result (same_text x.now y.now) }
{
    match (x, y) {
        (Scalar::Text(_), Scalar::Text(_)) => Ok(same(x, y)),
        _ => Err(Stop::Ends(Ending::Stuck)),
    }
}

fn less(x: i64, y: i64) -> bool
    ensures { result ≡ meant.less x y }
{
    x < y
}

fn sum(at: Span, x: i64, y: i64) -> Result<Scalar, Stop>
    ensures { GivesBy values.One result (number at (x +ℤ y)) }
{
    match x.checked_add(y) {
        Some(n) => Ok(Scalar::Long(n)),
        None => Err(Stop::Ends(Ending::Faulted(RunFault::Overflow, at))),
    }
}

fn difference(at: Span, x: i64, y: i64) -> Result<Scalar, Stop>
    ensures { GivesBy values.One result (number at (x -ℤ y)) }
{
    match x.checked_sub(y) {
        Some(n) => Ok(Scalar::Long(n)),
        None => Err(Stop::Ends(Ending::Faulted(RunFault::Overflow, at))),
    }
}

fn product(at: Span, x: i64, y: i64) -> Result<Scalar, Stop>
    ensures { GivesBy values.One result (number at (x *ℤ y)) }
{
    match x.checked_mul(y) {
        Some(n) => Ok(Scalar::Long(n)),
        None => Err(Stop::Ends(Ending::Faulted(RunFault::Overflow, at))),
    }
}

/// The size of a list as a number.
pub fn size_number(at: Span, size: usize) -> Result<Scalar, Stop>
    ensures { GivesBy values.One result (number at (pos size)) }
{
    if size > i64::MAX as usize {
        return Err(Stop::Ends(Ending::Faulted(RunFault::Overflow, at)));
    }
    Ok(Scalar::Long(size as i64))
}

fn bools(op: Op, x: bool, y: bool) -> Result<Scalar, Stop>
    ensures { GivesBy values.One result (of_bools op x y) }
{
    match op {
        Op::Or => Ok(Scalar::Bool(x || y)),
        Op::And => Ok(Scalar::Bool(x && y)),
        _ => Err(Stop::Ends(Ending::Stuck)),
    }
}

fn longs(op: Op, at: Span, x: i64, y: i64) -> Result<Scalar, Stop>
    ensures { GivesBy values.One result (of_longs op at x y) }
{
    match op {
        Op::Lt => Ok(Scalar::Bool(less(x, y))),
        Op::Le => Ok(Scalar::Bool(!less(y, x))),
        Op::Gt => Ok(Scalar::Bool(less(y, x))),
        Op::Ge => Ok(Scalar::Bool(!less(x, y))),
        Op::Add => sum(at, x, y),
        Op::Sub => difference(at, x, y),
        Op::Mul => product(at, x, y),
        _ => Err(Stop::Ends(Ending::Stuck)),
    }
}

/// The operator's value at two operands, where its first did not settle it.
pub fn applied(op: Op, at: Span, x: &Scalar, y: &Scalar) -> Result<Scalar, Stop>
    ensures { GivesBy values.One result (meant.applied op at x.now y.now) }
{
    match op {
        Op::Eq => Ok(Scalar::Bool(same_values(x, y)?)),
        Op::Ne => Ok(Scalar::Bool(!same_values(x, y)?)),
        _ => match (x, y) {
            (Scalar::Bool(x), Scalar::Bool(y)) => bools(op, *x, *y),
            (Scalar::Long(x), Scalar::Long(y)) => longs(op, at, *x, *y),
            _ => Err(Stop::Ends(Ending::Stuck)),
        },
    }
}
