// What statements that hold no others do, and what those that do ask first.
ghost use Rattle.std.specs.Prelude.{◌≡◌, ◌++◌, [], ◌∷◌, IfOk, OnOk, option_map};
ghost use Rattle.qbs_base.specs.declared.scalar.Scalar.TheVariants.{Long};
ghost use Rattle.qbs_base.specs.declared.scalar.Value.TheVariants.{One};
ghost use Rattle.java_ast.specs.Reading.{expression, spelled};
ghost use Rattle.java_mean.specs.Expression.{value_of as meant_value};
ghost use Rattle.java_mean.specs.Statement as meant;
ghost use Rattle.java_mean.specs.Statement.{test_of};
ghost use Rattle.java_steps.specs.Gives.{Gives, GivesBy, Goes, GivesBack};
ghost use Rattle.java_steps.specs.Held.{rows_in, value_in};
ghost use Rattle.java_steps.specs.Running.{state, world};
ghost use Rattle.java_steps.specs.Words.{assigned, added_to, adds, assigns, declares, prints, rows_given, sorts};

use crate::asked::{bool_of, list_in, member_of};
use crate::eval::{eval, scalar};
use crate::held::{
    Held, List, Variable, held_to_look_in, list_of, list_of_members, own_members, own_rows,
};
use crate::machine::Machine;
use crate::quick::{long, truth};
use crate::sorting::sorted;
use crate::source::Source;
use crate::stop::Stop;
use crate::store::Store;
use java_ast::{Expr, JTy};
use java_mean::Ending;
use qbs_base::{Name, NoMemory, Row, Scalar, Text, copy_text};
use std::alloc::Global;

// What a line takes beside its bytes.
const LINE: u64 = 8;

/// The truth value of a condition.
#[inline(always)]
pub fn test<'a>(source: &Source<'a>, cond: &Expr, m: &Machine<'a>) -> Result<bool, Stop>
    ensures { Gives result (test_of (expression cond.now) (world source.now) m.now.store) }
{
    match truth(cond, source, &m.store) {
        Some(b) => Ok(b),
        None => any_test(source, cond, m),
    }
}

// The truth value of any condition.
#[inline(never)]
fn any_test<'a>(source: &Source<'a>, cond: &Expr, m: &Machine<'a>) -> Result<bool, Stop>
    ensures { Gives result (test_of (expression cond.now) (world source.now) m.now.store) }
{
    bool_of(&scalar(cond, source, &m.store)?)
}

/// The rows that an expression gives.
#[inline(never)]
pub fn rows_of<'a>(source: &Source<'a>, list: &Expr, m: &Machine<'a>) -> Result<List<'a>, Stop>
    ensures { GivesBy rows_in result (rows_given (expression list.now) (world source.now) m.now.store) }
{
    list_in(eval(list, source, &m.store)?)
}

fn is_set_type(ty: &JTy) -> bool
    ensures { result ≡ meant.is_set_type (spelled ty.now) }
{
    match ty {
        JTy::Set(_) => true,
        _ => false,
    }
}

// The value of an expression. A number takes no look at what else it could be.
fn value_of<'a>(e: &Expr, source: &Source<'a>, store: &Store<'a>) -> Result<Held<'a>, Stop>
    ensures { GivesBy value_in result (meant_value (expression e.now) (world source.now) store.now) }
{
    match long(e, source, store) {
        Some(n) => Ok(Held::One(Scalar::Long(n))),
        None => eval(e, source, store),
    }
}

// The value for the variable with this number: its list knows its members where they are looked for
// again and again.
fn to_look_in<'a>(source: &Source, number: usize, held: Held<'a>) -> Result<Held<'a>, NoMemory>
    ensures { IfOk result (λ h. value_in h ≡ value_in held.entry) }
{
    held_to_look_in(source.alloc, source.numbers.is_looked_in(number), held)
}

// The value of an expression for the variable with this number.
fn value_kept<'a>(
    e: &Expr,
    number: usize,
    source: &Source<'a>,
    store: &Store<'a>,
) -> Result<Held<'a>, Stop>
    ensures { GivesBy value_in result (meant_value (expression e.now) (world source.now) store.now) }
{
    let held = value_of(e, source, store)?;
    Ok(to_look_in(source, number, held)?)
}

/// Declares a variable with the value of an expression.
#[inline(never)]
pub fn declare<'a>(
    source: &Source<'a>,
    number: usize,
    ty: &JTy,
    name: &'a Name,
    value: &Expr,
    m: &mut Machine<'a>,
) -> Result<(), Stop>
    ensures { Goes result (state m.new) (declares (spelled ty.now) name.now (expression value.now) (world source.now) (state m.old)) }
{
    let held = value_kept(value, number, source, &m.store)?;
    let is_set = is_set_type(ty);
    m.store.replace(number, name, Variable { held, is_set })?;
    Ok(())
}

fn put_value<'a>(
    number: usize,
    name: &'a Name,
    held: Held<'a>,
    m: &mut Machine<'a>,
) -> Result<(), Stop>
    ensures { Goes result (state m.new) (assigned (state m.old) name.now (value_in held.entry)) }
{
    let is_set = match m.store.get(number, name) {
        Some(variable) => variable.is_set,
        None => return Err(Stop::Ends(Ending::Stuck)),
    };
    m.store.replace(number, name, Variable { held, is_set })?;
    Ok(())
}

// Puts a number in a variable.
#[tactic(auto, using(crate::proofs::Quickly::written_over, crate::proofs::Quickly::not_there))]
fn put_long<'a>(number: usize, name: &'a Name, n: i64, m: &mut Machine<'a>) -> Result<(), Stop>
    ensures { Goes result (state m.new) (assigned (state m.old) name.now (One (Long n))) }
{
    if m.store.set_long(number, name, n) {
        return Ok(());
    }
    Err(Stop::Ends(Ending::Stuck))
}

/// Puts the value of an expression in a variable. Most turns of a loop count, so that for a number
/// nothing else is made on the way.
#[inline(never)]
pub fn assign<'a>(
    source: &Source<'a>,
    number: usize,
    name: &'a Name,
    value: &Expr,
    m: &mut Machine<'a>,
) -> Result<(), Stop>
    ensures { Goes result (state m.new) (assigns name.now (expression value.now) (world source.now) (state m.old)) }
{
    match long(value, source, &m.store) {
        Some(n) => put_long(number, name, n, m),
        None => put_value(
            number,
            name,
            value_kept(value, number, source, &m.store)?,
            m,
        ),
    }
}

// A list that holds nothing, in place of one that is being changed.
fn nothing<'a>() -> Variable<'a> {
    Variable {
        held: Held::Many(List::Lent(&[])),
        is_set: false,
    }
}

// A list with one member more, which knows its members where it did so before.
fn with_last<'a>(alloc: Global, list: List, row: Row) -> Result<List<'a>, NoMemory>
    ensures { IfOk result (λ l. rows_in l ≡ rows_in list.entry ++ row ∷ []) }
{
    if let List::Indexed(_) = &list {
        let members = own_members(alloc, list)?;
        return list_of_members(alloc, members.with_last(alloc, row)?);
    }
    let mut rows = own_rows(alloc, list)?;
    rows.push(row)?;
    list_of(alloc, rows)
}

fn with_member<'a>(alloc: Global, is_set: bool, list: List, row: Row) -> Result<List<'a>, NoMemory>
    ensures { IfOk result (λ l. rows_in l ≡ meant.added is_set (rows_in list.entry) row) }
{
    if is_set {
        let members = own_members(alloc, list)?;
        return list_of_members(alloc, members.with_row(alloc, row)?);
    }
    with_last(alloc, list, row)
}

fn add_row<'a>(
    alloc: Global,
    number: usize,
    name: &'a Name,
    row: Row,
    m: &mut Machine<'a>,
) -> Result<(), Stop>
    ensures { Goes result (state m.new) (added_to (state m.old) name.now row) }
{
    let Some(old) = m.store.replace(number, name, nothing())? else {
        return Err(Stop::Ends(Ending::Stuck));
    };
    let is_set = old.is_set;
    let list = with_member(alloc, is_set, list_in(old.held)?, row)?;
    let held = Held::Many(list);
    m.store.replace(number, name, Variable { held, is_set })?;
    Ok(())
}

/// Adds the member that an expression gives to a list or a set.
#[inline(never)]
pub fn add<'a>(
    source: &Source<'a>,
    number: usize,
    name: &'a Name,
    value: &Expr,
    m: &mut Machine<'a>,
) -> Result<(), Stop>
    ensures { Goes result (state m.new) (adds name.now (expression value.now) (world source.now) (state m.old)) }
{
    let row = member_of(source.alloc, value_of(value, source, &m.store)?)?;
    add_row(source.alloc, number, name, row, m)
}

/// Sorts a list by keys, the first one first, each up or down.
#[inline(never)]
pub fn sort<'a>(
    source: &Source<'a>,
    number: usize,
    name: &'a Name,
    keys: &[Name],
    down: &[bool],
    m: &mut Machine<'a>,
) -> Result<(), Stop>
    ensures { Goes result (state m.new) (sorts source.now.queries.schema name.now keys.now down.now (state m.old)) }
{
    let Some(old) = m.store.replace(number, name, nothing())? else {
        return Err(Stop::Ends(Ending::Stuck));
    };
    let is_set = old.is_set;
    let taken = own_rows(source.alloc, list_in(old.held)?)?;
    let ordered = sorted(source.queries.schema(), keys, down, taken)?;
    let held = Held::Many(list_of(source.alloc, ordered)?);
    m.store.replace(number, name, Variable { held, is_set })?;
    Ok(())
}

// The text of a printed scalar.
fn printed(alloc: Global, x: &Scalar) -> Result<Text, NoMemory>
    ensures { IfOk result (λ t. t ≡ meant.printed x.now) }
{
    match x {
        Scalar::Long(n) => Ok(Text::from_string(n.to_string(alloc)?)),
        Scalar::Bool(true) => Ok(Text::from_str(alloc, "true")?),
        Scalar::Bool(false) => Ok(Text::from_str(alloc, "false")?),
        Scalar::Text(t) => copy_text(alloc, t),
    }
}

// What is left of the room for lines behind this one.
fn room_behind(room: u64, line: &Text) -> Result<u64, NoMemory> {
    let taken = (line.as_str().len() as u64).saturating_add(LINE);
    match room.checked_sub(taken) {
        Some(left) => Ok(left),
        None => Err(NoMemory),
    }
}

fn put_line(alloc: Global, x: &Scalar, m: &mut Machine) -> Result<(), NoMemory>
    ensures { OnOk result (state m.new ≡ meant.with_line (state m.old) (meant.printed x.now)) }
{
    let line = printed(alloc, x)?;
    m.room = room_behind(m.room, &line)?;
    m.lines.push(line)?;
    Ok(())
}

/// Prints the scalar that an expression gives.
#[inline(never)]
pub fn print<'a>(source: &Source<'a>, value: &Expr, m: &mut Machine<'a>) -> Result<(), Stop>
    ensures { Goes result (state m.new) (prints (expression value.now) (world source.now) (state m.old)) }
{
    let x = scalar(value, source, &m.store)?;
    put_line(source.alloc, &x, m)?;
    Ok(())
}

/// Holds what a method returns.
#[inline(never)]
pub fn give_back<'a>(
    source: &Source<'a>,
    value: &Option<Expr>,
    m: &mut Machine<'a>,
) -> Result<(), Stop>
    ensures { GivesBack result m.new (meant.returned (option_map expression value.now) (world source.now) (state m.old)) }
{
    m.returned = match value {
        None => None,
        Some(e) => Some(eval(e, source, &m.store)?),
    };
    Ok(())
}
