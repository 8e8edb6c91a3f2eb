// The parameters of a query, and their types.
ghost use Rattle.std.specs.Prelude.{◌≡◌, ◌+◌, suc, max, length, IfOk, OnOk};
ghost use Rattle.sql_ast.specs.Reading.{condition as plain_condition, filter_of as plain_filter};
ghost use Rattle.sql_ast.specs.Typing.{opnd_param as opnd_param_of, last_param as last_param_of, filter_param as filter_param_of, filter_fits, filter_tys, ty_of_param, tys_up_to};
ghost use Rattle.sql_parse.specs.Seen.{Gives};
ghost use Rattle.sql_parse.specs.Types.{froms_of, param_at, tys_below, seen_all, only_ty as only_ty_of};

use crate::fault::Stop;
use crate::typing::{Seen, enter, fits, param_ty_at, seen_in};
use qbs_base::{NoMemory, Table, Ty, Tys};
use sql_ast::{Cond, FromItem, FromItems, SqlOpnd};
use std::alloc::Global;

// ---- which parameters there are

fn larger(a: u32, b: u32) -> u32
    ensures { result ≡ max a b }
{
    if a < b { b } else { a }
}

fn opnd_param(opnd: &SqlOpnd) -> u32
    ensures { result ≡ opnd_param_of opnd.now }
{
    match opnd {
        SqlOpnd::Param(number) => *number,
        _ => 0,
    }
}

/// The greatest number of a parameter, 0 where there is none. Chains of AND, OR and NOT are walked
/// without recursion.
fn last_param(cond: &Cond) -> u32
    ensures { result ≡ last_param_of (plain_condition cond.now) }
{
    let mut last = 0;
    let mut rest = cond;
    loop {
        match rest {
            Cond::Both(a, b) | Cond::Either(a, b) => {
                last = larger(last, last_param(b));
                rest = a;
            }
            Cond::Not(a) => rest = a,
            Cond::Compare(_, a, b) => {
                return larger(last, larger(opnd_param(a), opnd_param(b)));
            }
            Cond::Bare(_) => return last,
            Cond::Exists { from: _, filter } => match filter {
                None => return last,
                Some(a) => rest = a,
            },
            Cond::Within {
                opnd,
                negated: _,
                col: _,
                from: _,
                filter,
            } => {
                last = larger(last, opnd_param(opnd));
                match filter {
                    None => return last,
                    Some(a) => rest = a,
                }
            }
        }
    }
}

fn filter_param(filter: &Option<Cond>) -> u32
    ensures { result ≡ filter_param_of (plain_filter filter.now) }
{
    match filter {
        None => 0,
        Some(cond) => last_param(cond),
    }
}

// ---- their types

fn only_ty(seen: Seen) -> Option<Ty>
    ensures { result ≡ only_ty_of seen }
{
    match seen {
        Seen::One(ty) => Some(ty),
        _ => None,
    }
}

/// The FROM items of a SELECT that has none around it.
pub fn outermost<'a>(alloc: Global, from: &'a FromItems) -> Result<Vec<&'a FromItem>, NoMemory>
    ensures { IfOk result (λ v. froms_of v.items ≡ from.now) }
{
    let mut froms = Vec::new(alloc);
    enter(&mut froms, from.as_slice())?;
    Ok(froms)
}

/// What is seen beside a parameter in a WHERE.
fn seen_in_filter<'a>(
    schema: &[Table],
    froms: &mut Vec<&'a FromItem>,
    filter: &'a Option<Cond>,
    number: u32,
) -> Result<Seen, NoMemory>
    ensures value { IfOk result (λ s. s ≡ seen_all Seen.Nothing (filter_tys schema.now (froms_of froms.old.items) number (plain_filter filter.now))) }
    ensures same { OnOk result (froms.new.items ≡ froms.old.items) }
{
    match filter {
        None => Ok(Seen::Nothing),
        Some(cond) => seen_in(schema, froms, number, cond, Seen::Nothing),
    }
}

/// The type of a parameter, where the columns that it is compared with have one.
#[tactic(auto, using(crate::proofs::Parameters::only_of_seen))]
fn param_ty<'a>(
    schema: &[Table],
    froms: &mut Vec<&'a FromItem>,
    filter: &'a Option<Cond>,
    number: u32,
) -> Result<Option<Ty>, NoMemory>
    ensures value { IfOk result (λ ty. ty ≡ ty_of_param schema.now (froms_of froms.old.items) (plain_filter filter.now) number) }
    ensures same { OnOk result (froms.new.items ≡ froms.old.items) }
{
    let seen = seen_in_filter(schema, froms, filter, number)?;
    Ok(only_ty(seen))
}

/// The types of the parameters from 0 to the last one.
fn tys_to<'a>(
    alloc: Global,
    schema: &[Table],
    froms: &mut Vec<&'a FromItem>,
    filter: &'a Option<Cond>,
    last: u32,
) -> Result<Vec<Option<Ty>>, NoMemory>
    ensures value { IfOk result (λ v. v.items ≡ tys_below (ty_of_param schema.now (froms_of froms.old.items) (plain_filter filter.now)) (suc last)) }
{
    let mut tys = Vec::new(alloc);
    for number in 0..last {
        tys.push(param_ty(schema, froms, filter, number)?)?;
    }
    tys.push(param_ty(schema, froms, filter, last)?)?;
    Ok(tys)
}

/// The types of all parameters of a WHERE, from 0 on, where there is no parameter 0.
pub fn param_tys(
    alloc: Global,
    schema: &[Table],
    from: &FromItems,
    filter: &Option<Cond>,
) -> Result<Vec<Option<Ty>>, NoMemory>
    ensures value { IfOk result (λ v. param_at v.items ≡ ty_of_param schema.now from.now (plain_filter filter.now)) }
    ensures len { IfOk result (λ v. length v.items ≡ suc (filter_param_of (plain_filter filter.now))) }
{
    let last = filter_param(filter);
    let mut froms = outermost(alloc, from)?;
    let tys = tys_to(alloc, schema, &mut froms, filter, last)?;
    Ok(tys)
}

/// The types of the parameters from 1 on, where each has one.
pub fn known_tys(alloc: Global, params: &[Option<Ty>], last: usize) -> Result<Tys, Stop>
    ensures { Gives (λ tys. tys) result (tys_up_to (param_at params.now) last) }
{
    let mut tys = Tys::new(alloc);
    for number in 0..last {
        let Some(ty) = param_ty_at(params, number + 1) else {
            return Err(Stop::Broken);
        };
        tys.push(ty)?;
    }
    Ok(tys)
}

/// Whether the types of a WHERE fit.
pub fn filter_fits_all(
    alloc: Global,
    schema: &[Table],
    params: &[Option<Ty>],
    from: &FromItems,
    filter: &Option<Cond>,
) -> Result<bool, NoMemory>
    ensures { IfOk result (λ b. b ≡ filter_fits (param_at params.now) schema.now from.now (plain_filter filter.now)) }
{
    match filter {
        None => Ok(true),
        Some(cond) => {
            let mut froms = outermost(alloc, from)?;
            fits(params, schema, &mut froms, cond)
        }
    }
}
