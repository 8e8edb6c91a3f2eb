// The lowered fragment of a loop.
ghost use Rattle.std.specs.Prelude.{◌≡◌, IfOk, length, map, slice_get};
ghost use Rattle.java_ast.specs.Reading.{expression};
ghost use Rattle.qbs_base.specs.Columns.{columns_at as columns_in};
ghost use Rattle.kernel_lang.specs.Parts.{parts_of};
ghost use Rattle.kernel_lang.specs.Plain.{accumulator};
ghost use Rattle.lowering.specs.InCode.Counted.{numbers_in_code, HasFewLoops, AreNumbersOf};
ghost use Rattle.loop_text.specs.Statements.Fragment.{needed_of};
ghost use Rattle.java_loops.specs.Lowering.Lowered as specs;
ghost use Rattle.loop_text.specs.Sites.Reading.{exprs_lent};
ghost use Rattle.java_ast.specs.Names.{names_lent};
ghost use Rattle.lowering.specs.InCode.Reading.{setting_in_code};

use crate::lowering::accumulated::accumulators_of;
use crate::lowering::context::Context;
use crate::lowering::guards::conditions_of;
use crate::lowering::source_lists::{column_at, lists_of};
use crate::numbering::counts::counts_of;
use crate::numbering::numbers::Numbers;
use java_ast::{Expr, ExprNode};
use java_mean::{JavaType, Single};
use kernel_lang::{Accs, Parts};
use loop_setting::places::setting::Setting;
use qbs_base::{Column, Name, NoMemory, Ty, Tys};
use schema::Schema;
use std::alloc::Global;
use tor_terms::copy_atoms;

// ---- The types of entry values

// The columns of the table with this number.
fn columns_at(schema: &Schema, table: u32) -> &[Column]
    ensures { result.now ≡ columns_in schema.now table }
{
    match schema.tables().get(table as usize) {
        Some(table) => table.columns.as_slice(),
        None => &[],
    }
}

fn type_at(columns: &[Column], n: u32) -> Ty
    ensures { result ≡ specs.type_of_column (slice_get columns.now n) }
{
    match columns.get(n as usize) {
        Some(column) => column.ty,
        None => Ty::Long,
    }
}

fn column_type(schema: &Schema, k: Option<JavaType>, name: &Name) -> Ty
    ensures { result ≡ specs.column_type schema.now k name.now }
{
    match k {
        Some(JavaType::Of(Single::RowOf(table))) => {
            type_at(columns_at(schema, table), column_at(schema, table, name))
        }
        _ => Ty::Long,
    }
}

fn type_of_scalar(k: Option<JavaType>) -> Ty
    ensures { result ≡ specs.type_of_scalar k }
{
    match k {
        Some(JavaType::Of(Single::ScalarOf(ty))) => ty,
        _ => Ty::Long,
    }
}

fn type_of_entry(w: &Setting, e: &Expr) -> Ty
    ensures { result ≡ specs.type_of_entry (setting_in_code w.now).schema (setting_in_code w.now).types (expression e.now) }
{
    match &e.node {
        ExprNode::Var(x) => type_of_scalar(w.fragment.types.type_of(x)),
        ExprNode::Field(row, name) => match &row.node {
            ExprNode::Var(x) => column_type(w.schema, w.fragment.types.type_of(x), name),
            _ => Ty::Long,
        },
        _ => Ty::Long,
    }
}

fn types_of_entries(alloc: Global, w: &Setting, entries: &[&Expr]) -> Result<Tys, NoMemory>
    ensures { IfOk result (λ tys. tys ≡ map (specs.type_of_entry (setting_in_code w.now).schema (setting_in_code w.now).types) (exprs_lent entries.now)) }
{
    let mut tys = Tys::new(alloc);
    for e in entries {
        tys.push(type_of_entry(w, e))?;
    }
    Ok(tys)
}

// ---- The fragment

// The accumulators of these names, and all flags.
fn accumulators_with(
    alloc: Global,
    w: &Setting,
    t: &Numbers,
    needed: usize,
    names: &[&Name],
) -> Result<Accs, NoMemory>
    requires few { HasFewLoops (setting_in_code w.now) }
    requires needed { needed ≡ length (needed_of (setting_in_code w.now).fragment) }
    requires numbers { AreNumbersOf (setting_in_code w.now) (numbers_in_code t.now) }
    ensures { IfOk result (λ accs.
        map accumulator accs
        ≡ specs.accumulators_of (setting_in_code w.now) (numbers_in_code t.now) (specs.conditions_of (setting_in_code w.now) (numbers_in_code t.now)) (names_lent names.now)) }
{
    let counts = counts_of(alloc, w, needed)?;
    let context = Context {
        setting: w,
        numbers: t,
        counts: &counts,
    };
    let conditions = conditions_of(alloc, &context)?;
    accumulators_of(alloc, &context, conditions.as_slice(), names)
}

/// The parts of the fragment with the accumulators of these names, and all flags.
pub fn fragment_with(
    alloc: Global,
    w: &Setting,
    t: &Numbers,
    needed: usize,
    names: &[&Name],
) -> Result<Parts, NoMemory>
    requires few { HasFewLoops (setting_in_code w.now) }
    requires needed { needed ≡ length (needed_of (setting_in_code w.now).fragment) }
    requires numbers { AreNumbersOf (setting_in_code w.now) (numbers_in_code t.now) }
    ensures { IfOk result (λ parts. parts_of parts ≡ specs.fragment_with (setting_in_code w.now) (numbers_in_code t.now) (names_lent names.now)) }
{
    let accs = accumulators_with(alloc, w, t, needed, names)?;
    let lists = lists_of(alloc, w)?;
    let atoms = copy_atoms(alloc, t.atoms.as_slice())?;
    let entries = types_of_entries(alloc, w, t.entries.as_slice())?;
    Ok(Parts {
        lists,
        atoms,
        accs,
        entries,
        known: t.known.len() as u32,
    })
}
