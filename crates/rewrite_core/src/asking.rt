// The statements that ask for the needed accumulators of a loop.
ghost use Rattle.std.specs.Prelude.{◌≡◌, true, IfOk, IfSome, Ok, OnOk, Some, map, option_copied, slice_get};
ghost use Rattle.std.specs.Option.{option_map};
ghost use Rattle.java_ast.specs.Path.{and_then};
ghost use Rattle.java_ast.specs.Reading.{spelled, expression, statement, statements};
ghost use Rattle.java_loops.specs.Walks.Replacing as replacing;
ghost use Rattle.kernel_lang.specs.Plain.{accumulator};
ghost use Rattle.kernel_lang.specs.Typed.{is_typed};
ghost use Rattle.kernel_lang.specs.Whole.{fragment_of};
ghost use Rattle.loop_text.specs.Statements.Setting as setting;
ghost use Rattle.sql_ast.specs.Canonical.{canonical};
ghost use Rattle.sql_ast.specs.Reading.{query as plain_query};
ghost use Rattle.sql_ast.specs.Valid.{IsQueryOf};
ghost use Rattle.sql_parts.specs.Given.{AreKnownTo, IsOutermost};
ghost use Rattle.sql_emit.specs.Reading.{emission_of};
ghost use Rattle.rewrite_core.specs.Asked.{type_started};
ghost use Rattle.rewrite_core.specs.LoopWithCandidate as specs;
ghost use Rattle.rewrite_core.specs.LoopWithCandidate.{looped_in_code};

use crate::looped::LoopWithCandidate;
use crate::spelling::{copy_spelled, spelled_at};
use crate::values::{arguments_of, element_asked, value_with};
use java_ast::{Expr, JTy, Stmt, StmtNode};
use kernel_lang::{Acc, KFragment, Update};
use loop_text::statements::runs::first_touching;
use qbs_base::{Name, NoMemory, Span, Text, held};
use sql_ast::Query;
use sql_emit::{Emitted, emit};
use sql_text::print_query;
use std::alloc::Global;

// ---- One statement

// A statement that gives a variable a value: a declaration where there is a type.
fn asking(at: Span, ty: Option<JTy>, name: Name, value: Expr) -> Stmt
    ensures { statement result ≡ replacing.asking (option_map spelled ty) at name (expression value) }
{
    match ty {
        Some(ty) => {
            let node = StmtNode::Declare { ty, name, value };
            Stmt { span: at, node }
        }
        None => {
            let node = StmtNode::Assign { name, value };
            Stmt { span: at, node }
        }
    }
}

// The type with which a statement declares a variable, where it does.
fn type_of_start(s: Option<&Stmt>) -> Option<&JTy>
    ensures { option_map spelled (option_copied result) ≡ type_started (option_map statement (option_copied s.entry)) }
{
    match s {
        None => None,
        Some(s) => match &s.node {
            StmtNode::Declare {
                ty,
                name: _,
                value: _,
            } => Some(ty),
            StmtNode::Assign { .. }
            | StmtNode::Add { .. }
            | StmtNode::Sort { .. }
            | StmtNode::If { .. }
            | StmtNode::ForEach { .. }
            | StmtNode::While { .. }
            | StmtNode::Print { .. }
            | StmtNode::Return { .. }
            | StmtNode::Break => None,
        },
    }
}

fn copy_start(alloc: Global, ty: Option<&JTy>) -> Result<Option<JTy>, NoMemory>
    ensures { IfOk result (λ c. option_map spelled c ≡ option_map spelled (option_copied ty.entry)) }
{
    match ty {
        None => Ok(None),
        Some(ty) => Ok(Some(copy_spelled(alloc, ty)?)),
    }
}

// The type with which the statement that starts a variable declares it, where it does.
fn start_type(alloc: Global, l: LoopWithCandidate, x: &Name) -> Result<Option<JTy>, NoMemory>
    ensures { IfOk result (λ ty. option_map spelled ty ≡ type_started (setting.first_touching x.now (looped_in_code l.entry).run)) }
{
    copy_start(alloc, type_of_start(first_touching(x, l.run)))
}

// The type of the elements that are asked for a variable.
fn element_for(
    alloc: Global,
    l: LoopWithCandidate,
    x: &Name,
    update: Update,
) -> Result<JTy, NoMemory>
    ensures { IfOk result (λ element. spelled element ≡ specs.element_for (looped_in_code l.entry) x.now update) }
{
    let ty = spelled_at(x, l.path, l.program);
    element_asked(alloc, l.schema.tables(), &l.lowered.frag, update, ty)
}

fn text_of(alloc: Global, q: &Query) -> Result<Text, NoMemory>
    ensures { IfOk result (λ text. text ≡ canonical (plain_query q.now)) }
{
    print_query(alloc, q)
}

// The query for a variable, by its update and what is emitted for it.
fn value_for(
    alloc: Global,
    l: LoopWithCandidate,
    x: &Name,
    update: Update,
    e: &Emitted,
) -> Result<Box<Expr>, NoMemory>
    ensures { IfOk result (λ value. expression value.value ≡ specs.value_for (looped_in_code l.entry) x.now update (emission_of e.now)) }
{
    let element = element_for(alloc, l, x, update)?;
    let text = text_of(alloc, &e.query)?;
    let arguments = arguments_of(
        alloc,
        l.at,
        l.lowered.entries.as_slice(),
        e.entries.as_slice(),
    )?;
    held(
        alloc,
        value_with(alloc, l.at, update, element, text, arguments),
    )
}

// The statement that asks for a variable, by its update and what is emitted for it.
fn statement_for(
    alloc: Global,
    l: LoopWithCandidate,
    x: &Name,
    update: Update,
    e: &Emitted,
) -> Result<Stmt, NoMemory>
    ensures { IfOk result (λ s. statement s ≡ specs.statement_for (looped_in_code l.entry) x.now update (emission_of e.now)) }
{
    let value = value_for(alloc, l, x, update, e)?;
    let ty = start_type(alloc, l, x)?;
    let name = x.clone()?;
    Ok(asking(l.at, ty, name, Box::into_inner(value)))
}

// ---- All of them

// The accumulator of this number, where it stands outside all loops.
fn outermost(frag: &KFragment, k: u32) -> Option<&Acc>
    ensures found { option_map accumulator (option_copied result) ≡ specs.outermost (slice_get (fragment_of frag.now).accs k) }
    ensures outer { IfSome result (λ a. IsOutermost (fragment_of frag.now) k) }
{
    let acc = frag.accs.as_slice().get(k as usize)?;
    if acc.base == 0 { Some(acc) } else { None }
}

// The query that is emitted for the accumulator of this number.
fn emitted(alloc: Global, l: LoopWithCandidate, k: u32) -> Result<Box<Emitted>, NoMemory>
    requires outer { IsOutermost (fragment_of l.lowered.now.frag) k }
    requires typed { is_typed l.schema.now (fragment_of l.lowered.now.frag) ≡ true }
    requires known { AreKnownTo l.schema.now (fragment_of l.lowered.now.frag) (map plain_query l.lowered.now.known) l.lowered.now.known_args }
    ensures exact { IfOk result (λ e. Some (emission_of e.value) ≡ specs.emitted_in (looped_in_code l.entry) k) }
    ensures grammar { IfOk result (λ e. IsQueryOf l.entry.schema.now (plain_query e.value.query)) }
{
    held(
        alloc,
        emit(
            alloc,
            l.schema,
            &l.lowered.frag,
            l.candidate,
            k,
            &l.lowered.known,
            &l.lowered.known_args,
        ),
    )
}

// Adds the statement for a variable whose accumulator has this number, where that stands outside all loops.
fn push_ask(
    alloc: Global,
    l: LoopWithCandidate,
    k: u32,
    x: &Name,
    all: &mut Vec<Stmt>,
) -> Result<(), NoMemory>
    requires typed { is_typed l.schema.now (fragment_of l.lowered.now.frag) ≡ true }
    requires known { AreKnownTo l.schema.now (fragment_of l.lowered.now.frag) (map plain_query l.lowered.now.known) l.lowered.now.known_args }
    ensures exact { OnOk result (statements all.new.items ≡ and_then (statements all.old.items) (specs.asked_at (looped_in_code l.entry) k x.now)) }
    ensures valid { OnOk result (specs.IsValidAt (looped_in_code l.entry) k) }
{
    match outermost(&l.lowered.frag, k) {
        None => Ok(()),
        Some(acc) => {
            let e = emitted(alloc, l, k)?;
            all.push(statement_for(alloc, l, x, acc.update, &e)?)?;
            Ok(())
        }
    }
}

/// Adds the statements that ask for variables, of whose accumulators the first has the number `k`: those that stand outside all
/// loops. `NoMemory` comes also where there are more than 32 bits can count.
pub fn push_asks(
    alloc: Global,
    l: LoopWithCandidate,
    k: u32,
    names: &[Name],
    all: &mut Vec<Stmt>,
) -> Result<(), NoMemory>
    requires typed { is_typed l.schema.now (fragment_of l.lowered.now.frag) ≡ true }
    requires known { AreKnownTo l.schema.now (fragment_of l.lowered.now.frag) (map plain_query l.lowered.now.known) l.lowered.now.known_args }
    ensures exact { OnOk result (statements all.new.items ≡ and_then (statements all.old.items) (specs.asked_from (looped_in_code l.entry) k names.now)) }
    ensures valid { OnOk result (specs.AreValidFrom (looped_in_code l.entry) k names.now) }
{
    let Some((x, rest)) = names.split_first() else {
        return Ok(());
    };
    push_ask(alloc, l, k, x, all)?;
    let Some(next) = k.checked_add(1) else {
        return Err(NoMemory);
    };
    push_asks(alloc, l, next, rest, all)
}
