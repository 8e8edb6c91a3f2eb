// The queries that asks run, as expressions.
ghost use Rattle.std.specs.Prelude.{◌≡◌, ℕ, IfOk, map, option_copied, slice_get};
ghost use Rattle.std.specs.Option.{option_map};
ghost use Rattle.java_ast.specs.Reading.{spelled, expression, expressions};
ghost use Rattle.java_ast.specs.Tree as plain;
ghost use Rattle.java_loops.specs.Lowering.Spelling.{element_spelled};
ghost use Rattle.kernel_lang.specs.Whole.{fragment_of};
ghost use Rattle.sql_parts.specs.Scopes.{def_of, table_name};
ghost use Rattle.rewrite_core.specs.Asked as specs;
ghost use Rattle.rewrite_core.specs.LoopWithCandidate as looped;

use crate::spelling::copy_spelled;
use java_ast::{Expr, ExprNode, JTy};
use java_copies::copy_placed;
use kernel_lang::{KFragment, Update};
use qbs_base::{Name, NoMemory, Span, Table, Text};
use std::alloc::Global;
use tor_terms::Elem;

// ---- Arguments

// The expression of the entry value with this number, with this place at each node.
fn entry_at(alloc: Global, at: Span, entries: &[Expr], number: u64) -> Result<Expr, NoMemory>
    ensures { IfOk result (λ e. expression e ≡ specs.entry_at at (slice_get (map expression entries.now) number)) }
{
    match entries.get(number as usize) {
        Some(e) => copy_placed(alloc, at, e),
        None => {
            let node = ExprNode::NewList;
            Ok(Expr { span: at, node })
        }
    }
}

fn list_entries(
    alloc: Global,
    at: Span,
    entries: &[Expr],
    numbers: &[u64],
) -> Result<Vec<Expr>, NoMemory>
    ensures { IfOk result (λ es. map expression es.items ≡ map (λ (k : ℕ). specs.entry_at at (slice_get (map expression entries.now) k)) numbers.now) }
{
    let mut all = Vec::new(alloc);
    for number in numbers {
        all.push(entry_at(alloc, at, entries, *number)?)?;
    }
    Ok(all)
}

/// The expressions of the entry values with these numbers, with this place at each node.
pub fn arguments_of(
    alloc: Global,
    at: Span,
    entries: &[Expr],
    numbers: &[u64],
) -> Result<Vec<Expr>, NoMemory>
    ensures { IfOk result (λ es. expressions es.items ≡ specs.arguments_of at (map expression entries.now) numbers.now) }
{
    list_entries(alloc, at, entries, numbers)
}

// ---- Element types

// The number of the table of a loop's list.
fn table_number(frag: &KFragment, j: u32) -> u32
    ensures { result ≡ (def_of (slice_get (fragment_of frag.now).lists j)).table }
{
    match frag.lists.as_slice().get(j as usize) {
        Some(list) => list.table,
        None => 0,
    }
}

// The name of a table.
fn copy_table_name(alloc: Global, tables: &[Table], number: u32) -> Result<Name, NoMemory>
    ensures { IfOk result (λ name. name ≡ table_name (slice_get tables.now number)) }
{
    match tables.get(number as usize) {
        Some(table) => Ok(table.name.clone()?),
        None => Ok(Name::from_string(String::new(alloc))),
    }
}

// The element type of a list or set.
fn element_of(alloc: Global, ty: Option<&JTy>) -> Result<JTy, NoMemory>
    ensures { IfOk result (λ element. spelled element ≡ specs.spelled_or_text (element_spelled (option_map spelled (option_copied ty.entry)))) }
{
    match ty {
        None => Ok(JTy::String),
        Some(ty) => match ty {
            JTy::List(element) => copy_spelled(alloc, element),
            JTy::Set(element) => copy_spelled(alloc, element),
            JTy::Int
            | JTy::Long
            | JTy::Boolean
            | JTy::String
            | JTy::BoxedInteger
            | JTy::BoxedLong
            | JTy::BoxedBoolean
            | JTy::Table(_) => Ok(JTy::String),
        },
    }
}

/// The element type of the list that is queried for an update of a variable that is declared with this type. Only want of memory
/// is an error.
pub fn element_asked(
    alloc: Global,
    tables: &[Table],
    frag: &KFragment,
    update: Update,
    ty: Option<&JTy>,
) -> Result<JTy, NoMemory>
    ensures { IfOk result (λ element.
        spelled element
        ≡ looped.element_asked update (looped.rows_taken tables.now (fragment_of frag.now).lists update) (specs.spelled_or_text (element_spelled (option_map spelled (option_copied ty.entry))))) }
{
    match update {
        Update::Push(Elem::Whole(j)) => Ok(JTy::Table(copy_table_name(
            alloc,
            tables,
            table_number(frag, j),
        )?)),
        Update::Push(Elem::Field(_, _))
        | Update::PushNew(_)
        | Update::Tick
        | Update::Plus(_)
        | Update::Best(_, _)
        | Update::Mark => element_of(alloc, ty),
    }
}

// ---- Queries

#[tactic(auto, using(java_ast::proofs::Rows::expressions_hidden))]
fn query(at: Span, element: JTy, text: Text, arguments: Vec<Expr>) -> Expr
    ensures { expression result ≡ plain.Query at (spelled element) text (expressions arguments.items) }
{
    let node = ExprNode::Query(element, text, arguments);
    Expr { span: at, node }
}

#[tactic(auto, using(java_ast::proofs::Rows::expressions_hidden))]
fn query_long(at: Span, text: Text, arguments: Vec<Expr>) -> Expr
    ensures { expression result ≡ plain.QueryLong at text (expressions arguments.items) }
{
    let node = ExprNode::QueryLong(text, arguments);
    Expr { span: at, node }
}

#[tactic(auto, using(java_ast::proofs::Rows::expressions_hidden))]
fn query_boolean(at: Span, text: Text, arguments: Vec<Expr>) -> Expr
    ensures { expression result ≡ plain.QueryBoolean at text (expressions arguments.items) }
{
    let node = ExprNode::QueryBoolean(text, arguments);
    Expr { span: at, node }
}

// A set of the rows of a query.
fn set_of(at: Span, query: Box<Expr>) -> Expr
    ensures { expression result ≡ plain.NewSetOf at (expression query.value) }
{
    let node = ExprNode::NewSet(Some(query));
    Expr { span: at, node }
}

/// The query for an update, whose list has elements of this type. Only want of memory is an error.
pub fn value_with(
    alloc: Global,
    at: Span,
    update: Update,
    element: JTy,
    text: Text,
    arguments: Vec<Expr>,
) -> Result<Expr, NoMemory>
    ensures { IfOk result (λ e. expression e ≡ looped.value_with at update (spelled element) text (expressions arguments.items)) }
{
    match update {
        Update::Push(_) => Ok(query(at, element, text, arguments)),
        Update::PushNew(_) => {
            let rows = Box::new(alloc, query(at, element, text, arguments))?;
            Ok(set_of(at, rows))
        }
        Update::Tick | Update::Plus(_) | Update::Best(_, _) => Ok(query_long(at, text, arguments)),
        Update::Mark => Ok(query_boolean(at, text, arguments)),
    }
}
