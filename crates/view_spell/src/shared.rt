// Rows that are objects: which patches list rows that could be told from others.
ghost use Rattle.std.specs.Prelude.{◌≡◌, IfOk, option_copied};
ghost use Rattle.std.specs.Option.{option_map};
ghost use Rattle.qbs_base.specs.Columns.{table_number};
ghost use Rattle.java_ast.specs.Reading.{expression, statement as plain_statement, statements as plain_statements};
ghost use Rattle.java_stretches.specs.Patches.{plain_patch, plain_patches};
ghost use Rattle.view_statements.specs.Slices.{slice as plain};
ghost use Rattle.view_statements.specs.Reading.{statement as seen_statement, statements as seen_statements};
ghost use Rattle.view_text.specs.Layout.{stretches_of};
ghost use Rattle.view_spell.specs.Reading.{seen_as, around as around_of};
ghost use Rattle.view_spell.specs.Shared as specs;

use crate::fetched::{Fetched, is_fetched_elsewhere, table_of};
use crate::joins::lists_once;
use crate::origins::{Origin, Seen, has_body, stretch_taken};
use java_ast::{Expr, ExprNode, JTy, Stmt, StmtNode};
use java_stretches::Patch;
use qbs_base::{Name, NoMemory, Text};
use std::alloc::Global;
use view_items::Item;
use view_map::{RowClass, ViewMap};
use view_rules::{JavaType, Sighted};
use view_statements::{Slice, Statement};

// ---- What statements list

/// The table whose rows an expression lists, by a query or by a fetch.
fn table_listed(e: &Expr) -> Option<&Name>
    ensures { option_copied result ≡ specs.table_listed (expression e.now) }
{
    match &e.node {
        ExprNode::Fetch(table) => Some(table),
        ExprNode::Query(JTy::Table(table), _, _) => Some(table),
        _ => None,
    }
}

fn text_asked(e: &Expr) -> Option<&Text>
    ensures { option_copied result ≡ specs.text_asked (expression e.now) }
{
    match &e.node {
        ExprNode::Query(_, text, _) => Some(text),
        _ => None,
    }
}

fn value_of(statement: &Stmt) -> Option<&Expr>
    ensures { option_map expression (option_copied result) ≡ specs.value_of (plain_statement statement.now) }
{
    match &statement.node {
        StmtNode::Declare { value, .. } => Some(value),
        StmtNode::Assign { value, .. } => Some(value),
        _ => None,
    }
}

fn lists(table: &Name, statement: &Stmt) -> bool
    ensures { result ≡ specs.lists table.now (plain_statement statement.now) }
{
    match value_of(statement) {
        Some(value) => match table_listed(value) {
            Some(listed) => *listed == *table,
            None => false,
        },
        None => false,
    }
}

fn any_lists(table: &Name, block: &[Stmt]) -> bool
    ensures { result ≡ specs.any_lists table.now (plain_statements block.now) }
{
    for statement in block {
        if lists(table, statement) {
            return true;
        }
    }
    false
}

/// Whether more than one statement lists rows of a table.
fn is_listed_twice(table: &Name, block: &[Stmt]) -> bool
    ensures { result ≡ specs.is_listed_twice table.now (plain_statements block.now) }
{
    let mut rest = block;
    while let [statement, behind @ ..] = rest {
        if lists(table, statement) {
            return any_lists(table, behind);
        }
        rest = behind;
    }
    false
}

// ---- What is in sight

fn is_table(table: u32, of: Option<u32>) -> bool
    ensures { result ≡ specs.is_table table of }
{
    match of {
        Some(t) => t == table,
        None => false,
    }
}

fn holds_rows(map: &ViewMap, table: u32, java: JavaType) -> bool
    ensures { result ≡ specs.holds_rows map.now table java }
{
    match java {
        JavaType::Row(class) | JavaType::Rows(class) => is_table(table, table_of(map, class)),
        JavaType::Scalar(_) | JavaType::Scalars(_) | JavaType::Distinct(_) => false,
    }
}

fn is_item(name: &[u8], item: Option<&Item>) -> bool
    ensures { result ≡ specs.is_item name.now (option_copied item.entry) }
{
    match item {
        Some(item) => item.bytes.as_slice() == name,
        None => false,
    }
}

fn sets(items: &[Item], name: &[u8], statement: &Statement) -> bool
    ensures { result ≡ specs.sets items.now name.now (seen_statement statement.now) }
{
    match statement {
        Statement::FirstSet { name: at, .. } => is_item(name, items.get(*at)),
        _ => false,
    }
}

/// Whether a list from outside is set before it is named otherwise.
fn is_set_in(items: &[Item], name: &[u8], statements: &[Statement]) -> bool
    ensures { result ≡ specs.is_set_in items.now name.now (seen_statements statements.now) }
{
    for statement in statements {
        if sets(items, name, statement) {
            return true;
        }
    }
    false
}

fn is_met(seen: &Seen, slice: &Slice, table: u32, v: &Sighted) -> bool
    ensures { result ≡ specs.is_met (seen_as seen.now) (plain slice.now) table v.now }
{
    holds_rows(seen.map, table, v.java)
        && !is_set_in(seen.items, v.name.as_slice(), slice.statements.as_slice())
}

/// Whether a row of a table, or a list of rows of it, comes from outside.
fn is_met_outside(seen: &Seen, slice: &Slice, table: u32) -> bool
    ensures { result ≡ specs.is_met_outside (seen_as seen.now) (plain slice.now) table }
{
    slice
        .outside
        .as_slice()
        .iter()
        .any(|v| is_met(seen, slice, table, v))
}

// ---- Patches

fn allows(table: u32, class: &RowClass) -> bool
    ensures { result ≡ specs.allows table class.now }
{
    class.table != table || class.by_value
}

/// Whether rows of a table are told apart by their columns alone: each class of it says so.
fn is_by_value(map: &ViewMap, table: u32) -> bool
    ensures { result ≡ specs.is_by_value map.now table }
{
    map.classes.as_slice().iter().all(|c| allows(table, c))
}

/// What a patch stands in, a slice and what is fetched in its method, and what it takes and puts there.
#[derive(Clone, Copy)]
struct Around<'a> {
    slice: &'a Slice,
    fetched: &'a [Fetched],
    at: Origin,
    block: &'a [Stmt],
}

fn is_told(
    alloc: Global,
    seen: &Seen,
    around: Around,
    name: &Name,
    table: u32,
    text: &Text,
) -> Result<bool, NoMemory>
    ensures { IfOk result (λ b. b ≡ specs.is_told (seen_as seen.now) (around_of around.entry) name.now table text.now) }
{
    if is_listed_twice(name, around.block)
        || is_met_outside(seen, around.slice, table)
        || is_fetched_elsewhere(around.fetched, table, around.at)
    {
        return Ok(true);
    }
    Ok(!lists_once(alloc, seen.schema, text)?)
}

/// Whether rows of a table that a query lists anew may be told from others.
fn is_told_in(
    alloc: Global,
    seen: &Seen,
    around: Around,
    name: &Name,
    text: &Text,
) -> Result<bool, NoMemory>
    ensures { IfOk result (λ b. b ≡ specs.is_told_in (seen_as seen.now) (around_of around.entry) name.now text.now (table_number seen.now.schema.now name.now)) }
{
    match seen.schema.table(name) {
        Some(table) => {
            if is_by_value(seen.map, table) {
                Ok(false)
            } else {
                is_told(alloc, seen, around, name, table, text)
            }
        }
        None => Ok(true),
    }
}

fn is_value_told(alloc: Global, seen: &Seen, around: Around, value: &Expr) -> Result<bool, NoMemory>
    ensures { IfOk result (λ b. b ≡ specs.is_listing_told (seen_as seen.now) (around_of around.entry) (specs.table_listed (expression value.now)) (specs.text_asked (expression value.now))) }
{
    match (table_listed(value), text_asked(value)) {
        (Some(table), Some(text)) => is_told_in(alloc, seen, around, table, text),
        _ => Ok(false),
    }
}

/// The same of a statement of a patch. What is kept lists nothing anew.
fn is_statement_told(
    alloc: Global,
    seen: &Seen,
    around: Around,
    statement: &Stmt,
) -> Result<bool, NoMemory>
    requires { seen.now.stretches.now ≡ stretches_of seen.now.cells.now }
    ensures { IfOk result (λ b. b ≡ specs.is_statement_told (seen_as seen.now) (around_of around.entry) (plain_statement statement.now)) }
{
    if !has_body(seen, statement.span.end) {
        return Ok(false);
    }
    match value_of(statement) {
        Some(value) => is_value_told(alloc, seen, around, value),
        None => Ok(false),
    }
}

fn is_any_told(alloc: Global, seen: &Seen, around: Around, block: &[Stmt]) -> Result<bool, NoMemory>
    requires { seen.now.stretches.now ≡ stretches_of seen.now.cells.now }
    ensures { IfOk result (λ b. b ≡ specs.is_any_told (seen_as seen.now) (around_of around.entry) (plain_statements block.now)) }
{
    for statement in block {
        if is_statement_told(alloc, seen, around, statement)? {
            return Ok(true);
        }
    }
    Ok(false)
}

fn is_patch_shared(
    alloc: Global,
    seen: &Seen,
    slice: &Slice,
    fetched: &[Fetched],
    patch: &Patch,
) -> Result<bool, NoMemory>
    requires { seen.now.stretches.now ≡ stretches_of seen.now.cells.now }
    ensures { IfOk result (λ b. b ≡ specs.is_patch_shared (seen_as seen.now) (plain slice.now) fetched.now (plain_patch patch.now)) }
{
    let block = patch.block.as_slice();
    match stretch_taken(seen, slice, patch.from, patch.to) {
        Some(taken) => {
            let around = Around {
                slice,
                fetched,
                at: taken.at,
                block,
            };
            is_any_told(alloc, seen, around, block)
        }
        None => Ok(false),
    }
}

/// Whether a slice isn't written, since one of its patches lists rows that could be told from other objects. `fetched` is what is fetched in its
/// method. Time goes with the patches and what is fetched. It fails only by want of memory.
pub fn any_shared(
    alloc: Global,
    seen: &Seen,
    slice: &Slice,
    fetched: &[Fetched],
    patches: &[Patch],
) -> Result<bool, NoMemory>
    requires { seen.now.stretches.now ≡ stretches_of seen.now.cells.now }
    ensures { IfOk result (λ b. b ≡ specs.any_shared (seen_as seen.now) (plain slice.now) fetched.now (plain_patches patches.now)) }
{
    for patch in patches {
        if is_patch_shared(alloc, seen, slice, fetched, patch)? {
            return Ok(true);
        }
    }
    Ok(false)
}
