// The tokens that are seen of statements.
ghost use Rattle.std.specs.Prelude.{◌≡◌, ◌++◌, OnOk};
ghost use Rattle.view_rules.specs.Setting.{within_of};
ghost use Rattle.view_statements.specs.Cells as specs;
ghost use Rattle.view_statements.specs.Reading.{statement, statements};

use crate::Statement;
use crate::tokens::{
    put_added, put_declared, put_each, put_each_name, put_extreme, put_found, put_head,
    put_lessened, put_other_way, put_set, put_sort, put_stepped,
};
use qbs_base::NoMemory;
use std::alloc::Global;
use view_items::Cells;
use view_rules::{Within, push_item, push_made};

/// Pushes the tokens that are seen of a statement whose tree passed the check. `found` is the name of the variable of a group.
#[cycle(push)]
pub fn put_statement(
    alloc: Global,
    w: &Within,
    found: &[u8],
    st: &Statement,
    cells: &mut Cells,
) -> Result<(), NoMemory>
    ensures { OnOk result (cells.new ≡ cells.old ++ specs.statement_cells (within_of w.now) found.now (statement st.now)) }
{
    match st {
        Statement::Declaration {
            at,
            name,
            java,
            value,
            end,
        } => put_declared(alloc, w, *at, *name, *java, value, *end, cells),
        Statement::Inferred {
            at,
            name,
            java,
            value,
            end,
        } => put_declared(alloc, w, *at, *name, *java, value, *end, cells),
        Statement::FirstSet {
            name,
            java,
            value,
            end,
        } => put_declared(alloc, w, *name, *name, *java, value, *end, cells),
        Statement::Assignment { name, value, end } => {
            put_set(alloc, w, *name, b"=", value, *end, cells)
        }
        Statement::Added { name, value, end } => {
            put_set(alloc, w, *name, b"+=", value, *end, cells)
        }
        Statement::Lessened { name, value, end } => {
            put_lessened(alloc, w, *name, value, *end, cells)
        }
        Statement::Stepped {
            at,
            step,
            name,
            sign,
            end,
        } => put_stepped(alloc, w, *at, *step, *name, *sign, *end, cells),
        Statement::Extreme {
            name,
            greatest,
            variable_first: _,
            value,
            end,
        } => put_extreme(alloc, w, *name, *greatest, value, *end, cells),
        Statement::Add {
            name,
            value,
            close,
            end,
        } => put_added(alloc, w, *name, value, *close, *end, cells),
        Statement::Sort {
            at,
            by_class: _,
            list,
            parts,
            end,
        } => put_sort(alloc, w, *at, *list, parts.as_slice(), *end, cells),
        Statement::If {
            at,
            condition,
            close,
            braces: _,
            body,
            end,
        } => {
            put_head(alloc, w, *at, b"if", condition, *close, cells)?;
            put_block(alloc, w, found, *close, *end, body.as_slice(), cells)
        }
        Statement::IfElse {
            at,
            condition,
            close,
            braces: _,
            body,
            other_at,
            other_braces: _,
            other,
            end,
        } => {
            put_head(alloc, w, *at, b"if", condition, *close, cells)?;
            put_block(alloc, w, found, *close, *other_at, body.as_slice(), cells)?;
            push_made(alloc, w, *other_at, b"else", cells)?;
            put_block(alloc, w, found, *other_at, *end, other.as_slice(), cells)
        }
        Statement::ForEach {
            at,
            inferred: _,
            name,
            java,
            walked,
            close,
            braces: _,
            body,
            end,
        } => {
            put_each(alloc, w, *at, *name, *java, walked, *close, cells)?;
            put_block(alloc, w, found, *close, *end, body.as_slice(), cells)
        }
        Statement::ForIndex {
            at,
            list,
            first: _,
            name,
            java,
            body,
            close: _,
            end,
        } => {
            put_each_name(alloc, w, *at, *name, *java, *list, cells)?;
            put_block(alloc, w, found, *name, *end, body.as_slice(), cells)
        }
        Statement::ForIterator {
            at,
            list,
            name,
            java,
            body,
            close: _,
            end,
        } => {
            put_each_name(alloc, w, *at, *name, *java, *list, cells)?;
            put_block(alloc, w, found, *name, *end, body.as_slice(), cells)
        }
        Statement::Named { .. } => Ok(()),
        Statement::While {
            at,
            condition,
            close,
            braces: _,
            body,
            end,
        } => {
            put_head(alloc, w, *at, b"while", condition, *close, cells)?;
            put_block(alloc, w, found, *close, *end, body.as_slice(), cells)
        }
        Statement::Break { at, end } => {
            push_item(alloc, w, *at, cells)?;
            push_item(alloc, w, *end, cells)
        }
        Statement::Skip {
            at,
            condition,
            close,
            braces: _,
            rest,
            end,
        } => {
            put_other_way(alloc, w, *at, condition, *close, cells)?;
            put_block(alloc, w, found, *close, *end, rest.as_slice(), cells)
        }
        Statement::Found { at, literal, end } => {
            put_found(alloc, w, found, *at, *literal, *end, cells)
        }
    }
}

/// Pushes statements in braces.
#[cycle(push)]
fn put_block(
    alloc: Global,
    w: &Within,
    found: &[u8],
    before: usize,
    end: usize,
    body: &[Statement],
    cells: &mut Cells,
) -> Result<(), NoMemory>
    ensures { OnOk result (cells.new ≡ cells.old ++ specs.in_braces (within_of w.now) before end (specs.all_cells (within_of w.now) found.now (statements body.now))) }
{
    push_made(alloc, w, before, b"{", cells)?;
    put_statements(alloc, w, found, body, cells)?;
    push_made(alloc, w, end, b"}", cells)
}

/// Pushes the tokens of statements one behind the other.
#[cycle(push)]
pub fn put_statements(
    alloc: Global,
    w: &Within,
    found: &[u8],
    sts: &[Statement],
    cells: &mut Cells,
) -> Result<(), NoMemory>
    ensures { OnOk result (cells.new ≡ cells.old ++ specs.all_cells (within_of w.now) found.now (statements sts.now)) }
{
    for st in sts {
        put_statement(alloc, w, found, st, cells)?;
    }
    Ok(())
}
