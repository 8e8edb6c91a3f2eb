// Which items are seen as a statement.
ghost use Rattle.std.specs.Prelude.{◌≡◌, IfOk};
ghost use Rattle.view_statements.specs.Places.{frame_of, with_own};
ghost use Rattle.view_statements.specs.Reading.{statement, statements};
ghost use Rattle.view_statements.specs.Statements as specs;

use crate::bodies::{leave_block, leave_body, leave_brace, leave_rest, leave_then, other_from};
use crate::declared::{declaration, declare, ended, inferred, make_own, name_column, named_column};
use crate::loops::{
    broken_off, conditional, each_from, found_at, index_head, iterator_head, skip_head,
};
use crate::set::{added, assignment, changed, extreme, first_set, ordered, stepped};
use crate::{Frame, Place, Statement, beside, in_loop, inside};
use qbs_base::NoMemory;
use std::alloc::Global;
use view_rules::{JavaType, Sighted};

/// Whether the items from a number on are seen as a tree says: the number of the item behind them, with the sight there in the list that is
/// lent. None where a rule is broken; then the list holds a part of what was in sight, or more. It fails only by want of memory.
#[cycle(check)]
#[tactic(auto, using(crate::proofs::Nodes::nodes))]
pub fn check_statement(
    alloc: Global,
    f: &Frame,
    p: Place,
    sight: &mut Vec<Sighted>,
    st: &Statement,
    i: usize,
) -> Result<Option<usize>, NoMemory>
    ensures { IfOk result (λ r. specs.with_sight sight.new.items r ≡ specs.statement_of (frame_of f.now) p sight.old.items (statement st.now) i) }
{
    match st {
        Statement::Declaration {
            at,
            name,
            java,
            value,
            end,
        } => {
            let passed = declaration(f, sight.as_slice(), *at, *name, *java, value, i);
            declare(alloc, f, sight, *name, *java, ended(f, *end, passed))
        }
        Statement::Inferred {
            at,
            name,
            java,
            value,
            end,
        } => {
            let passed = inferred(f, sight.as_slice(), *at, *name, *java, value, i);
            declare(alloc, f, sight, *name, *java, ended(f, *end, passed))
        }
        Statement::FirstSet {
            name,
            java,
            value,
            end,
        } => {
            let passed = first_set(f, p, sight.as_slice(), *name, *java, value, i);
            Ok(make_own(f, sight, *name, ended(f, *end, passed)))
        }
        Statement::Assignment { name, value, end } => Ok(ended(
            f,
            *end,
            assignment(f, sight.as_slice(), *name, value, i),
        )),
        Statement::Added { name, value, end } => Ok(ended(
            f,
            *end,
            changed(f, sight.as_slice(), b"+=", *name, value, i),
        )),
        Statement::Lessened { name, value, end } => Ok(ended(
            f,
            *end,
            changed(f, sight.as_slice(), b"-=", *name, value, i),
        )),
        Statement::Stepped {
            at,
            step,
            name,
            sign,
            end,
        } => Ok(ended(
            f,
            *end,
            stepped(f, sight.as_slice(), *at, *step, *name, *sign, i),
        )),
        Statement::Extreme {
            name,
            greatest,
            variable_first,
            value,
            end,
        } => Ok(ended(
            f,
            *end,
            extreme(
                f,
                sight.as_slice(),
                *name,
                *greatest,
                *variable_first,
                value,
                i,
            ),
        )),
        Statement::Add {
            name,
            value,
            close,
            end,
        } => Ok(ended(f, *end, added(f, sight.as_slice(), *name, value, *close, i))),
        Statement::Sort {
            at,
            by_class,
            list,
            parts,
            end,
        } => Ok(ended(
            f,
            *end,
            ordered(
                f,
                sight.as_slice(),
                *at,
                *by_class,
                *list,
                parts.as_slice(),
                i,
            ),
        )),
        Statement::If {
            at,
            condition,
            close,
            braces,
            body,
            end,
        } => {
            let begun = conditional(
                f,
                sight.as_slice(),
                b"if",
                *at,
                condition,
                *close,
                *braces,
                body.as_slice(),
                i,
            );
            let len = sight.len();
            let passed = check_body(alloc, f, inside(p), sight, body.as_slice(), begun)?;
            Ok(leave_then(f, sight, len, *braces, *end, passed))
        }
        Statement::IfElse {
            at,
            condition,
            close,
            braces,
            body,
            other_at,
            other_braces,
            other,
            end,
        } => {
            let begun = conditional(
                f,
                sight.as_slice(),
                b"if",
                *at,
                condition,
                *close,
                *braces,
                body.as_slice(),
                i,
            );
            let len = sight.len();
            let first = check_body(alloc, f, inside(p), sight, body.as_slice(), begun)?;
            let behind = leave_brace(f, sight, len, *braces, first);
            let further = other_from(f, *other_at, *other_braces, other.as_slice(), behind);
            let second = check_other(alloc, f, p, sight, st, further)?;
            Ok(leave_body(f, sight, len, *other_braces, *end, second))
        }
        Statement::ForEach {
            at,
            inferred,
            name,
            java,
            walked,
            close,
            braces,
            body,
            end,
        } => {
            let begun = each_from(
                f,
                sight.as_slice(),
                *at,
                *inferred,
                *name,
                *java,
                walked,
                *close,
                *braces,
                body.as_slice(),
                i,
            );
            let len = sight.len();
            let passed = check_turn(
                alloc,
                f,
                in_loop(p, *braces),
                sight,
                *name,
                *java,
                body.as_slice(),
                begun,
            )?;
            Ok(leave_body(f, sight, len, *braces, *end, passed))
        }
        Statement::ForIndex {
            at,
            list,
            first,
            name,
            java,
            body,
            close,
            end,
        } => {
            let begun = index_head(
                f,
                sight.as_slice(),
                *at,
                *list,
                *first,
                *name,
                *java,
                *close,
                i,
            );
            let len = sight.len();
            let passed = check_turn(
                alloc,
                f,
                in_loop(p, true),
                sight,
                *name,
                *java,
                body.as_slice(),
                begun,
            )?;
            Ok(leave_block(f, sight, len, *close, *end, passed))
        }
        Statement::ForIterator {
            at,
            list,
            name,
            java,
            body,
            close,
            end,
        } => {
            let begun = iterator_head(f, sight.as_slice(), *at, *list, *name, *java, *close, i);
            let len = sight.len();
            let passed = check_turn(
                alloc,
                f,
                in_loop(p, true),
                sight,
                *name,
                *java,
                body.as_slice(),
                begun,
            )?;
            Ok(leave_block(f, sight, len, *close, *end, passed))
        }
        Statement::Named {
            at,
            name,
            java,
            value,
            end,
        } => {
            let passed = named_column(f, p, sight.as_slice(), *at, *name, *java, value, i);
            name_column(alloc, f, sight, *name, *java, value, ended(f, *end, passed))
        }
        Statement::While {
            at,
            condition,
            close,
            braces,
            body,
            end,
        } => {
            let begun = conditional(
                f,
                sight.as_slice(),
                b"while",
                *at,
                condition,
                *close,
                *braces,
                body.as_slice(),
                i,
            );
            let len = sight.len();
            let passed = check_body(alloc, f, in_loop(p, false), sight, body.as_slice(), begun)?;
            Ok(leave_body(f, sight, len, *braces, *end, passed))
        }
        Statement::Break { at, end } => Ok(ended(f, *end, broken_off(f, p, *at, i))),
        Statement::Skip {
            at,
            condition,
            close,
            braces,
            rest,
            end,
        } => {
            let begun = skip_head(f, p, sight.as_slice(), *at, condition, *close, *braces, i);
            let len = sight.len();
            let passed = check_body(alloc, f, beside(p), sight, rest.as_slice(), begun)?;
            Ok(leave_rest(f, sight, len, *end, passed))
        }
        Statement::Found { at, literal, end } => {
            Ok(ended(f, *end, found_at(f, p, *at, *literal, i)))
        }
    }
}

/// The same of statements one behind the other.
#[cycle(check)]
pub fn check_statements(
    alloc: Global,
    f: &Frame,
    p: Place,
    sight: &mut Vec<Sighted>,
    sts: &[Statement],
    i: usize,
) -> Result<Option<usize>, NoMemory>
    ensures { IfOk result (λ r. specs.with_sight sight.new.items r ≡ specs.statements_of (frame_of f.now) p sight.old.items (statements sts.now) i) }
{
    let mut j = i;
    for st in sts {
        match check_statement(alloc, f, p, sight, st, j)? {
            Some(k) => j = k,
            None => return Ok(None),
        }
    }
    Ok(Some(j))
}

/// The same of the statements of a body, from where it begins, if it does.
#[cycle(check)]
fn check_body(
    alloc: Global,
    f: &Frame,
    p: Place,
    sight: &mut Vec<Sighted>,
    body: &[Statement],
    begun: Option<usize>,
) -> Result<Option<usize>, NoMemory>
    ensures { IfOk result (λ r. specs.with_sight sight.new.items r ≡ specs.body_of (frame_of f.now) p sight.old.items (statements body.now) begun) }
{
    match begun {
        Some(b) => check_statements(alloc, f, p, sight, body, b),
        None => Ok(None),
    }
}

/// The same of the body of a loop, with the variable that it declares in sight.
#[cycle(check)]
fn check_turn(
    alloc: Global,
    f: &Frame,
    p: Place,
    sight: &mut Vec<Sighted>,
    name: usize,
    java: JavaType,
    body: &[Statement],
    begun: Option<usize>,
) -> Result<Option<usize>, NoMemory>
    ensures { IfOk result (λ r. specs.with_sight sight.new.items r ≡ specs.body_of (frame_of f.now) p (with_own (frame_of f.now) sight.old.items name java) (statements body.now) begun) }
{
    let begun = declare(alloc, f, sight, name, java, begun)?;
    check_body(alloc, f, p, sight, body, begun)
}

/// The same of the statements behind `else`, from where they begin, if they do.
#[cycle(check)]
#[tactic(auto, using(crate::proofs::Nodes::nodes))]
fn check_other(
    alloc: Global,
    f: &Frame,
    p: Place,
    sight: &mut Vec<Sighted>,
    st: &Statement,
    begun: Option<usize>,
) -> Result<Option<usize>, NoMemory>
    ensures { IfOk result (λ r. specs.with_sight sight.new.items r ≡ specs.other_of (frame_of f.now) p sight.old.items (statement st.now) begun) }
{
    match st {
        Statement::IfElse { other, .. } => {
            check_body(alloc, f, inside(p), sight, other.as_slice(), begun)
        }
        _ => Ok(None),
    }
}
