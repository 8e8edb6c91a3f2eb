// Programs in which some statements are replaced where they stand.
ghost use Rattle.std.specs.Prelude.{◌≡◌, ◌≤◌, ◌++◌, ◌∷◌, suc, IfOk, OnOk, map, take, drop, ◌==◌, if◌then◌else◌};
ghost use Rattle.java_ast.specs.Tree.{PlainMethod};
ghost use Rattle.java_ast.specs.Reading.{statement, statements, method as plain_method, program as plain_program};
ghost use Rattle.java_ast.specs.Path.{with_range, with_branch, with_body, with_method, replaced_in, replaced_at, last_of};

use java_ast::build::{for_each, if_else, if_only, while_loop};
use java_ast::lists::put_items;
use java_ast::{Method, Methods, Path, Program, Stmt, StmtNode, Stmts, names_other};
use qbs_base::NoMemory;
use std::alloc::Global;
use std::mem;

/// Others in place of the statements from one number to another.
fn put_range(
    block: &mut Vec<Stmt>,
    first: u64,
    last: u64,
    others: Vec<Stmt>,
) -> Result<(), NoMemory>
    requires { first ≤ last }
    ensures { OnOk result (statements block.new.items ≡ with_range first last (statements others.items) (statements block.old.items)) }
{
    put_items(block, first, last, others)
}

/// Puts a value in place of another.
fn set<T: Drop>(there: &mut T, value: T)
    ensures { there.new ≡ value }
{
    *there = value;
}

/// In a block, others in place of the statements from the number `first` to the one that a path
/// leads to behind the number of a statement.
#[cycle(put)]
fn put_in_block(
    block: &mut Vec<Stmt>,
    number: u64,
    path: &[u64],
    first: u64,
    others: Vec<Stmt>,
) -> Result<(), NoMemory>
    requires { first ≤ last_of (number ∷ path.now) }
    ensures { OnOk result (statements block.new.items ≡ replaced_in path.now number first (statements others.items) (statements block.old.items)) }
{
    let Some((at, below)) = path.split_first() else {
        return put_range(block, first, number, others);
    };
    let Some((further, rest)) = below.split_first() else {
        return Ok(());
    };
    let Some(there) = block.get_mut(number as usize) else {
        return Ok(());
    };
    let span = there.span;
    let node = StmtNode::Break;
    let s = mem::replace(there, Stmt { span, node });
    let (changed, done) = put_in_statement(s, *at, *further, rest, first, others);
    set(there, changed);
    done
}

/// The same in the branch of a statement with the number `at`, which is given back in any case.
#[cycle(put)]
fn put_in_statement(
    s: Stmt,
    at: u64,
    number: u64,
    path: &[u64],
    first: u64,
    others: Vec<Stmt>,
) -> (Stmt, Result<(), NoMemory>)
    requires { first ≤ last_of (number ∷ path.now) }
    ensures { OnOk result.1 (statement result.0 ≡ with_branch at (replaced_in path.now number first (statements others.items)) (statement s)) }
{
    let span = s.span;
    match s.node {
        StmtNode::If { cond, yes, other } => {
            let mut yes = yes;
            match other {
                None => {
                    let done = put_in_branch(&mut yes, at == 0, number, path, first, others);
                    (if_only(span, cond, yes), done)
                }
                Some(other) => {
                    let mut other = other;
                    let done = put_in_either(&mut yes, &mut other, at, number, path, first, others);
                    (if_else(span, cond, yes, other), done)
                }
            }
        }
        StmtNode::ForEach {
            ty,
            name,
            list,
            body,
        } => {
            let mut body = body;
            let done = put_in_branch(&mut body, at == 0, number, path, first, others);
            (for_each(span, ty, name, list, body), done)
        }
        StmtNode::While { cond, body } => {
            let mut body = body;
            let done = put_in_branch(&mut body, at == 0, number, path, first, others);
            (while_loop(span, cond, body), done)
        }
        StmtNode::Declare { .. }
        | StmtNode::Assign { .. }
        | StmtNode::Add { .. }
        | StmtNode::Sort { .. }
        | StmtNode::Print { .. }
        | StmtNode::Return { .. }
        | StmtNode::Break => (s, Ok(())),
    }
}

/// The same in one of two branches, by its number.
#[cycle(put)]
fn put_in_either(
    yes: &mut Vec<Stmt>,
    other: &mut Vec<Stmt>,
    at: u64,
    number: u64,
    path: &[u64],
    first: u64,
    others: Vec<Stmt>,
) -> Result<(), NoMemory>
    requires { first ≤ last_of (number ∷ path.now) }
    ensures yes { OnOk result (
        statements yes.new.items
        ≡ (if at == 0 then replaced_in path.now number first (statements others.items) (statements yes.old.items) else statements yes.old.items)) }
    ensures other { OnOk result (
        statements other.new.items
        ≡ (if at == 1 then replaced_in path.now number first (statements others.items) (statements other.old.items) else statements other.old.items)) }
{
    if at == 0 {
        put_in_block(yes, number, path, first, others)
    } else {
        put_in_branch(other, names_other(at), number, path, first, others)
    }
}

/// The same in a block where the path goes through it, else the block stays as it was.
#[cycle(put)]
fn put_in_branch(
    block: &mut Vec<Stmt>,
    is_there: bool,
    number: u64,
    path: &[u64],
    first: u64,
    others: Vec<Stmt>,
) -> Result<(), NoMemory>
    requires { first ≤ last_of (number ∷ path.now) }
    ensures { OnOk result (
        statements block.new.items
        ≡ (if is_there then replaced_in path.now number first (statements others.items) (statements block.old.items) else statements block.old.items)) }
{
    if is_there {
        put_in_block(block, number, path, first, others)
    } else {
        Ok(())
    }
}

/// The same in the body of a method.
fn put_in_method(
    alloc: Global,
    m: &mut Method,
    number: u64,
    path: &[u64],
    first: u64,
    others: Vec<Stmt>,
) -> Result<(), NoMemory>
    requires { first ≤ last_of (number ∷ path.now) }
    ensures { OnOk result (plain_method m.new ≡ with_body (plain_method m.old) (replaced_in path.now number first (statements others.items) (statements m.old.body))) }
{
    let mut body = mem::replace(&mut m.body, Stmts::new(alloc)).into_vec();
    put_in_block(&mut body, number, path, first, others)?;
    m.body = Stmts::from_vec(body);
    Ok(())
}

/// The same in the body of the method with the number `at`.
fn put_in_methods(
    alloc: Global,
    methods: &mut Vec<Method>,
    at: u64,
    number: u64,
    path: &[u64],
    first: u64,
    others: Vec<Stmt>,
) -> Result<(), NoMemory>
    requires { first ≤ last_of (number ∷ path.now) }
    ensures { OnOk result (
        map plain_method methods.new.items
        ≡ with_method at (λ (m : PlainMethod). with_body m (replaced_in path.now number first (statements others.items) m.body)) (map plain_method methods.old.items)) }
{
    let Some(m) = methods.get_mut(at as usize) else {
        return Ok(());
    };
    put_in_method(alloc, m, number, path, first, others)
}

/// The program in which `others` stand in place of some statements of a block: those from the number
/// `first` to the one that the path leads to, where `first` is at most its number. What isn't replaced
/// is moved and not copied, and has the places that it had. A path that leads to no block changes
/// nothing.
pub fn put_at(
    alloc: Global,
    program: Program,
    path: &Path,
    first: u64,
    others: Vec<Stmt>,
) -> Result<Program, NoMemory>
    requires range { first ≤ last_of path.now }
    ensures { IfOk result (λ p. plain_program p ≡ replaced_at path.now first (statements others.items) (plain_program program)) }
{
    let Some((at, below)) = path.as_slice().split_first() else {
        return Ok(program);
    };
    let Some((number, rest)) = below.split_first() else {
        return Ok(program);
    };
    let mut program = program;
    let mut methods = mem::replace(&mut program.methods, Methods::new(alloc)).into_vec();
    put_in_methods(alloc, &mut methods, *at, *number, rest, first, others)?;
    program.methods = Methods::from_vec(methods);
    Ok(program)
}
