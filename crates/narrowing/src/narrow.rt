// The for-eachs of a program, each narrowed on the program as it stands.
ghost use Rattle.std.specs.Prelude.{◌≡◌, ◌∷◌, ◌++◌, ◌||◌, ◌≤◌, ℕ, Some, None, [], IfOk, OnOk, nat_eq};
ghost use Rattle.std.specs.List.{list_any};
ghost use Rattle.java_ast.specs.Path.{last_of, replaced_at, statement_at};
ghost use Rattle.java_ast.specs.Reading.{statement, statements, program as plain_program};
ghost use Rattle.narrowing.specs.Narrowing.{is_walk as is_walk_of, walks_of, place_or_none, narrowing, all_narrowed};
ghost use Rattle.narrowing.specs.Replacing.{said_at, one_narrowed};

use crate::instead::{Instead, instead_at};
use crate::reasons::reason_at;
use crate::walk::{Reason, Walk, Walks};
use indexmap::IndexSet;
use java_ast::{Path, Paths, Program, Stmt, StmtNode, at_path};
use java_copies::put_at;
use loop_text::statements::walk::loops_of;
use qbs_base::{NoMemory, Span, held};
use schema::Schema;
use std::alloc::Global;
use text_patches::TextPatches;

/// What is narrowed: the program, what is said of each for-each in text order, and the texts in place of bytes of the source.
#[derive(Drop)]
pub struct Narrowed {
    pub program: Box<Program>,
    pub walks: Walks,
    pub patches: TextPatches,
}

// ---- Walks

#[tactic(auto, using(java_ast::proofs::Nodes::nodes))]
fn is_for_each(s: &Stmt) -> bool
    ensures { result ≡ is_walk_of (Some (statement s.now)) }
{
    match &s.node {
        StmtNode::ForEach { .. } => true,
        StmtNode::Declare { .. }
        | StmtNode::Assign { .. }
        | StmtNode::Add { .. }
        | StmtNode::Sort { .. }
        | StmtNode::If { .. }
        | StmtNode::While { .. }
        | StmtNode::Print { .. }
        | StmtNode::Return { .. }
        | StmtNode::Break => false,
    }
}

fn is_walk(program: &Program, path: &Path) -> bool
    ensures { result ≡ is_walk_of (statement_at path.now (plain_program program.now)) }
{
    match at_path(program, path) {
        Some(s) => is_for_each(s),
        None => false,
    }
}

// The paths to the for-eachs of a program, in text order.
fn walks(alloc: Global, program: &Program) -> Result<Paths, NoMemory>
    ensures { IfOk result (λ paths. paths ≡ walks_of (plain_program program.now)) }
{
    let loops = loops_of(alloc, program)?;
    let mut paths = loops.into_vec();
    paths.retain(|path| is_walk(program, path));
    Ok(Paths::from_vec(paths))
}

fn place_at(program: &Program, path: &Path) -> Span
    ensures { result ≡ place_or_none (statement_at path.now (plain_program program.now)) }
{
    match at_path(program, path) {
        Some(s) => s.span,
        None => Span {
            line: 0,
            column: 0,
            start: 0,
            end: 0,
        },
    }
}

// ---- Bytes

fn put_byte(bytes: &mut IndexSet<u64>, byte: u64) -> Result<(), NoMemory>
    ensures { OnOk result ((x : ℕ) → list_any (nat_eq x) bytes.new.keys ≡ (nat_eq x byte || list_any (nat_eq x) bytes.old.keys)) }
{
    match bytes.insert(byte) {
        Ok(_) => Ok(()),
        Err(_) => Err(NoMemory),
    }
}

// The set of some bytes.
fn set_of(alloc: Global, bytes: &[u64]) -> Result<IndexSet<u64>, NoMemory>
    ensures { IfOk result (λ set. (x : ℕ) → list_any (nat_eq x) set.keys ≡ list_any (nat_eq x) bytes.now) }
{
    let mut set = IndexSet::new(alloc);
    for byte in bytes {
        put_byte(&mut set, *byte)?;
    }
    Ok(set)
}

fn is_in(bytes: &IndexSet<u64>, byte: u64) -> bool
    ensures { result ≡ list_any (nat_eq byte) bytes.now.keys }
{
    bytes.contains(&byte)
}

// ---- Narrowing

// The program with others in place of statements, and what is said of the for-each there.
fn put_instead(
    alloc: Global,
    path: &Path,
    at: Span,
    instead: Box<Instead>,
    program: Box<Program>,
    walks: &mut Walks,
    patches: &mut TextPatches,
) -> Result<Box<Program>, NoMemory>
    requires { instead.value.first ≤ last_of path.now }
    ensures program { IfOk result (λ q.
        plain_program q.value ≡ replaced_at path.now instead.value.first (statements instead.value.others.items) (plain_program program.value)) }
    ensures walks { OnOk result (walks.new ≡ walks.old ++ said_at at None ∷ []) }
    ensures patches { OnOk result (patches.new ≡ patches.old ++ instead.value.patch ∷ []) }
{
    let i = Box::into_inner(instead);
    let stays = None;
    walks.push(Walk { at, stays })?;
    patches.push(i.patch)?;
    let owned = Box::into_inner(program);
    let made = put_at(alloc, owned, path, i.first, i.others);
    let kept = held(alloc, made)?;
    Ok(kept)
}

// The for-each at a path narrowed, where it can be and no query stands for it anyway.
fn narrow_one(
    alloc: Global,
    schema: &Schema,
    covered: bool,
    path: &Path,
    program: Box<Program>,
    walks: &mut Walks,
    patches: &mut TextPatches,
) -> Result<Box<Program>, NoMemory>
    ensures program { IfOk result (λ q. plain_program q.value ≡ (one_narrowed schema.now covered path.now (plain_program program.value)).program) }
    ensures walks { OnOk result (walks.new ≡ walks.old ++ (one_narrowed schema.now covered path.now (plain_program program.value)).walk ∷ []) }
    ensures patches { OnOk result (patches.new ≡ patches.old ++ (one_narrowed schema.now covered path.now (plain_program program.value)).patches) }
{
    let read: &Program = &program;
    let at = place_at(read, path);
    let found = instead_at(alloc, schema, read, path)?;
    match found {
        None => {
            let stays = Some(reason_at(read, path));
            walks.push(Walk { at, stays })?;
            Ok(program)
        }
        Some(instead) => {
            if covered {
                let stays = Some(Reason::Covered);
                walks.push(Walk { at, stays })?;
                Ok(program)
            } else {
                put_instead(alloc, path, at, instead, program, walks, patches)
            }
        }
    }
}

// The for-eachs at these paths narrowed one by one, but for those that begin at one of these bytes.
fn narrow_each(
    alloc: Global,
    schema: &Schema,
    bytes: &IndexSet<u64>,
    paths: &[Path],
    read: Box<Program>,
) -> Result<Narrowed, NoMemory>
    ensures program { IfOk result (λ n. plain_program n.program.value ≡ (narrowing schema.now bytes.now.keys paths.now (plain_program read.value)).program) }
    ensures walks { IfOk result (λ n. n.walks ≡ (narrowing schema.now bytes.now.keys paths.now (plain_program read.value)).walks) }
    ensures patches { IfOk result (λ n. n.patches ≡ (narrowing schema.now bytes.now.keys paths.now (plain_program read.value)).patches) }
{
    let mut program = read;
    let mut walks = Walks::new(alloc);
    let mut patches = TextPatches::new(alloc);
    for path in paths {
        let covered = is_in(bytes, place_at(&program, path).start);
        let next = narrow_one(
            alloc,
            schema,
            covered,
            path,
            program,
            &mut walks,
            &mut patches,
        )?;
        program = next;
    }
    Ok(Narrowed {
        program,
        walks,
        patches,
    })
}

/// The for-eachs of a program in text order, each narrowed on the program as it stands, but for those that begin at a byte of `covered`. Only
/// want of memory is an error.
pub fn narrow_walks(
    alloc: Global,
    schema: &Schema,
    program: Box<Program>,
    covered: &[u64],
) -> Result<Narrowed, NoMemory>
    ensures program { IfOk result (λ n. plain_program n.program.value ≡ (all_narrowed schema.now covered.now (plain_program program.value)).program) }
    ensures walks { IfOk result (λ n. n.walks ≡ (all_narrowed schema.now covered.now (plain_program program.value)).walks) }
    ensures patches { IfOk result (λ n. n.patches ≡ (all_narrowed schema.now covered.now (plain_program program.value)).patches) }
{
    let paths = walks(alloc, &program)?;
    let bytes = set_of(alloc, covered)?;
    narrow_each(alloc, schema, &bytes, paths.as_slice(), program)
}
