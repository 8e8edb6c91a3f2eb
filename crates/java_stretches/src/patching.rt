// Patches of a source, one for each stretch of statements that gives way.
ghost use Rattle.std.specs.Prelude.{◌≡◌, ◌≤◌, IfOk, OnOk, take, drop, length};
ghost use Rattle.std.specs.List.{prefix_len, suffix_len};
ghost use Rattle.std.specs.Option.{option_copied, option_map};
ghost use Rattle.java_ast.specs.Path.{statement_at};
ghost use Rattle.java_ast.specs.Reading.{statement, statements, program as plain_program};
ghost use Rattle.java_lex.specs.Bytes.{is_in_line as is_in_line_byte};
ghost use Rattle.java_stretches.specs.Lines as lines;
ghost use Rattle.java_stretches.specs.Stretch as stretches;
ghost use Rattle.java_stretches.specs.Patches as specs;

use crate::patch::{Patch, Patches};
use java_ast::{Path, Program, Stmt, Stmts, at_path};
use java_copies::copy_statements;
use java_text::print_statements;
use qbs_base::{NoMemory, Text, copy_text};
use std::alloc::Global;
use std::mem;

// ---- Bytes

/// The bytes from a number on.
pub fn bytes_from(bytes: &[u8], from: u64) -> &[u8]
    ensures { result.now ≡ drop from bytes.now }
{
    if from < bytes.len() as u64 {
        &bytes[from as usize..]
    } else {
        &[]
    }
}

// The bytes up to a number.
fn bytes_to(bytes: &[u8], to: u64) -> &[u8]
    ensures { result.now ≡ take to bytes.now }
{
    if to < bytes.len() as u64 {
        &bytes[..to as usize]
    } else {
        bytes
    }
}

/// The bytes from one number to another.
pub fn stretch(bytes: &[u8], from: u64, to: u64) -> &[u8]
    ensures { result.now ≡ specs.stretch bytes.now from to }
{
    bytes_to(bytes_from(bytes, from), to.saturating_sub(from))
}

fn is_in_line(byte: u8) -> bool
    ensures { result ≡ is_in_line_byte byte }
{
    byte != b'\n'
}

fn is_blank(byte: u8) -> bool
    ensures { result ≡ lines.is_blank byte }
{
    byte == b' ' || byte == b'\t'
}

// How many bytes stand behind the last line feed.
fn line_len(bytes: &[u8]) -> usize
    ensures value { result ≡ suffix_len is_in_line_byte bytes.now }
    ensures within { result ≤ length bytes.now }
{
    bytes.iter().rev().take_while(|b| is_in_line(**b)).count()
}

// How many spaces and tabs begin a line.
fn blank_len(line: &[u8]) -> usize
    ensures value { result ≡ prefix_len lines.is_blank line.now }
    ensures within { result ≤ length line.now }
{
    line.iter().take_while(|b| is_blank(**b)).count()
}

// The bytes behind the last line feed.
fn last_line(bytes: &[u8]) -> &[u8]
    ensures { result.now ≡ specs.last_line bytes.now }
{
    &bytes[bytes.len() - line_len(bytes)..]
}

fn is_broken(bytes: &[u8]) -> bool
    ensures { result ≡ specs.is_broken bytes.now }
{
    line_len(bytes) < bytes.len()
}

// ---- Margins

// The spaces and tabs that begin a line.
fn blanks_of(alloc: Global, line: &[u8]) -> Result<Text, NoMemory>
    ensures { IfOk result (λ margin. margin ≡ specs.blanks_of line.now) }
{
    let blanks = line[..blank_len(line)].to_vec(alloc)?;
    match Text::from_vec(blanks) {
        Some(margin) => Ok(margin),
        None => unreachable!(),
    }
}

// The margin of the line in which bytes end, where it began with this margin before them.
fn margin_behind(alloc: Global, margin: &Text, bytes: &[u8]) -> Result<Text, NoMemory>
    ensures { IfOk result (λ new. new ≡ specs.margin_behind margin.now bytes.now) }
{
    if is_broken(bytes) {
        blanks_of(alloc, last_line(bytes))
    } else {
        copy_text(alloc, margin)
    }
}

/// The margin of the line in which a patch begins, by the last one before it: the bytes between them are looked at, or those of its line.
pub fn margin_by(
    alloc: Global,
    source: &[u8],
    last: Option<&Patch>,
    from: u64,
) -> Result<Text, NoMemory>
    ensures { IfOk result (λ margin. margin ≡ specs.margin_by source.now (option_map specs.plain_patch (option_copied last.entry)) from) }
{
    match last {
        None => blanks_of(alloc, last_line(bytes_to(source, from))),
        Some(p) => margin_behind(alloc, &p.margin, stretch(source, p.to, from)),
    }
}

// ---- Statements

// The lines of statements but for the margin of the first and the line end of the last.
fn joined_lines(alloc: Global, margin: &Text, block: &[Stmt]) -> Result<Text, NoMemory>
    ensures { IfOk result (λ text. text ≡ lines.joined_lines margin.now (statements block.now)) }
{
    let lines = print_statements(alloc, margin.as_str(), block)?;
    let Some(front) = lines.as_str().strip_suffix("\n") else {
        return Ok(lines);
    };
    match front.strip_prefix(margin.as_str()) {
        Some(rest) => Ok(Text::from_str(alloc, rest)?),
        None => unreachable!(),
    }
}

fn start_of(s: Option<&Stmt>) -> u64
    ensures { result ≡ specs.start_of (option_map statement (option_copied s.entry)) }
{
    match s {
        Some(s) => s.span.start,
        None => 0,
    }
}

fn end_of(s: Option<&Stmt>) -> u64
    ensures { result ≡ specs.end_of (option_map statement (option_copied s.entry)) }
{
    match s {
        Some(s) => s.span.end,
        None => 0,
    }
}

// The path to the statement with this number in the block of the statement to which a path leads.
fn sibling(alloc: Global, path: &Path, number: u64) -> Result<Path, NoMemory>
    ensures { IfOk result (λ p. p ≡ stretches.sibling path.now number) }
{
    let mut steps = path.as_slice().to_vec(alloc)?;
    match steps.pop() {
        Some(_) => {
            steps.push(number)?;
            Ok(Path::from_vec(steps))
        }
        None => Ok(Path::new(alloc)),
    }
}

// ---- Patches

// Where the bytes of a statement begin that begins at this byte of the source.
fn begins_at(patches: &[Patch], start: u64) -> u64
    ensures { result ≡ specs.begins_at (specs.plain_patches patches.now) start }
{
    for p in patches {
        if p.from <= start && start < p.to {
            return p.from;
        }
    }
    start
}

// Those that end before a byte stay.
fn keep_earlier(alloc: Global, patches: &mut Patches, from: u64)
    ensures { specs.plain_patches patches.new ≡ specs.earlier from (specs.plain_patches patches.old) }
{
    let mut all = mem::replace(patches, Patches::new(alloc)).into_vec();
    all.retain(|p| p.to <= from);
    *patches = Patches::from_vec(all);
}

// A path of its own.
fn copy_path(alloc: Global, path: &Path) -> Result<Path, NoMemory>
    ensures { IfOk result (λ p. p ≡ path.now) }
{
    Ok(Path::from_vec(path.as_slice().to_vec(alloc)?))
}

// Puts a patch behind those that end before it: a block in place of the bytes from one number to another, and of the statements from the
// number `first` to the one to which the path leads.
fn put_from(
    alloc: Global,
    source: &[u8],
    patches: &mut Patches,
    from: u64,
    to: u64,
    path: &Path,
    first: u64,
    block: &[Stmt],
) -> Result<(), NoMemory>
    ensures { OnOk result (
        specs.plain_patches patches.new
        ≡ specs.patched (specs.plain_patches patches.old) (specs.patch_of source.now (specs.plain_patches patches.old) from to path.now first (statements block.now))) }
{
    keep_earlier(alloc, patches, from);
    let margin = margin_by(alloc, source, patches.as_slice().last(), from)?;
    let text = joined_lines(alloc, &margin, block)?;
    let path = copy_path(alloc, path)?;
    let block = copy_statements(alloc, block)?;
    patches.push(Patch {
        from,
        to,
        margin,
        text,
        path,
        first,
        block: Stmts::from_vec(block),
    })
}

// Where the first statement of a run begins, and where the loop ends to which a path leads.
fn stretch_at(
    alloc: Global,
    patches: &[Patch],
    program: &Program,
    path: &Path,
    first: u64,
) -> Result<(u64, u64), NoMemory>
    ensures from { IfOk result (λ r. r.0 ≡ specs.begins_at (specs.plain_patches patches.now) (specs.start_of (statement_at (stretches.sibling path.now first) (plain_program program.now)))) }
    ensures to { IfOk result (λ r. r.1 ≡ specs.end_of (statement_at path.now (plain_program program.now))) }
{
    let run = sibling(alloc, path, first)?;
    let start = start_of(at_path(program, &run));
    Ok((begins_at(patches, start), end_of(at_path(program, path))))
}

/// Puts a patch: a block, which is copied, in place of the statements of a program from the number `first` to the one to which a path
/// leads. Patches that don't end before it vanish. The list of patches is walked twice, and of the source the bytes between the last earlier
/// patch and this one. Only want of memory is an error.
pub fn put_patch(
    alloc: Global,
    source: &[u8],
    patches: &mut Patches,
    program: &Program,
    path: &Path,
    first: u64,
    block: &[Stmt],
) -> Result<(), NoMemory>
    ensures { OnOk result (
        specs.plain_patches patches.new
        ≡ specs.put_patch source.now path.now first (statements block.now) (plain_program program.now) (specs.plain_patches patches.old)) }
{
    let (from, to) = stretch_at(alloc, patches.as_slice(), program, path, first)?;
    put_from(alloc, source, patches, from, to, path, first, block)
}
