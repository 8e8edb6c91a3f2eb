// Bundles that are checked against a program.
ghost use Rattle.std.specs.Prelude.{◌≡◌, map, IfOk};
ghost use Rattle.std.specs.declared.option.Option.TheVariants.{Some};
ghost use Rattle.tor_axioms.specs.Accepts.{proof_of};
ghost use Rattle.deriv_check.specs.Bundles.{entry_of, entries_of};
ghost use Rattle.java_ast.specs.Reading.{program as plain_program};
ghost use Rattle.java_mean.specs.Keeps.{Keeps};
ghost use Rattle.java_mean.specs.WellTyped.{IsWellTyped};
ghost use Rattle.java_types.specs.Texts.{read_by};
ghost use Rattle.rewrite_core.specs.Checking as spec;
ghost use Rattle.rewrite_core.specs.Checking.{checked_from, shown};
ghost use Rattle.rewrite_core.specs.Checked.{checks_in, IfAll, IsShown, Follows};
ghost use Rattle.kernel_lang.specs.Whole.{fragment_of};
ghost use Rattle.java_loops.specs.Meant.Lowers.{IsLowered};
ghost use Rattle.lowering.specs.Lowers.{lowering_in_code};
ghost use Rattle.sql_ast.specs.Reading.{query};
ghost use Rattle.sql_parts.specs.Given.{AreKnownTo};
ghost use Rattle.loop_text.specs.Statements.Walking.{IsLoopOf};

use crate::replacing::{put_instead, statements_instead};
use deriv_accept::are_accepted;
use deriv_check::{Bundle, BundleEntry};
use java_ast::{Path, Program, Stmt};
use java_copies::copy_program;
use java_types::Typed;
use kernel_lang::{Candidate, KFragment};
use loop_lists::find_loop;
use lowering::{Lowered, lower};
use qbs_base::{Fail, NoMemory};
use schema::Schema;
use std::alloc::Global;
use templates::{count, nth};
use tor_axioms::Derivation;
use vc_gen::conditions;

/// What comes of a bundle: all its `n` entries are accepted, and make this program; or the entry `ordinal`, counted from 1, is the first
/// that isn't.
#[derive(Drop)]
pub enum Checked {
    All { n: u64, program: Program },
    Refused { ordinal: u64 },
}

/// How the loop of an accepted entry gives way: the statements `others` come in place of those from the number `first` to the one that
/// the path leads to.
#[derive(Drop)]
pub struct Shown {
    pub path: Path,
    pub first: u64,
    pub others: Vec<Stmt>,
}

// ---- One entry

// The candidate with this number, where its conditions have these derivations.
fn candidate_shown(
    alloc: Global,
    frag: &KFragment,
    k: u32,
    proofs: &[Derivation],
) -> Result<Option<Candidate>, NoMemory>
    ensures { IfOk result (λ c. c ≡ spec.candidate_for (fragment_of frag.now) k (map proof_of proofs.now)) }
{
    if k as u64 >= count(frag, 8) {
        return Ok(None);
    }
    let candidate = nth(alloc, frag, k as u64)?;
    let vcs = conditions(alloc, frag, &candidate)?;
    if are_accepted(alloc, vcs.as_slice(), proofs)? {
        Ok(Some(candidate))
    } else {
        Ok(None)
    }
}

// A path of its own.
fn copy_path(alloc: Global, path: &[u64]) -> Result<Path, NoMemory>
    ensures { IfOk result (λ p. p ≡ path.now) }
{
    Ok(Path::from_vec(path.to_vec(alloc)?))
}

// How a loop that is lowered gives way, where the entry is accepted.
fn check_lowered(
    alloc: Global,
    schema: &Schema,
    typed: &Typed,
    path: &Path,
    lowered: &Lowered,
    e: &BundleEntry,
) -> Result<Option<Shown>, NoMemory>
    requires typed { IsWellTyped schema.now (read_by schema.now) (plain_program typed.now.program) }
    requires lowered { IsLowered schema.now (read_by schema.now) (plain_program typed.now.program) path.now (lowering_in_code lowered.now) lowered.now.first lowered.now.kept }
    requires known { AreKnownTo schema.now (fragment_of lowered.now.frag) (map query lowered.now.known) lowered.now.known_args }
    ensures { IfOk result (IsShown schema.now (plain_program typed.now.program)
        (spec.shown_at schema.now (plain_program typed.now.program) e.now.k (map proof_of e.now.proofs) (Some path.now))) }
{
    match candidate_shown(alloc, &lowered.frag, e.k, e.proofs.as_slice())? {
        None => Ok(None),
        Some(candidate) => {
            let others = statements_instead(alloc, schema, typed, path, lowered, &candidate)?;
            let path = copy_path(alloc, path.as_slice())?;
            Ok(Some(Shown {
                path,
                first: lowered.first,
                others,
            }))
        }
    }
}

// The same of the loop to which a path leads.
fn check_loop(
    alloc: Global,
    schema: &Schema,
    typed: &Typed,
    path: &Path,
    e: &BundleEntry,
) -> Result<Option<Shown>, NoMemory>
    requires typed { IsWellTyped schema.now (read_by schema.now) (plain_program typed.now.program) }
    requires loops { IsLoopOf (plain_program typed.now.program) path.now }
    ensures { IfOk result (IsShown schema.now (plain_program typed.now.program)
        (spec.shown_at schema.now (plain_program typed.now.program) e.now.k (map proof_of e.now.proofs) (Some path.now))) }
{
    match lower(alloc, schema, typed, path) {
        Ok(lowered) => check_lowered(alloc, schema, typed, path, &lowered, e),
        Err(Fail::Fault(_)) => Ok(None),
        Err(Fail::NoMemory) => Err(NoMemory),
    }
}

// The same of the loop at an entry's line and column.
fn check_entry(
    alloc: Global,
    schema: &Schema,
    typed: &Typed,
    e: &BundleEntry,
) -> Result<Option<Shown>, NoMemory>
    requires typed { IsWellTyped schema.now (read_by schema.now) (plain_program typed.now.program) }
    ensures { IfOk result (IsShown schema.now (plain_program typed.now.program) (shown schema.now (entry_of e.now) (plain_program typed.now.program))) }
{
    match find_loop(alloc, typed.program(), e.line, e.column)? {
        None => Ok(None),
        Some(path) => check_loop(alloc, schema, typed, &path, e),
    }
}

// The program behind an entry, where it is accepted.
fn check_next(
    alloc: Global,
    schema: &Schema,
    typed: Typed,
    e: &BundleEntry,
) -> Result<Option<Typed>, NoMemory>
    requires typed { IsWellTyped schema.now (read_by schema.now) (plain_program typed.program) }
    ensures { IfOk result (Follows schema.now (entry_of e.now) (plain_program typed.program)) }
{
    match check_entry(alloc, schema, &typed, e)? {
        None => Ok(None),
        Some(shown) => {
            let Shown {
                path,
                first,
                others,
            } = shown;
            let next = put_instead(alloc, typed, &path, first, others)?;
            Ok(Some(next))
        }
    }
}

// ---- All entries

/// Whether each entry of a bundle is accepted, taken in order, each on the program as those before it left it: its line and column are those
/// of a loop of the kernel form, its number is that of a candidate of at most eight formulas, and each condition of that candidate has its
/// derivation, which is accepted. Then the loop gives way to the queries of the candidate. Only want of memory is an error.
///
/// Whatever the bundle: the program that accepted entries make is well typed, and keeps what the first one does.
pub fn check_bundle(
    alloc: Global,
    schema: &Schema,
    typed: &Typed,
    bundle: &Bundle,
) -> Result<Checked, NoMemory>
    requires typed { IsWellTyped schema.now (read_by schema.now) (plain_program typed.now.program) }
    ensures exact { IfOk result (λ r. checks_in r ≡ checked_from schema.now 0 (entries_of bundle.now) (plain_program typed.now.program)) }
    ensures typed { IfOk result (λ r. IfAll r (λ q. IsWellTyped schema.now (read_by schema.now) q)) }
    ensures keeps { IfOk result (λ r. IfAll r (λ q. Keeps (plain_program typed.now.program) q schema.now)) }
{
    let mut now = Typed::of(copy_program(alloc, typed.program())?);
    for (i, e) in bundle.as_slice().iter().enumerate() {
        match check_next(alloc, schema, now, e)? {
            None => return Ok(Checked::Refused {
                ordinal: i as u64 + 1,
            }),
            Some(next) => now = next,
        }
    }
    Ok(Checked::All {
        n: bundle.len() as u64,
        program: now.into_program(),
    })
}
