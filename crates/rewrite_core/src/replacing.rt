// The program in which a loop gives way.
ghost use Rattle.std.specs.Prelude.{◌≡◌, ◌≤◌, ℕ, true, IfOk, OnOk, List, Some, map};
ghost use Rattle.std.specs.declared.option.Option.{Option};
ghost use Rattle.qbs_base.specs.Values.{Schema as Tables};
ghost use Rattle.java_ast.specs.Path.{and_then, last_of, replaced_at, statement_at};
ghost use Rattle.java_ast.specs.Reading.{statements, program as plain_program};
ghost use Rattle.java_loops.specs.Kernel.Kernel.{setting_at};
ghost use Rattle.java_loops.specs.Kernel.Setting.{Setting};
ghost use Rattle.java_loops.specs.Lowering.Lowered.{Lowering};
ghost use Rattle.java_loops.specs.Meant.Lowers.{IsLowered};
ghost use Rattle.java_mean.specs.Keeps.{Keeps};
ghost use Rattle.java_mean.specs.Numbers.{NumbersFit};
ghost use Rattle.java_mean.specs.WellTyped.{IsWellTyped};
ghost use Rattle.java_grammar.specs.InGrammar.{IsInGrammar};
ghost use Rattle.java_grammar.specs.Written.{IsWritten};
ghost use Rattle.java_types.specs.Texts.{read_by};
ghost use Rattle.kernel_lang.specs.Pools.{IsCandidateOf};
ghost use Rattle.kernel_lang.specs.Typed.{is_typed};
ghost use Rattle.kernel_lang.specs.Whole.{fragment_of};
ghost use Rattle.loop_text.specs.Statements.KeptStatements.{with_numbers};
ghost use Rattle.sql_ast.specs.Reading.{query};
ghost use Rattle.sql_ast.specs.Tree.{PlainQuery};
ghost use Rattle.sql_parts.specs.Given.{AreKnownTo};
ghost use Rattle.vc_gen.specs.Soundness.{EndsAnywhere};
ghost use Rattle.lowering.specs.Lowers.{lowering_in_code};
ghost use Rattle.rewrite_core.specs.Asked.{replaced};
ghost use Rattle.rewrite_core.specs.Asking.{HasAsks};
ghost use Rattle.rewrite_core.specs.LoopWithCandidate.{looped_in_code, asked_from, AreValidFrom, place_or_nowhere};
ghost use Rattle.rewrite_core.specs.Patches.{instead};

use crate::asking::push_asks;
use crate::looped::LoopWithCandidate;
use java_ast::{Path, Program, Stmt, at_path};
use java_copies::{copy_program, put_at};
use java_types::Typed;
use kernel_lang::Candidate;
use lowering::{Lowered, kept_statements, run_there};
use qbs_base::{NoMemory, Span};
use schema::Schema;
use std::alloc::Global;

/// Where the statement stands to which a path leads, nowhere where it leads to none.
pub fn place_there(program: &Program, path: &Path) -> Span
    ensures { result ≡ place_or_nowhere (statement_at path.now (plain_program program.now)) }
{
    match at_path(program, path) {
        Some(s) => s.span,
        None => Span {
            line: 0,
            column: 0,
            start: 0,
            end: 0,
        },
    }
}

// The statements that stay of the run before a loop, and those that ask for the loop's needed accumulators.
fn in_place(alloc: Global, l: LoopWithCandidate) -> Result<Vec<Stmt>, NoMemory>
    requires typed { is_typed l.schema.now (fragment_of l.lowered.now.frag) ≡ true }
    requires known { AreKnownTo l.schema.now (fragment_of l.lowered.now.frag) (map query l.lowered.now.known) l.lowered.now.known_args }
    ensures exact { IfOk result (λ all.
        (schema : Tables) (read : List ℕ → Option PlainQuery) (z : Lowering) (w : Setting)
        → IsLowered schema read (plain_program l.entry.program.now) l.entry.path.now z l.entry.lowered.now.first l.entry.lowered.now.kept
        → setting_at schema read l.entry.path.now (plain_program l.entry.program.now) ≡ Some w
        → statements all.items ≡ and_then (with_numbers l.entry.lowered.now.kept l.entry.lowered.now.first w.fragment.run) (asked_from (looped_in_code l.entry) 0 l.entry.lowered.now.names)) }
    ensures valid { OnOk result (AreValidFrom (looped_in_code l.entry) 0 l.entry.lowered.now.names) }
{
    let mut all = kept_statements(alloc, l.program, l.path, l.lowered)?;
    push_asks(alloc, l, 0, l.lowered.names.as_slice(), &mut all)?;
    Ok(all)
}

// The same of a loop of a program, by its path.
fn in_place_at(
    alloc: Global,
    schema: &Schema,
    program: &Program,
    path: &Path,
    lowered: &Lowered,
    candidate: &Candidate,
) -> Result<Vec<Stmt>, NoMemory>
    requires typed { IsWellTyped schema.now (read_by schema.now) (plain_program program.now) }
    requires numbers { NumbersFit (plain_program program.now) }
    requires lowered { IsLowered schema.now (read_by schema.now) (plain_program program.now) path.now (lowering_in_code lowered.now) lowered.now.first lowered.now.kept }
    requires known { AreKnownTo schema.now (fragment_of lowered.now.frag) (map query lowered.now.known) lowered.now.known_args }
    ensures instead { IfOk result (λ others.
        (w : Setting)
        → setting_at schema.now (read_by schema.now) path.now (plain_program program.now) ≡ Some w
        → statements others.items ≡ instead (record { program = plain_program program.now; path = path.now; setting = w; candidate = candidate.now })) }
    ensures exact { IfOk result (λ others.
        (w : Setting)
        → setting_at schema.now (read_by schema.now) path.now (plain_program program.now) ≡ Some w
        → replaced_at path.now lowered.now.first (statements others.items) (plain_program program.now)
        ≡ replaced (record { program = plain_program program.now; path = path.now; setting = w; candidate = candidate.now })) }
    ensures asks { OnOk result (
        (w : Setting)
        → setting_at schema.now (read_by schema.now) path.now (plain_program program.now) ≡ Some w
        → HasAsks schema.now (read_by schema.now) (plain_program program.now) path.now w candidate.now) }
{
    let l = LoopWithCandidate {
        schema,
        program,
        path,
        run: run_there(program, path),
        at: place_there(program, path),
        lowered,
        candidate,
    };
    in_place(alloc, l)
}

/// The statements that come in place of a loop of a well-typed program and of the run before it, where the loop has the kernel form and
/// is lowered so: the kept statements of the run, and those that run the queries (`instead`). Put there from the number `lowered.first` on,
/// they make the program in which the loop gives way (`exact`). The loop has its asks (`asks`). Only want of memory is an error.
pub fn statements_instead(
    alloc: Global,
    schema: &Schema,
    typed: &Typed,
    path: &Path,
    lowered: &Lowered,
    candidate: &Candidate,
) -> Result<Vec<Stmt>, NoMemory>
    requires typed { IsWellTyped schema.now (read_by schema.now) (plain_program typed.now.program) }
    requires lowered { IsLowered schema.now (read_by schema.now) (plain_program typed.now.program) path.now (lowering_in_code lowered.now) lowered.now.first lowered.now.kept }
    requires known { AreKnownTo schema.now (fragment_of lowered.now.frag) (map query lowered.now.known) lowered.now.known_args }
    ensures instead { IfOk result (λ others.
        (w : Setting)
        → setting_at schema.now (read_by schema.now) path.now (plain_program typed.now.program) ≡ Some w
        → statements others.items ≡ instead (record { program = plain_program typed.now.program; path = path.now; setting = w; candidate = candidate.now })) }
    ensures exact { IfOk result (λ others.
        (w : Setting)
        → setting_at schema.now (read_by schema.now) path.now (plain_program typed.now.program) ≡ Some w
        → replaced_at path.now lowered.now.first (statements others.items) (plain_program typed.now.program)
        ≡ replaced (record { program = plain_program typed.now.program; path = path.now; setting = w; candidate = candidate.now })) }
    ensures asks { OnOk result (
        (w : Setting)
        → setting_at schema.now (read_by schema.now) path.now (plain_program typed.now.program) ≡ Some w
        → HasAsks schema.now (read_by schema.now) (plain_program typed.now.program) path.now w candidate.now) }
{
    in_place_at(alloc, schema, typed.program(), path, lowered, candidate)
}

/// A checked program with others in place of the statements from a number to the one that a path leads to. The program is moved, not
/// copied, and its literals aren't looked at. Only want of memory is an error.
pub fn put_instead(
    alloc: Global,
    typed: Typed,
    path: &Path,
    first: u64,
    others: Vec<Stmt>,
) -> Result<Typed, NoMemory>
    requires first { first ≤ last_of path.now }
    requires numbers { NumbersFit (replaced_at path.now first (statements others.items) (plain_program typed.program)) }
    ensures { IfOk result (λ q. plain_program q.program ≡ replaced_at path.now first (statements others.items) (plain_program typed.program)) }
{
    let program = put_at(alloc, typed.into_program(), path, first, others)?;
    Ok(Typed::with_numbers(program))
}

// A copy of a program with others in place of the statements from a number to the one that a path leads to.
fn copy_with(
    alloc: Global,
    program: &Program,
    path: &Path,
    first: u64,
    others: Vec<Stmt>,
) -> Result<Program, NoMemory>
    requires { first ≤ last_of path.now }
    ensures { IfOk result (λ q. plain_program q ≡ replaced_at path.now first (statements others.items) (plain_program program.now)) }
{
    let copy = copy_program(alloc, program)?;
    put_at(alloc, copy, path, first, others)
}

// The program in which a loop gives way.
fn replaced_in(
    alloc: Global,
    schema: &Schema,
    program: &Program,
    path: &Path,
    lowered: &Lowered,
    candidate: &Candidate,
) -> Result<Program, NoMemory>
    requires typed { IsWellTyped schema.now (read_by schema.now) (plain_program program.now) }
    requires numbers { NumbersFit (plain_program program.now) }
    requires lowered { IsLowered schema.now (read_by schema.now) (plain_program program.now) path.now (lowering_in_code lowered.now) lowered.now.first lowered.now.kept }
    requires known { AreKnownTo schema.now (fragment_of lowered.now.frag) (map query lowered.now.known) lowered.now.known_args }
    ensures exact { IfOk result (λ q.
        (w : Setting)
        → setting_at schema.now (read_by schema.now) path.now (plain_program program.now) ≡ Some w
        → plain_program q ≡ replaced (record { program = plain_program program.now; path = path.now; setting = w; candidate = candidate.now })) }
    ensures typed { IfOk result (λ q. IsWellTyped schema.now (read_by schema.now) (plain_program q)) }
    ensures keeps { IfOk result (λ q. EndsAnywhere (fragment_of lowered.now.frag) candidate.now → Keeps (plain_program program.now) (plain_program q) schema.now) }
    ensures written { IfOk result (λ q.
        IsInGrammar (plain_program program.now)
        → IsWritten (plain_program program.now)
        → IsInGrammar (plain_program q) × IsWritten (plain_program q)) }
{
    let others = in_place_at(alloc, schema, program, path, lowered, candidate)?;
    copy_with(alloc, program, path, lowered.first, others)
}

/// The program in which a loop of a well-typed program gives way, where the loop has the kernel form and is lowered so: the kept
/// statements of its run, and for each needed accumulator a statement that runs the query of what the candidate claims of it. What is
/// asked of known queries is what `lower` says of them. Only want of memory is an error.
///
/// The program is well typed, and of the grammar and can be written if the first one is, whatever the candidate claims. Where the
/// candidate's postconditions say what the fragment ends with, it keeps what the first one does.
pub fn replace_loop(
    alloc: Global,
    schema: &Schema,
    typed: &Typed,
    path: &Path,
    lowered: &Lowered,
    candidate: &Candidate,
) -> Result<Program, NoMemory>
    requires typed { IsWellTyped schema.now (read_by schema.now) (plain_program typed.now.program) }
    requires lowered { IsLowered schema.now (read_by schema.now) (plain_program typed.now.program) path.now (lowering_in_code lowered.now) lowered.now.first lowered.now.kept }
    requires known { AreKnownTo schema.now (fragment_of lowered.now.frag) (map query lowered.now.known) lowered.now.known_args }
    requires candidate { IsCandidateOf (fragment_of lowered.now.frag) candidate.now }
    ensures exact { IfOk result (λ q.
        (w : Setting)
        → setting_at schema.now (read_by schema.now) path.now (plain_program typed.now.program) ≡ Some w
        → plain_program q ≡ replaced (record { program = plain_program typed.now.program; path = path.now; setting = w; candidate = candidate.now })) }
    ensures typed { IfOk result (λ q. IsWellTyped schema.now (read_by schema.now) (plain_program q)) }
    ensures keeps { IfOk result (λ q. EndsAnywhere (fragment_of lowered.now.frag) candidate.now → Keeps (plain_program typed.now.program) (plain_program q) schema.now) }
    ensures written { IfOk result (λ q.
        IsInGrammar (plain_program typed.now.program)
        → IsWritten (plain_program typed.now.program)
        → IsInGrammar (plain_program q) × IsWritten (plain_program q)) }
{
    replaced_in(alloc, schema, typed.program(), path, lowered, candidate)
}
