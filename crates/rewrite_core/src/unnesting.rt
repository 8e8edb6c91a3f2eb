// Loops that ask for rows in each turn give way to one query: the spread of a loop is searched, and what is found for it stands in the loop's place.
ghost use Rattle.std.specs.Prelude.{◌≡◌, ◌≤◌, ◌+◌, [], ◌∷◌, ◌++◌, length, suc, IfOk, OnOk};
ghost use Rattle.std.specs.Option.{option_map};
ghost use Rattle.std.specs.declared.option.Option.TheVariants.{Some};
ghost use Rattle.java_ast.specs.Path.{last_of, replaced_at, statement_at};
ghost use Rattle.java_ast.specs.Reading.{statements, program as plain_program};
ghost use Rattle.java_mean.specs.Numbers.{NumbersFit};
ghost use Rattle.java_mean.specs.WellTyped.{IsWellTyped};
ghost use Rattle.java_stretches.specs.Patches.{plain_patches, put_patch as put_patch_in, with_patches as with_patches_in};
ghost use Rattle.java_types.specs.Texts.{read_by};
ghost use Rattle.kernel_lang.specs.declared.prune.PruneAnswer.TheVariants as answers;
ghost use Rattle.kernel_lang.specs.Pools.{IsCandidateOf};
ghost use Rattle.kernel_lang.specs.Whole.{fragment_of};
ghost use Rattle.loop_text.specs.Statements.Loops.{loops_of};
ghost use Rattle.loop_text.specs.Statements.Walking.{IsLoopOf};
ghost use Rattle.rewrite_core.specs.Outcome.{program_with, standing_with, patches_with, BeginsBefore};
ghost use Rattle.rewrite_core.specs.Output.{IsSourceOf};
ghost use Rattle.rewrite_core.specs.Results.{IsUnnestingOf};
ghost use Rattle.rewrite_core.specs.Stages.{IsStage, next_of};
ghost use Rattle.rewrite_core.specs.UnnestingSteps.{alone_or_nothing, IsSpreadThere, MayBeTried, GoesBack, LeavesBefore, program_behind, said_with, PassesSpread, unnesting_in, unnesting_starts, UnnestingLeads};

use crate::outcome::{Outcome, try_loop};
use crate::replacing::put_instead;
use crate::spreading::{copy_there, last_number, spread_there};
use crate::stage::{Stage, next_path, stage_of, stand};
use java_ast::{Program, Stmt};
use java_copies::copy_program;
use java_stretches::{Patches, put_patch, with_patches};
use java_types::Typed;
use kernel_lang::{Candidate, KFragment};
use loop_lists::next_in;
use loop_text::statements::walk::loops_of;
use qbs_base::{Bytes, NoMemory};
use query_search::{FurtherPruner, PruneAnswer};
use schema::Schema;
use std::alloc::Global;
use verdicts::{LoopVerdict, Verdicts};

/// The program after all its loops were tried, what is said of each loop that gave way, in the order of the tries, the patches of the source,
/// in its order, and the output: the source with these in place.
#[derive(Drop)]
pub struct Unnesting {
    pub program: Program,
    pub verdicts: Verdicts,
    pub patches: Patches,
    pub text: Bytes,
}

/// What is said of the loops that gave way, in the order of the tries, and the patches of the source.
#[derive(Drop)]
pub struct GaveWay {
    pub verdicts: Verdicts,
    pub patches: Patches,
}

// ---- The spread in the loop's place

// A copy of the next loop, alone in a block.
fn copy_next(alloc: Global, stage: &Stage) -> Result<Vec<Stmt>, NoMemory>
    requires { stage.now.listed.before ≤ stage.now.standing }
    ensures { IfOk result (λ block.
        (path : _)
        → next_of stage.now ≡ Some path
        → statements block.items ≡ alone_or_nothing (statement_at path (plain_program stage.now.typed.program))) }
{
    match next_path(stage) {
        None => Ok(Vec::new(alloc)),
        Some(path) => copy_there(alloc, stage.typed.program(), path),
    }
}

// A block in place of the next loop. What is listed stays, and so has paths of the program as it was.
fn put_next(alloc: Global, stage: Box<Stage>, block: Vec<Stmt>) -> Result<Box<Stage>, NoMemory>
    requires behind { stage.value.listed.before ≤ stage.value.standing }
    requires there { (path : _) × (next_of stage.value ≡ Some path) }
    requires numbers { (path : _) → next_of stage.value ≡ Some path → NumbersFit (replaced_at path (last_of path) (statements block.items) (plain_program stage.value.typed.program)) }
    ensures program { IfOk result (λ s.
        (path : _)
        → next_of stage.value ≡ Some path
        → plain_program s.value.typed.program ≡ replaced_at path (last_of path) (statements block.items) (plain_program stage.value.typed.program)) }
    ensures listed { IfOk result (λ s. s.value.listed ≡ stage.value.listed) }
    ensures standing { IfOk result (λ s. s.value.standing ≡ stage.value.standing) }
{
    let Stage {
        typed,
        listed,
        standing,
    } = Box::into_inner(stage);
    match next_in(&listed, standing) {
        None => unreachable!(),
        Some(path) => {
            let typed = put_instead(alloc, typed, path, last_number(path), block)?;
            Ok(Box::new(
                alloc,
                Stage {
                    typed,
                    listed,
                    standing,
                },
            )?)
        }
    }
}

// ---- Behind its try

// The old loop is put back where it stood.
fn put_back(alloc: Global, stage: Box<Stage>, old: Vec<Stmt>) -> Result<Box<Stage>, NoMemory>
    requires behind { stage.value.listed.before ≤ stage.value.standing }
    requires there { (path : _) × (next_of stage.value ≡ Some path) }
    requires back { (path : _) → next_of stage.value ≡ Some path → GoesBack (statements old.items) stage.value path }
    ensures program { IfOk result (λ s.
        (path : _)
        → next_of stage.value ≡ Some path
        → plain_program s.value.typed.program ≡ replaced_at path (last_of path) (statements old.items) (plain_program stage.value.typed.program)) }
    ensures standing { IfOk result (λ s. s.value.standing ≡ suc stage.value.standing) }
    ensures lists { IfOk result (λ s. IsStage s.value) }
{
    let stage = put_next(alloc, stage, old)?;
    stand(alloc, stage)
}

// Others in place of the statements from the number `first` to the next loop. The loops of its method are listed anew.
fn put_others(
    alloc: Global,
    stage: Box<Stage>,
    first: u64,
    others: Vec<Stmt>,
) -> Result<Box<Stage>, NoMemory>
    requires behind { stage.value.listed.before ≤ stage.value.standing }
    requires there { (path : _) × (next_of stage.value ≡ Some path) }
    requires first { (path : _) → next_of stage.value ≡ Some path → first ≤ last_of path }
    requires numbers { (path : _) → next_of stage.value ≡ Some path → NumbersFit (replaced_at path first (statements others.items) (plain_program stage.value.typed.program)) }
    requires before { (path : _) → next_of stage.value ≡ Some path → LeavesBefore stage.value path }
    ensures program { IfOk result (λ s.
        (path : _)
        → next_of stage.value ≡ Some path
        → plain_program s.value.typed.program ≡ replaced_at path first (statements others.items) (plain_program stage.value.typed.program)) }
    ensures standing { IfOk result (λ s. s.value.standing ≡ stage.value.standing) }
    ensures lists { IfOk result (λ s. IsStage s.value) }
{
    let Stage {
        typed,
        listed,
        standing,
    } = Box::into_inner(stage);
    match next_in(&listed, standing) {
        None => unreachable!(),
        Some(path) => {
            let typed = put_instead(alloc, typed, path, first, others)?;
            stage_of(alloc, typed, standing, listed.number, listed.before)
        }
    }
}

// Notes that the stage's next loop gives way: others in place of the statements from the number `first` to the loop.
fn note(
    alloc: Global,
    source: &[u8],
    stage: &Stage,
    given: &mut GaveWay,
    verdict: LoopVerdict,
    first: u64,
    others: &[Stmt],
) -> Result<(), NoMemory>
    requires { stage.now.listed.before ≤ stage.now.standing }
    ensures verdicts { OnOk result (given.new.verdicts ≡ given.old.verdicts ++ verdict ∷ []) }
    ensures patches { OnOk result (
        (path : _)
        → next_of stage.now ≡ Some path
        → plain_patches given.new.patches
        ≡ put_patch_in source.now path first (statements others.now) (plain_program stage.now.typed.program) (plain_patches given.old.patches)) }
{
    given.verdicts.push(verdict)?;
    match next_path(stage) {
        None => Ok(()),
        Some(path) => put_patch(
            alloc,
            source,
            &mut given.patches,
            stage.typed.program(),
            path,
            first,
            others,
        ),
    }
}

// The stage behind the spread of its next loop, with this outcome.
fn pass(
    alloc: Global,
    source: &[u8],
    stage: Box<Stage>,
    given: &mut GaveWay,
    old: Vec<Stmt>,
    outcome: Outcome,
) -> Result<Box<Stage>, NoMemory>
    requires behind { stage.value.listed.before ≤ stage.value.standing }
    requires there { (path : _) × (next_of stage.value ≡ Some path) }
    requires before { (path : _) → next_of stage.value ≡ Some path → LeavesBefore stage.value path }
    requires back { (path : _) → next_of stage.value ≡ Some path → GoesBack (statements old.items) stage.value path }
    requires numbers { (path : _) → next_of stage.value ≡ Some path → NumbersFit (program_with outcome.way path (plain_program stage.value.typed.program)) }
    requires begins { (path : _) → next_of stage.value ≡ Some path → BeginsBefore path outcome.way }
    ensures program { IfOk result (λ s.
        (path : _)
        → next_of stage.value ≡ Some path
        → plain_program s.value.typed.program ≡ program_behind (statements old.items) outcome.way path (plain_program stage.value.typed.program)) }
    ensures standing { IfOk result (λ s. s.value.standing ≡ standing_with stage.value.standing outcome.way) }
    ensures lists { IfOk result (λ s. IsStage s.value) }
    ensures verdicts { OnOk result (given.new.verdicts ≡ given.old.verdicts ++ said_with outcome.verdict outcome.way) }
    ensures patches { OnOk result (
        (path : _)
        → next_of stage.value ≡ Some path
        → plain_patches given.new.patches
        ≡ patches_with source.now outcome.way path (plain_program stage.value.typed.program) (plain_patches given.old.patches)) }
{
    let verdict = outcome.verdict;
    let way = outcome.way;
    match way {
        None => put_back(alloc, stage, old),
        Some(way) => {
            note(
                alloc,
                source,
                &stage,
                given,
                verdict,
                way.first,
                way.others.as_slice(),
            )?;
            put_others(alloc, stage, way.first, way.others)
        }
    }
}

// ---- One try

// The spread that stands in place of the next loop is tried.
fn try_spread<F: Fn(&KFragment, &Candidate) -> PruneAnswer>(
    alloc: Global,
    schema: &Schema,
    source: &[u8],
    stage: Box<Stage>,
    given: &mut GaveWay,
    old: Vec<Stmt>,
    size: u32,
    budget: u64,
    kept: &FurtherPruner<F>,
) -> Result<Box<Stage>, NoMemory>
    requires typed { IsWellTyped schema.now (read_by schema.now) (plain_program stage.value.typed.program) }
    requires behind { stage.value.listed.before ≤ stage.value.standing }
    requires there { (path : _) × (next_of stage.value ≡ Some path) }
    requires loops { (path : _) → next_of stage.value ≡ Some path → IsLoopOf (plain_program stage.value.typed.program) path }
    requires before { (path : _) → next_of stage.value ≡ Some path → LeavesBefore stage.value path }
    requires back { (path : _) → next_of stage.value ≡ Some path → GoesBack (statements old.items) stage.value path }
    requires size { size ≤ 8 }
    requires budget { budget ≤ 1000000 }
    requires callable { (f : _) (c : _) → IsCandidateOf (fragment_of f.now) c.now → F.pre kept.now.call f c }
    requires never { (f : _) (c : _) → F.post kept.now.call f c answers.Drop → ⊥ }
    ensures passes { IfOk result (λ s.
        (path : _)
        → next_of stage.value ≡ Some path
        → PassesSpread schema.now size budget source.now path
        (replaced_at path (last_of path) (statements old.items) (plain_program stage.value.typed.program)) (plain_program stage.value.typed.program)
        (unnesting_in stage.value given.old) (unnesting_in s.value given.new)) }
    ensures lists { IfOk result (λ s. IsStage s.value) }
{
    match next_path(&stage) {
        None => unreachable!(),
        Some(path) => {
            let outcome = try_loop(alloc, schema, &stage.typed, path, size, budget, &[], kept)?;
            pass(alloc, source, stage, given, old, outcome)
        }
    }
}

// The next loop is tried by its spread, which is alone in a block.
fn unnest_by<F: Fn(&KFragment, &Candidate) -> PruneAnswer>(
    alloc: Global,
    schema: &Schema,
    source: &[u8],
    stage: Box<Stage>,
    given: &mut GaveWay,
    spread: Vec<Stmt>,
    size: u32,
    budget: u64,
    kept: &FurtherPruner<F>,
) -> Result<Box<Stage>, NoMemory>
    requires lists { IsStage stage.value }
    requires there { (path : _) × (next_of stage.value ≡ Some path) }
    requires spread { (path : _) → next_of stage.value ≡ Some path → IsSpreadThere schema.now (plain_program stage.value.typed.program) path (statements spread.items) }
    requires tried { (path : _) → next_of stage.value ≡ Some path → MayBeTried schema.now path (statements spread.items) (plain_program stage.value.typed.program) }
    requires size { size ≤ 8 }
    requires budget { budget ≤ 1000000 }
    requires callable { (f : _) (c : _) → IsCandidateOf (fragment_of f.now) c.now → F.pre kept.now.call f c }
    requires never { (f : _) (c : _) → F.post kept.now.call f c answers.Drop → ⊥ }
    ensures passes { IfOk result (λ s.
        (path : _)
        → next_of stage.value ≡ Some path
        → PassesSpread schema.now size budget source.now path
        (plain_program stage.value.typed.program) (replaced_at path (last_of path) (statements spread.items) (plain_program stage.value.typed.program))
        (unnesting_in stage.value given.old) (unnesting_in s.value given.new)) }
    ensures lists { IfOk result (λ s. IsStage s.value) }
{
    let old = copy_next(alloc, &stage)?;
    let stage = put_next(alloc, stage, spread)?;
    try_spread(alloc, schema, source, stage, given, old, size, budget, kept)
}

// The next loop is tried, where there is one. One without a spread stands.
fn unnest_next<F: Fn(&KFragment, &Candidate) -> PruneAnswer>(
    alloc: Global,
    schema: &Schema,
    source: &[u8],
    stage: Box<Stage>,
    given: &mut GaveWay,
    size: u32,
    budget: u64,
    kept: &FurtherPruner<F>,
) -> Result<Box<Stage>, NoMemory>
    requires typed { IsWellTyped schema.now (read_by schema.now) (plain_program stage.value.typed.program) }
    requires lists { IsStage stage.value }
    requires size { size ≤ 8 }
    requires budget { budget ≤ 1000000 }
    requires callable { (f : _) (c : _) → IsCandidateOf (fragment_of f.now) c.now → F.pre kept.now.call f c }
    requires never { (f : _) (c : _) → F.post kept.now.call f c answers.Drop → ⊥ }
    ensures leads { IfOk result (λ s. UnnestingLeads schema.now size budget source.now 1 (unnesting_in stage.value given.old) (unnesting_in s.value given.new)) }
    ensures typed { IfOk result (λ s. IsWellTyped schema.now (read_by schema.now) (plain_program s.value.typed.program)) }
    ensures lists { IfOk result (λ s. IsStage s.value) }
{
    match next_path(&stage) {
        None => Ok(stage),
        Some(path) => match spread_there(alloc, schema, stage.typed.program(), path)? {
            None => stand(alloc, stage),
            Some(spread) => unnest_by(
                alloc, schema, source, stage, given, spread, size, budget, kept,
            ),
        },
    }
}

// ---- All tries

// At most so many further loops are tried.
fn unnest_further<F: Fn(&KFragment, &Candidate) -> PruneAnswer>(
    alloc: Global,
    schema: &Schema,
    source: &[u8],
    stage: Box<Stage>,
    given: &mut GaveWay,
    left: usize,
    size: u32,
    budget: u64,
    kept: &FurtherPruner<F>,
) -> Result<Box<Stage>, NoMemory>
    requires typed { IsWellTyped schema.now (read_by schema.now) (plain_program stage.value.typed.program) }
    requires lists { IsStage stage.value }
    requires size { size ≤ 8 }
    requires budget { budget ≤ 1000000 }
    requires callable { (f : _) (c : _) → IsCandidateOf (fragment_of f.now) c.now → F.pre kept.now.call f c }
    requires never { (f : _) (c : _) → F.post kept.now.call f c answers.Drop → ⊥ }
    ensures leads { IfOk result (λ s. UnnestingLeads schema.now size budget source.now left (unnesting_in stage.value given.old) (unnesting_in s.value given.new)) }
    ensures typed { IfOk result (λ s. IsWellTyped schema.now (read_by schema.now) (plain_program s.value.typed.program)) }
    ensures lists { IfOk result (λ s. IsStage s.value) }
{
    if left == 0 {
        return Ok(stage);
    }
    if left == 1 {
        return unnest_next(alloc, schema, source, stage, given, size, budget, kept);
    }
    let half = left / 2;
    let stage = unnest_further(
        alloc, schema, source, stage, given, half, size, budget, kept,
    )?;
    unnest_further(
        alloc,
        schema,
        source,
        stage,
        given,
        left - half,
        size,
        budget,
        kept,
    )
}

// How many loops a program has.
fn count_loops(alloc: Global, program: &Program) -> Result<usize, NoMemory>
    ensures { IfOk result (λ n. n ≡ length (loops_of (plain_program program.now))) }
{
    Ok(loops_of(alloc, program)?.len())
}

// All loops of a program are tried. The program is copied once and its loops are counted once. A loop with a spread is copied once, and its
// spread is lowered and searched; no other is. One that gives way has the loops of its method listed anew.
fn unnest_all<F: Fn(&KFragment, &Candidate) -> PruneAnswer>(
    alloc: Global,
    schema: &Schema,
    typed: &Typed,
    source: &[u8],
    given: &mut GaveWay,
    size: u32,
    budget: u64,
    kept: &FurtherPruner<F>,
) -> Result<Box<Stage>, NoMemory>
    requires typed { IsWellTyped schema.now (read_by schema.now) (plain_program typed.now.program) }
    requires verdicts { given.now.verdicts ≡ [] }
    requires patches { given.now.patches ≡ [] }
    requires size { size ≤ 8 }
    requires budget { budget ≤ 1000000 }
    requires callable { (f : _) (c : _) → IsCandidateOf (fragment_of f.now) c.now → F.pre kept.now.call f c }
    requires never { (f : _) (c : _) → F.post kept.now.call f c answers.Drop → ⊥ }
    ensures { IfOk result (λ s.
        UnnestingLeads schema.now size budget source.now (length (loops_of (plain_program typed.now.program)))
        (unnesting_starts (plain_program typed.now.program)) (unnesting_in s.value given.new)) }
{
    let left = count_loops(alloc, typed.program())?;
    let copy = copy_program(alloc, typed.program())?;
    let stage = stage_of(alloc, Typed::of(copy), 0, 0, 0)?;
    unnest_further(
        alloc, schema, source, stage, given, left, size, budget, kept,
    )
}

// The source with the patches of all loops that gave way in place, with what is said of them.
fn with_output(
    alloc: Global,
    source: &[u8],
    stage: Box<Stage>,
    given: GaveWay,
) -> Result<Unnesting, NoMemory>
    ensures program { IfOk result (λ r. r.program ≡ stage.value.typed.program) }
    ensures verdicts { IfOk result (λ r. r.verdicts ≡ given.verdicts) }
    ensures patches { IfOk result (λ r. r.patches ≡ given.patches) }
    ensures text { IfOk result (λ r. r.text ≡ with_patches_in source.now 0 (plain_patches given.patches)) }
{
    let text = with_patches(alloc, source, given.patches.as_slice())?;
    let stage = Box::into_inner(stage);
    Ok(Unnesting {
        program: stage.typed.into_program(),
        verdicts: given.verdicts,
        patches: given.patches,
        text,
    })
}

// With a further call that never drops a candidate.
fn unnest_past<F: Fn(&KFragment, &Candidate) -> PruneAnswer>(
    alloc: Global,
    schema: &Schema,
    typed: &Typed,
    source: &[u8],
    size: u32,
    budget: u64,
    kept: &FurtherPruner<F>,
) -> Result<Unnesting, NoMemory>
    requires typed { IsWellTyped schema.now (read_by schema.now) (plain_program typed.now.program) }
    requires source { IsSourceOf source.now (plain_program typed.now.program) }
    requires size { size ≤ 8 }
    requires budget { budget ≤ 1000000 }
    requires callable { (f : _) (c : _) → IsCandidateOf (fragment_of f.now) c.now → F.pre kept.now.call f c }
    requires never { (f : _) (c : _) → F.post kept.now.call f c answers.Drop → ⊥ }
    ensures { IfOk result (IsUnnestingOf schema.now size budget source.now (plain_program typed.now.program)) }
{
    let mut given = GaveWay {
        verdicts: Verdicts::new(alloc),
        patches: Patches::new(alloc),
    };
    let stage = unnest_all(alloc, schema, typed, source, &mut given, size, budget, kept)?;
    with_output(alloc, source, stage, given)
}

/// The loops of a well-typed program are tried in text order, an outer one before those inside it, each on the program as it stands. A loop
/// gives way where it has a spread of the kernel form for which a candidate is found: of at most `size` formulas, among the first ones, as many
/// as the budget. It gives way as its spread would, with all inside it. Only want of memory is an error.
///
/// What comes of it is `IsUnnestingOf`: the program after all tries is well typed, keeps what the first one does, and is of the grammar and
/// can be written if the first one is. Every byte of the source outside of what gave way stays, and the output is read back.
pub fn unnest_loops(
    alloc: Global,
    schema: &Schema,
    typed: &Typed,
    source: &[u8],
    size: u32,
    budget: u64,
) -> Result<Unnesting, NoMemory>
    requires typed { IsWellTyped schema.now (read_by schema.now) (plain_program typed.now.program) }
    requires source { IsSourceOf source.now (plain_program typed.now.program) }
    requires size { size ≤ 8 }
    requires budget { budget ≤ 1000000 }
    ensures { IfOk result (IsUnnestingOf schema.now size budget source.now (plain_program typed.now.program)) }
{
    let kept = FurtherPruner::new(|_frag: &KFragment, _cand: &Candidate| PruneAnswer::Keep);
    unnest_past(alloc, schema, typed, source, size, budget, &kept)
}
