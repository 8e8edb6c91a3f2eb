// The top call.
ghost use Rattle.std.specs.Prelude.{◌≡◌, ◌≤◌, [], ◌∷◌};
ghost use Rattle.std.specs.Io.KnownBytes.{Appends};
ghost use Rattle.qbs_base.specs.Status.{KeepsOutput};
ghost use Rattle.deliveries.specs.Code.{OrMemory};
ghost use Rattle.deliveries.specs.Deliver.{change};
ghost use Rattle.deliveries.specs.Plan.{given};
ghost use Rattle.deliveries.specs.Reads.{looks, OnlyReads};
ghost use Rattle.qbs.specs.Commands.{HasNoWords, program, command as command_ends, built, by_view, is_built as built_with, is_plain as plain_options};
ghost use Rattle.qbs.specs.Check.{check};
ghost use Rattle.qbs.specs.CheckByView.{HasCheckByView, check_by_view};
ghost use Rattle.qbs.specs.Complete.{IsComplete};
ghost use Rattle.qbs.specs.Draw.{HasDrawn};
ghost use Rattle.qbs.specs.Evidence.{HasProof, HasCheck};
ghost use Rattle.qbs.specs.Gather.{HasGathering};
ghost use Rattle.qbs.specs.Headline.{HasHeadline, DropsNone};
ghost use Rattle.qbs.specs.Inline.{HasInlining};
ghost use Rattle.qbs.specs.Narrow.{HasNarrowing};
ghost use Rattle.qbs.specs.Prove.{prove};
ghost use Rattle.qbs.specs.ProveByView.{HasProofByView, prove_by_view};
ghost use Rattle.qbs.specs.Pruners.{may};
ghost use Rattle.qbs.specs.Rewrite.{rewrite};
ghost use Rattle.qbs.specs.RewriteByView.{HasHeadlineByView, rewrite_by_view};
ghost use Rattle.qbs.specs.Store.{store_names};
ghost use Rattle.qbs.specs.Top.{IsDone, CutShort, HasNeutralStore, HasOnePlan, HasReadFault, with_map, ReadsAsNamed, ReadsBuilt, ReadsInOrder, LeavesUnread, IsSame};
ghost use Rattle.qbs.specs.Unnest.{HasUnnesting};
ghost use Rattle.qbs.specs.View.{HasViewing};
ghost use Rattle.qbs.specs.Within.{AreWithin, IsWithin};

use crate::by_view::plan_by_view;
use crate::check::plan_check;
use crate::check_by_view::plan_check_by_view;
use crate::draw::plan_schema;
use crate::gather::plan_gather;
use crate::inline::plan_inline;
use crate::make::plan_make;
use crate::map::{Drawn, plan_check_map, plan_map};
use crate::narrow::plan_narrow;
use crate::prove::plan_prove;
use crate::prove_by_view::plan_prove_by_view;
use crate::rewrite::plan_rewrite;
use crate::run::{Asked, plan_run};
use crate::sql::plan_sql;
use crate::unnest::plan_unnest;
use crate::view::plan_view;
use deliveries::Plan;
use deliveries::deliver::{deliver, deliver_plan};
use deliveries::fetch::{Stop, refused};
use files_sinks::{Files, Sink};
use kernel_lang::{Candidate, KFragment, PruneAnswer};
use qbs_base::{Status, Text, Words};
use query_search::Pruner;
use std::alloc::Global;
use words::{Command, Options, read_words};

/// Carries out the command that the words name: reads the files that it names, computes everything,
/// and then writes the text to `out` by one call and the report, or the line of a refusal, to `rep`
/// by one call. `words` leaves out the program's own name. The pruners are asked before a candidate is judged.
pub fn qbs_main<F: Files, O: Sink, E: Sink>(
    alloc: Global,
    words: &Words,
    files: &mut F,
    out: &mut O,
    rep: &mut E,
    pruners: &[Pruner],
) -> Status
    // It ends with a plan that is due, and writes it, first to `out` and then to `rep`.
    ensures done { IsDone (given F.told F.faults F.may_fail files.old files.new)
        (may (λ p. ⟦<Box<dyn Fn(&KFragment, &Candidate) -> PruneAnswer> as Fn(&KFragment, &Candidate) -> PruneAnswer>⟧.post p.call) pruners.now)
        words.now (change O.told O.faults O.by_write out.old out.new) (change E.told E.faults E.by_write rep.old rep.new) result }

    // Where all that is read is told, the plan that is due is one but for the number of dropped candidates, for what is seen of a file by a map and
    // how that is spelled, and for what is drawn of entities.
    ensures one_plan { HasOnePlan (given F.told F.faults F.may_fail files.old files.new)
        (may (λ p. ⟦<Box<dyn Fn(&KFragment, &Candidate) -> PruneAnswer> as Fn(&KFragment, &Candidate) -> PruneAnswer>⟧.post p.call) pruners.now)
        words.now }

    // Where `rewrite` without a view ends well, what is written does what the program read does, and each loop left stands as it was tried. All bytes of the
    // source outside of what gave way stay, if that is a text of the program that is left.
    ensures headline { HasHeadline (given F.told F.faults F.may_fail files.old files.new)
        (may (λ p. ⟦<Box<dyn Fn(&KFragment, &Candidate) -> PruneAnswer> as Fn(&KFragment, &Candidate) -> PruneAnswer>⟧.post p.call) pruners.now)
        words.now (change O.told O.faults O.by_write out.old out.new) (change E.told E.faults E.by_write rep.old rep.new) result }

    // Where `rewrite` by a view ends well, what is seen of the file read is rewritten, and does what it did. The file is written with patches in slices
    // alone, each of which is seen in what is written as the method that rewriting left, or stays as it was.
    ensures rewritten_by_view { HasHeadlineByView (given F.told F.faults F.may_fail files.old files.new)
        (may (λ p. ⟦<Box<dyn Fn(&KFragment, &Candidate) -> PruneAnswer> as Fn(&KFragment, &Candidate) -> PruneAnswer>⟧.post p.call) pruners.now)
        words.now (change O.told O.faults O.by_write out.old out.new) (change E.told E.faults E.by_write rep.old rep.new) result }

    // Where `prove` without a view ends well, what is written is the bundle of the loops that gave way, and `check` accepts it.
    ensures proved { HasProof (given F.told F.faults F.may_fail files.old files.new)
        (may (λ p. ⟦<Box<dyn Fn(&KFragment, &Candidate) -> PruneAnswer> as Fn(&KFragment, &Candidate) -> PruneAnswer>⟧.post p.call) pruners.now)
        words.now (change O.told O.faults O.by_write out.old out.new) (change E.told E.faults E.by_write rep.old rep.new) result }

    // Where `prove` by a view ends well, what is written is the bundle of the loops that gave way in what is seen of the file read, and its entries are
    // accepted.
    ensures proved_by_view { HasProofByView (given F.told F.faults F.may_fail files.old files.new)
        (may (λ p. ⟦<Box<dyn Fn(&KFragment, &Candidate) -> PruneAnswer> as Fn(&KFragment, &Candidate) -> PruneAnswer>⟧.post p.call) pruners.now)
        words.now (change O.told O.faults O.by_write out.old out.new) (change E.told E.faults E.by_write rep.old rep.new) result }

    // Where `check` without a view ends well, all entries of the bundle read are accepted, and the program that they make does what the program read does.
    // Where it refuses, the line names the first entry that isn't accepted.
    ensures checked { HasCheck (given F.told F.faults F.may_fail files.old files.new) words.now (change O.told O.faults O.by_write out.old out.new) (change E.told E.faults E.by_write rep.old rep.new) result }

    // Where `check` by a view ends well, all entries of the bundle read are accepted, and the program that they make does what the program seen of the
    // file does. Where it refuses, the line names the first entry that isn't accepted.
    ensures checked_by_view { HasCheckByView (given F.told F.faults F.may_fail files.old files.new) words.now (change O.told O.faults O.by_write out.old out.new) (change E.told E.faults E.by_write rep.old rep.new) result }

    // Where `schema` ends well, the bytes written are a schema with exactly the tables that are drawn from the dump read.
    ensures drawn { HasDrawn (given F.told F.faults F.may_fail files.old files.new) words.now (change O.told O.faults O.by_write out.old out.new) (change E.told E.faults E.by_write rep.old rep.new) result }

    // Where `inline` ends well, what is written has no calls and does what the program with calls read does. All bytes of the source outside of
    // methods that call others stay, if that is a text of the inlined program.
    ensures inlined { HasInlining (given F.told F.faults F.may_fail files.old files.new) words.now (change O.told O.faults O.by_write out.old out.new) (change E.told E.faults E.by_write rep.old rep.new) result }

    // Where `narrow` ends well, what is written does what the program read does. All bytes of the source outside of fetches that became queries
    // stay, if that is a text of the narrowed program.
    ensures narrowed { HasNarrowing (given F.told F.faults F.may_fail files.old files.new) words.now (change O.told O.faults O.by_write out.old out.new) (change E.told E.faults E.by_write rep.old rep.new) result }

    // Where `unnest` ends well, what is written does what the program read does. All bytes of the source outside of what gave way stay.
    ensures unnested { HasUnnesting (given F.told F.faults F.may_fail files.old files.new) words.now (change O.told O.faults O.by_write out.old out.new) (change E.told E.faults E.by_write rep.old rep.new) result }

    // Where `gather` ends well, what is written is the store of the small databases that refute candidates of the program read.
    ensures gathered { HasGathering (given F.told F.faults F.may_fail files.old files.new) words.now (change O.told O.faults O.by_write out.old out.new) (change E.told E.faults E.by_write rep.old rep.new) result }

    // Where `view` ends well, what is written is seen of the file read, a well-typed program with a method for each slice, or nothing.
    ensures viewed { HasViewing (given F.told F.faults F.may_fail files.old files.new) words.now (change O.told O.faults O.by_write out.old out.new) (change E.told E.faults E.by_write rep.old rep.new) result }

    // With a store `rewrite` and `prove` write what they write without it, but for the number of dropped candidates. By a view this isn't claimed, since
    // two calls may see a file in two ways.
    ensures neutral { HasNeutralStore (given F.told F.faults F.may_fail files.old files.new)
        (may (λ p. ⟦<Box<dyn Fn(&KFragment, &Candidate) -> PruneAnswer> as Fn(&KFragment, &Candidate) -> PruneAnswer>⟧.post p.call) pruners.now)
        words.now }

    // Where words are plain and all that is read is right, it ends as the command may end then.
    ensures complete { IsComplete (given F.told F.faults F.may_fail files.old files.new) words.now result }

    // With no pruners and no store no candidate is dropped.
    ensures unpruned { pruners.now ≡ [] → DropsNone words.now (change E.told E.faults E.by_write rep.old rep.new) result }

    // Words that aren't plain are refused, and nothing is read.
    ensures words { LeavesUnread words.now files.old files.new result }
    // Status 3 comes only where a read of a file that the words name failed, and the line names it.
    ensures read { HasReadFault (given F.told F.faults F.may_fail files.old files.new) words.now (change E.told E.faults E.by_write rep.old rep.new) result }
    // Of files those alone are read that the command names, in its order, each once, and none for what isn't built.
    ensures reads { ReadsAsNamed (looks F.told F.faults F.may_fail F.by_read) words.now files.old files.new }
    ensures unchanged { KeepsOutput result → Appends (O.told out.old) (O.told out.new) [] }
    ensures cut_short { result ≡ Status.WriteFault
        → CutShort (given F.told F.faults F.may_fail files.old files.new)
        (may (λ p. ⟦<Box<dyn Fn(&KFragment, &Candidate) -> PruneAnswer> as Fn(&KFragment, &Candidate) -> PruneAnswer>⟧.post p.call) pruners.now)
        words.now (change O.told O.faults O.by_write out.old out.new) (change E.told E.faults E.by_write rep.old rep.new) }
    ensures same { IsSame F.told F.faults files.old files.new }
{
    carry_out(alloc, words, files, out, rep, pruners)
}

fn carry_out<F: Files, O: Sink, E: Sink>(
    alloc: Global,
    words: &Words,
    files: &mut F,
    out: &mut O,
    rep: &mut E,
    pruners: &[Pruner],
) -> Status
    ensures done { IsDone (given F.told F.faults F.may_fail files.old files.new)
        (may (λ p. ⟦<Box<dyn Fn(&KFragment, &Candidate) -> PruneAnswer> as Fn(&KFragment, &Candidate) -> PruneAnswer>⟧.post p.call) pruners.now)
        words.now (change O.told O.faults O.by_write out.old out.new) (change E.told E.faults E.by_write rep.old rep.new) result }
    ensures unread { HasNoWords words.now → files.new ≡ files.old }
    ensures reads { ReadsAsNamed (looks F.told F.faults F.may_fail F.by_read) words.now files.old files.new }
    ensures same { F.told files.new ≡ F.told files.old }
    ensures later { F.faults files.old ≤ F.faults files.new }
{
    match plan_of(alloc, words, files, pruners) {
        Ok(plan) => deliver_plan(&plan, out, rep),
        Err(Stop::Due(plan)) => deliver_plan(&plan, out, rep),
        Err(Stop::Memory) => deliver(Status::NoMemory, &[], b"qbs: memory\n", out, rep),
    }
}

// What is due for the words.
#[tactic(auto, using(crate::proofs::Worded::in_range, crate::proofs::Worded::command_due, crate::proofs::Worded::words_due))]
fn plan_of<F: Files>(
    alloc: Global,
    words: &Words,
    files: &mut F,
    pruners: &[Pruner],
) -> Result<Plan, Stop>
    ensures due { OrMemory result (program (given F.told F.faults F.may_fail files.old files.new)
        (may (λ p. ⟦<Box<dyn Fn(&KFragment, &Candidate) -> PruneAnswer> as Fn(&KFragment, &Candidate) -> PruneAnswer>⟧.post p.call) pruners.now)
        words.now) }
    ensures unread { HasNoWords words.now → files.new ≡ files.old }
    ensures reads { ReadsAsNamed (looks F.told F.faults F.may_fail F.by_read) words.now files.old files.new }
    ensures same { F.told files.new ≡ F.told files.old }
    ensures later { F.faults files.old ≤ F.faults files.new }
{
    match read_words(alloc, words)? {
        Some(command) => plan_command(alloc, files, &command, pruners),
        None => Err(refused(alloc, Status::Words, "qbs: words", "")),
    }
}

// Whether a command is built, with its options.
fn is_built(command: &Command) -> bool
    ensures { result ≡ built_with command.now }
{
    match command {
        Command::Rewrite { .. } => true,
        Command::Prove { .. } => true,
        Command::Check { .. } => true,
        Command::Run { .. } => true,
        Command::Sql { .. } => true,
        Command::Make { .. } => true,
        Command::Schema { .. } => true,
        Command::Inline { .. } => true,
        Command::Narrow { options, .. } => is_plain(options),
        Command::Unnest { options, .. } => is_plain(options),
        Command::Gather { options, .. } => is_plain(options),
        Command::View { .. } => true,
        Command::Map { .. } => true,
        Command::MapSchema { .. } => true,
        Command::CheckMap { .. } => true,
    }
}

fn is_plain(options: &Options) -> bool
    ensures { result ≡ plain_options options.now }
{
    options.view.is_none()
}

// What is due for a command.
#[tactic(auto, using(crate::proofs::Worded::built_due, crate::proofs::Worded::unbuilt_due, crate::proofs::Worded::built_read, crate::proofs::Worded::unbuilt_read))]
fn plan_command<F: Files>(
    alloc: Global,
    files: &mut F,
    command: &Command,
    pruners: &[Pruner],
) -> Result<Plan, Stop>
    requires { IsWithin command.now }
    ensures due { OrMemory result (command_ends (given F.told F.faults F.may_fail files.old files.new)
        (may (λ p. ⟦<Box<dyn Fn(&KFragment, &Candidate) -> PruneAnswer> as Fn(&KFragment, &Candidate) -> PruneAnswer>⟧.post p.call) pruners.now)
        command.now) }
    ensures reads { ReadsInOrder (looks F.told F.faults F.may_fail F.by_read) command.now files.old files.new }
{
    if !is_built(command) {
        return Err(refused(alloc, Status::NotYet, "qbs: not yet", ""));
    }
    plan_built(alloc, files, command, pruners)
}

// What is due for `rewrite`, by a view where the options name a map.
fn plan_rewriting<F: Files>(
    alloc: Global,
    files: &mut F,
    options: &Options,
    schema: &Text,
    source: &Text,
    pruners: &[Pruner],
) -> Result<Plan, Stop>
    requires { AreWithin options.now }
    ensures due { OrMemory result (by_view options.now.view
        (λ map. rewrite_by_view (given F.told F.faults F.may_fail files.old files.new)
        (may (λ p. ⟦<Box<dyn Fn(&KFragment, &Candidate) -> PruneAnswer> as Fn(&KFragment, &Candidate) -> PruneAnswer>⟧.post p.call) pruners.now)
        options.now map schema.now source.now)
        (rewrite (given F.told F.faults F.may_fail files.old files.new)
        (may (λ p. ⟦<Box<dyn Fn(&KFragment, &Candidate) -> PruneAnswer> as Fn(&KFragment, &Candidate) -> PruneAnswer>⟧.post p.call) pruners.now)
        options.now schema.now source.now)) }
    ensures reads { OnlyReads (looks F.told F.faults F.may_fail F.by_read) (with_map options.now.view (schema.now ∷ source.now ∷ store_names options.now.store)) files.old files.new }
{
    match &options.view {
        None => plan_rewrite(alloc, files, options, schema, source, pruners),
        Some(map) => plan_by_view(alloc, files, options, map, schema, source, pruners),
    }
}

// What is due for `prove`, by a view where the options name a map.
fn plan_proving<F: Files>(
    alloc: Global,
    files: &mut F,
    options: &Options,
    schema: &Text,
    source: &Text,
    pruners: &[Pruner],
) -> Result<Plan, Stop>
    requires { AreWithin options.now }
    ensures due { OrMemory result (by_view options.now.view
        (λ map. prove_by_view (given F.told F.faults F.may_fail files.old files.new)
        (may (λ p. ⟦<Box<dyn Fn(&KFragment, &Candidate) -> PruneAnswer> as Fn(&KFragment, &Candidate) -> PruneAnswer>⟧.post p.call) pruners.now)
        options.now map schema.now source.now)
        (prove (given F.told F.faults F.may_fail files.old files.new)
        (may (λ p. ⟦<Box<dyn Fn(&KFragment, &Candidate) -> PruneAnswer> as Fn(&KFragment, &Candidate) -> PruneAnswer>⟧.post p.call) pruners.now)
        options.now schema.now source.now)) }
    ensures reads { OnlyReads (looks F.told F.faults F.may_fail F.by_read) (with_map options.now.view (schema.now ∷ source.now ∷ store_names options.now.store)) files.old files.new }
{
    match &options.view {
        None => plan_prove(alloc, files, options, &None, schema, source, pruners),
        Some(map) => plan_prove_by_view(alloc, files, options, map, schema, source, pruners),
    }
}

// What is due for `check`, by a view where the options name a map.
fn plan_checking<F: Files>(
    alloc: Global,
    files: &mut F,
    options: &Options,
    schema: &Text,
    source: &Text,
    bundle: &Text,
) -> Result<Plan, Stop>
    ensures due { OrMemory result (by_view options.now.view
        (λ map. check_by_view (given F.told F.faults F.may_fail files.old files.new) map schema.now source.now bundle.now)
        (check (given F.told F.faults F.may_fail files.old files.new) schema.now source.now bundle.now)) }
    ensures reads { OnlyReads (looks F.told F.faults F.may_fail F.by_read) (with_map options.now.view (schema.now ∷ source.now ∷ bundle.now ∷ [])) files.old files.new }
{
    match &options.view {
        None => plan_check(alloc, files, &None, schema, source, bundle),
        Some(map) => plan_check_by_view(alloc, files, map, schema, source, bundle),
    }
}

// What is due for a command that is built.
#[tactic(auto, using(crate::proofs::Worded::make_within))]
fn plan_built<F: Files>(
    alloc: Global,
    files: &mut F,
    command: &Command,
    pruners: &[Pruner],
) -> Result<Plan, Stop>
    requires { IsWithin command.now }
    ensures due { OrMemory result (built (given F.told F.faults F.may_fail files.old files.new)
        (may (λ p. ⟦<Box<dyn Fn(&KFragment, &Candidate) -> PruneAnswer> as Fn(&KFragment, &Candidate) -> PruneAnswer>⟧.post p.call) pruners.now)
        command.now) }
    ensures reads { ReadsBuilt (looks F.told F.faults F.may_fail F.by_read) command.now files.old files.new }
{
    match command {
        Command::Rewrite {
            options,
            schema,
            source,
        } => plan_rewriting(alloc, files, options, schema, source, pruners),
        Command::Prove {
            options,
            schema,
            source,
        } => plan_proving(alloc, files, options, schema, source, pruners),
        Command::Check {
            options,
            schema,
            source,
            bundle,
        } => plan_checking(alloc, files, options, schema, source, bundle),
        Command::Make { count } => plan_make(alloc, *count),
        Command::Schema { options, dump } => plan_schema(alloc, files, options, dump),
        Command::Inline { schema, source } => plan_inline(alloc, files, schema, source),
        Command::Narrow { schema, source, .. } => {
            plan_narrow(alloc, files, schema, source, pruners)
        }
        Command::Unnest {
            options,
            schema,
            source,
        } => plan_unnest(alloc, files, options, schema, source),
        Command::Gather {
            options,
            schema,
            source,
        } => plan_gather(alloc, files, options, schema, source),
        Command::View {
            map,
            schema,
            source,
        } => plan_view(alloc, files, map, schema, source),
        Command::Map { entities } => plan_map(alloc, files, Drawn::Map, entities),
        Command::MapSchema { entities } => plan_map(alloc, files, Drawn::Schema, entities),
        Command::CheckMap {
            map,
            schema,
            source,
        } => plan_check_map(alloc, files, map, schema, source),
        Command::Sql {
            schema,
            folder,
            query,
        } => plan_sql(alloc, files, schema, folder, query),
        Command::Run {
            options,
            schema,
            source,
            folder,
            method,
            arguments,
        } => {
            let call = Asked {
                method,
                words: arguments,
            };
            plan_run(
                alloc, files, options, schema, source, folder, &call, pruners,
            )
        }
    }
}
