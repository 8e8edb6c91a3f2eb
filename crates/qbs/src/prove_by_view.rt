// The command `prove` by a view.
ghost use Rattle.std.specs.Prelude.{◌≡◌, ◌≤◌, ◌∷◌, [], length, IfOk};
ghost use Rattle.java_ast.specs.Reading.{program as plain_program};
ghost use Rattle.deriv_check.specs.Texts.{bundle_text};
ghost use Rattle.deliveries.specs.Code.{OrMemory};
ghost use Rattle.deliveries.specs.Limits.{most_source};
ghost use Rattle.deliveries.specs.Plan.{given};
ghost use Rattle.deliveries.specs.Reads.{looks, OnlyReads};
ghost use Rattle.plans.specs.Opening.{IsProgramOf};
ghost use Rattle.view_slices.specs.Reading.{all_sliced};
ghost use Rattle.view_slices.specs.Slices.{file_of};
ghost use Rattle.qbs.specs.Fates.{IsReport, told_lines};
ghost use Rattle.qbs.specs.ProveByView.{ProvesNothing, ProvesSeen, IsPlacedReport, prove_by_view_of, prove_by_view};
ghost use Rattle.qbs.specs.Proven.{IsProven};
ghost use Rattle.qbs.specs.Pruners.{may, with_bank};
ghost use Rattle.qbs.specs.Rewrite.{size_of as size_in, budget_of as budget_in};
ghost use Rattle.qbs.specs.Seen.{IsViewed, HasSeen, view_by, seen_by};
ghost use Rattle.qbs.specs.SeenAgain.{slices_in};
ghost use Rattle.qbs.specs.Store.{store_names, has_store};
ghost use Rattle.qbs.specs.View.{Methods};
ghost use Rattle.qbs.specs.Within.{AreWithin};

use crate::by_view::class_of;
use crate::by_view_lines::{report_unseen, report_viewed};
use crate::opened::{Fetched, open_store};
use crate::opened_by_view::{SeenBy, see_source};
use crate::prove::{Proven, plan_prove, prove_program};
use crate::seen::{Seen, Viewed};
use deliveries::Plan;
use deliveries::fetch::{MOST_MAP, Stop, fetch};
use deriv_check::{Bundle, print_bundle};
use files_sinks::Files;
use kernel_lang::{Candidate, KFragment, PruneAnswer};
use proof_store::Bank;
use qbs_base::{Bytes, NoMemory, Status, Text};
use query_search::Pruner;
use schema::Schema;
use std::alloc::Global;
use verdicts::LoopVerdict;
use view_items::Cell;
use view_map::ViewMap;
use view_read::{Loop, View};
use view_shapes::File;
use view_slices::looked_at;
use view_statements::Sliced;
use view_text::lay_out_placed;
use words::Options;

/// What is due for the files of a map, a schema and a source, and of the store that the options may name.
pub fn plan_prove_by_view<F: Files>(
    alloc: Global,
    files: &mut F,
    options: &Options,
    map: &Text,
    schema: &Text,
    source: &Text,
    pruners: &[Pruner],
) -> Result<Plan, Stop>
    requires { AreWithin options.now }
    ensures reads { OnlyReads (looks F.told F.faults F.may_fail F.by_read) (map.now ∷ schema.now ∷ source.now ∷ store_names options.now.store) files.old files.new }
    ensures due { OrMemory result (prove_by_view (given F.told F.faults F.may_fail files.old files.new)
        (may (λ p. ⟦<Box<dyn Fn(&KFragment, &Candidate) -> PruneAnswer> as Fn(&KFragment, &Candidate) -> PruneAnswer>⟧.post p.call) pruners.now)
        options.now map.now schema.now source.now) }
{
    let map = fetch(alloc, files, map, MOST_MAP, "map")?;
    plan_prove(alloc, files, options, &Some(map), schema, source, pruners)
}

/// What is due for the bytes of a map and of files.
pub fn plan_source_by_view(
    alloc: Global,
    options: &Options,
    map: &[u8],
    files: &Fetched,
    pruners: &[Pruner],
) -> Result<Plan, Stop>
    requires { AreWithin options.now }
    ensures { OrMemory result (prove_by_view_of
        (may (λ p. ⟦<Box<dyn Fn(&KFragment, &Candidate) -> PruneAnswer> as Fn(&KFragment, &Candidate) -> PruneAnswer>⟧.post p.call) pruners.now)
        options.now map.now files.now.schema files.now.source files.now.store) }
{
    let by = see_source(alloc, map, files.schema.as_slice(), files.source.as_slice())?;
    plan_opened(alloc, options, &by, files, pruners)
}

// What is due for what is seen by them.
fn plan_opened(
    alloc: Global,
    options: &Options,
    by: &SeenBy,
    files: &Fetched,
    pruners: &[Pruner],
) -> Result<Plan, Stop>
    requires within { AreWithin options.now }
    requires seen { HasSeen by.now.map by.now.schema files.now.source by.now.seen }
    ensures { OrMemory result (has_store by.now.schema files.now.store (λ bank. ProvesSeen
        (with_bank (may (λ p. ⟦<Box<dyn Fn(&KFragment, &Candidate) -> PruneAnswer> as Fn(&KFragment, &Candidate) -> PruneAnswer>⟧.post p.call) pruners.now) bank)
        by.now.map by.now.schema (size_in options.now) (budget_in options.now) files.now.source (seen_by by.now.seen))) }
{
    let bank = open_store(alloc, &by.schema, &files.store)?;
    let source = files.source.as_slice();
    Ok(plan_seen(
        alloc, options, &by.map, &by.schema, source, &by.seen, pruners, &bank,
    )?)
}

// ---- What is written

/// What is due for what is seen.
fn plan_seen(
    alloc: Global,
    options: &Options,
    map: &ViewMap,
    schema: &Schema,
    source: &[u8],
    seen: &Seen,
    pruners: &[Pruner],
    bank: &Option<Bank>,
) -> Result<Plan, NoMemory>
    requires within { AreWithin options.now }
    requires seen { HasSeen map.now schema.now source.now seen.now }
    ensures { IfOk result (ProvesSeen
        (with_bank (may (λ p. ⟦<Box<dyn Fn(&KFragment, &Candidate) -> PruneAnswer> as Fn(&KFragment, &Candidate) -> PruneAnswer>⟧.post p.call) pruners.now) bank.now)
        map.now schema.now (size_in options.now) (budget_in options.now) source.now (seen_by seen.now)) }
{
    match seen {
        Seen::Methods { file, viewed } => plan_viewed(
            alloc,
            options,
            map,
            schema,
            source,
            &looked_at(file),
            viewed,
            pruners,
            bank,
        ),
        Seen::Nothing { found } => plan_nothing(alloc, source, found),
    }
}

// What is proved of the program of a view.
fn proven_of(
    alloc: Global,
    options: &Options,
    schema: &Schema,
    viewed: &Viewed,
    pruners: &[Pruner],
    bank: &Option<Bank>,
) -> Result<Proven, NoMemory>
    requires within { AreWithin options.now }
    requires short { length viewed.now.text ≤ most_source }
    requires program { IsProgramOf schema.now viewed.now.text (plain_program viewed.now.typed.value.program) }
    ensures { IfOk result (IsProven
        (with_bank (may (λ p. ⟦<Box<dyn Fn(&KFragment, &Candidate) -> PruneAnswer> as Fn(&KFragment, &Candidate) -> PruneAnswer>⟧.post p.call) pruners.now) bank.now)
        schema.now (size_in options.now) (budget_in options.now) (plain_program viewed.now.typed.value.program)) }
{
    let text = viewed.text.as_slice();
    prove_program(alloc, options, schema, text, &viewed.typed, pruners, bank)
}

/// The bundle of the loops of a view that give way, and the report.
fn plan_viewed(
    alloc: Global,
    options: &Options,
    map: &ViewMap,
    schema: &Schema,
    source: &[u8],
    file: &File,
    viewed: &Viewed,
    pruners: &[Pruner],
    bank: &Option<Bank>,
) -> Result<Plan, NoMemory>
    requires within { AreWithin options.now }
    requires viewed { IsViewed map.now schema.now source.now (file_of file.now) viewed.now }
    ensures { IfOk result (ProvesSeen
        (with_bank (may (λ p. ⟦<Box<dyn Fn(&KFragment, &Candidate) -> PruneAnswer> as Fn(&KFragment, &Candidate) -> PruneAnswer>⟧.post p.call) pruners.now) bank.now)
        map.now schema.now (size_in options.now) (budget_in options.now) source.now
        (Methods (view_by (file_of file.now) viewed.now) (plain_program viewed.now.typed.value.program))) }
{
    let proven = proven_of(alloc, options, schema, viewed, pruners, bank)?;
    let verdicts = proven.verdicts.as_slice();
    let rep = placed_report(
        alloc,
        map,
        schema,
        source,
        file,
        viewed,
        verdicts,
        proven.dropped,
    )?;
    Ok(Plan {
        status: Status::Ok,
        out: proven.bundle,
        rep,
    })
}

/// The report on loops that were tried in slices, each of which is seen as these tokens.
fn tried_report(
    alloc: Global,
    source: &[u8],
    file: &File,
    methods: &[Sliced],
    cells: &[Cell],
    verdicts: &[LoopVerdict],
    loops: &[Loop],
    dropped: u64,
) -> Result<Bytes, NoMemory>
    ensures { IfOk result (IsReport (told_lines source.now cells.now (file_of file.now) (slices_in (all_sliced methods.now)) [] verdicts.now) dropped) }
{
    let laid = lay_out_placed(alloc, cells)?;
    let stretches = laid.stretches.as_slice();
    report_viewed(
        alloc,
        source,
        file,
        methods,
        cells,
        stretches,
        &[],
        verdicts,
        loops,
        dropped,
    )
}

/// The report on the loops of a view, at their places in the file.
fn placed_report(
    alloc: Global,
    map: &ViewMap,
    schema: &Schema,
    source: &[u8],
    file: &File,
    viewed: &Viewed,
    verdicts: &[LoopVerdict],
    dropped: u64,
) -> Result<Bytes, NoMemory>
    ensures { IfOk result (IsPlacedReport map.now schema.now source.now (view_by (file_of file.now) viewed.now) verdicts.now dropped) }
{
    let methods = viewed.found.methods.as_slice();
    let class = class_of(alloc, map, schema, file, methods)?;
    let cells = class.as_slice();
    let loops = viewed.found.loops.as_slice();
    tried_report(
        alloc, source, file, methods, cells, verdicts, loops, dropped,
    )
}

// The text of no entries.
fn no_entries(alloc: Global) -> Result<Bytes, NoMemory>
    ensures { IfOk result (λ text. text ≡ bundle_text []) }
{
    let text = print_bundle(alloc, &Bundle::new(alloc))?;
    Ok(Bytes::from_vec(text.into_vec()))
}

/// The bundle of no entries, and why nothing is seen.
fn plan_nothing(alloc: Global, source: &[u8], found: &View) -> Result<Plan, NoMemory>
    ensures { IfOk result (λ plan. ProvesNothing plan) }
{
    let out = no_entries(alloc)?;
    let items = found.items.as_slice();
    let rep = report_unseen(alloc, source, items, found.loops.as_slice())?;
    Ok(Plan {
        status: Status::Ok,
        out,
        rep,
    })
}
