// The command `rewrite` by a view.
ghost use Rattle.std.specs.Prelude.{◌≡◌, ◌∷◌, IfOk, Some, length, true};
ghost use Rattle.qbs_base.specs.declared.status.Status.TheVariants as statuses;
ghost use Rattle.java_ast.specs.Reading.{program as plain_program};
ghost use Rattle.java_grammar.specs.InGrammar.{IsInGrammar};
ghost use Rattle.java_grammar.specs.Written.{IsWritten};
ghost use Rattle.java_stretches.specs.Patches.{plain_patches};
ghost use Rattle.rewrite_core.specs.Results.{IsRewritingOf};
ghost use Rattle.view_slices.specs.Reading.{all_sliced};
ghost use Rattle.view_slices.specs.Slices.{file_of};
ghost use Rattle.view_slices.specs.Views.{class_cells, file_in};
ghost use Rattle.view_spell.specs.Placed as placed;
ghost use Rattle.view_text.specs.Layout.{stretches_of};
ghost use Rattle.deliveries.specs.Code.{OrMemory};
ghost use Rattle.deliveries.specs.Plan.{given};
ghost use Rattle.deliveries.specs.Reads.{looks, OnlyReads};
ghost use Rattle.plans.specs.Opening.{IsProgramOf};
ghost use Rattle.qbs.specs.Pruners.{may, with_bank};
ghost use Rattle.qbs.specs.Rewrite.{size_of as size_in, budget_of as budget_in};
ghost use Rattle.qbs.specs.RewriteByView as specs;
ghost use Rattle.qbs.specs.RewriteByView.{WritesBack};
ghost use Rattle.qbs.specs.Seen.{HasSeen, IsViewed, seen_by, view_by};
ghost use Rattle.qbs.specs.SeenAgain.{IsSettled, slices_in};
ghost use Rattle.qbs.specs.Store.{store_names};
ghost use Rattle.qbs.specs.View.{Methods};
ghost use Rattle.qbs.specs.Within.{AreWithin};

use crate::by_view_lines::{report_unseen, report_viewed};
use crate::opened::{Fetched, fetch_files, open_store};
use crate::rewrite::{budget_of, size_of};
use crate::seen::{Seen, Viewed, see};
use crate::stored::rewrite_past_store;
use crate::written::{Settled, Source, settle};
use deliveries::Plan;
use deliveries::fetch::{MOST_MAP, Stop, fetch};
use files_sinks::Files;
use kernel_lang::{Candidate, KFragment, PruneAnswer};
use plans::opening::{open_map, open_schema};
use proof_store::Bank;
use qbs_base::{Bytes, NoMemory, Status, Text, held};
use query_search::Pruner;
use rewrite_core::Rewritten;
use schema::Schema;
use std::alloc::Global;
use view_items::{Cell, Cells};
use view_map::ViewMap;
use view_read::View;
use view_shapes::File;
use view_slices::{looked_at, put_class};
use view_spell::{Seen as SeenAs, spell};
use view_statements::Sliced;
use view_text::{Stretch, lay_out_placed};
use words::Options;

/// What is due for the files of a map, a schema and a source, and of the store that the options may name.
pub fn plan_by_view<F: Files>(
    alloc: Global,
    files: &mut F,
    options: &Options,
    map: &Text,
    schema: &Text,
    source: &Text,
    pruners: &[Pruner],
) -> Result<Plan, Stop>
    requires { AreWithin options.now }
    ensures reads { OnlyReads (looks F.told F.faults F.may_fail F.by_read) (map.now ∷ schema.now ∷ source.now ∷ store_names options.now.store) files.old files.new }
    ensures due { OrMemory result (specs.rewrite_by_view (given F.told F.faults F.may_fail files.old files.new)
        (may (λ p. ⟦<Box<dyn Fn(&KFragment, &Candidate) -> PruneAnswer> as Fn(&KFragment, &Candidate) -> PruneAnswer>⟧.post p.call) pruners.now)
        options.now map.now schema.now source.now) }
{
    let map = fetch(alloc, files, map, MOST_MAP, "map")?;
    let fetched = fetch_files(alloc, files, schema, source, &options.store)?;
    plan_texts(alloc, options, map.as_slice(), &fetched, pruners)
}

// What is due for their bytes.
fn plan_texts(
    alloc: Global,
    options: &Options,
    map: &[u8],
    files: &Fetched,
    pruners: &[Pruner],
) -> Result<Plan, Stop>
    requires { AreWithin options.now }
    ensures { OrMemory result (specs.rewrite_by_view_of
        (may (λ p. ⟦<Box<dyn Fn(&KFragment, &Candidate) -> PruneAnswer> as Fn(&KFragment, &Candidate) -> PruneAnswer>⟧.post p.call) pruners.now)
        options.now map.now files.now.schema files.now.source files.now.store) }
{
    let schema = open_schema(alloc, files.schema.as_slice())?;
    let map = open_map(alloc, &schema, map)?;
    let source = files.source.as_slice();
    let seen = see(alloc, &map, &schema, source)?;
    let bank = open_store(alloc, &schema, &files.store)?;
    Ok(plan_seen(alloc, options, &map, &schema, source, &seen, pruners, &bank)?)
}

// What is due for what is seen.
fn plan_seen(
    alloc: Global,
    options: &Options,
    map: &ViewMap,
    schema: &Schema,
    source: &[u8],
    seen: &Seen,
    pruners: &[Pruner],
    bank: &Option<Bank>,
) -> Result<Plan, NoMemory>
    requires within { AreWithin options.now }
    requires seen { HasSeen map.now schema.now source.now seen.now }
    ensures { IfOk result (WritesBack
        (with_bank (may (λ p. ⟦<Box<dyn Fn(&KFragment, &Candidate) -> PruneAnswer> as Fn(&KFragment, &Candidate) -> PruneAnswer>⟧.post p.call) pruners.now) bank.now)
        map.now schema.now (size_in options.now) (budget_in options.now) source.now (seen_by seen.now)) }
{
    match seen {
        Seen::Methods { file, viewed } => plan_viewed(
            alloc,
            options,
            map,
            schema,
            source,
            &looked_at(file),
            viewed,
            pruners,
            bank,
        ),
        Seen::Nothing { found } => plan_left(alloc, source, found),
    }
}

// ---- What is written

// Nothing of the file is seen: it stays.
fn plan_left(alloc: Global, source: &[u8], found: &View) -> Result<Plan, NoMemory>
    ensures status { IfOk result (λ plan. plan.status ≡ statuses.Ok) }
    ensures left { IfOk result (λ plan. specs.IsLeft source.now plan.out plan.rep) }
{
    let out = Bytes::from_vec(source.to_vec(alloc)?);
    let rep = report_unseen(
        alloc,
        source,
        found.items.as_slice(),
        found.loops.as_slice(),
    )?;
    Ok(Plan {
        status: Status::Ok,
        out,
        rep,
    })
}

// What is seen, rewritten as any program is.
fn rewritten_of(
    alloc: Global,
    options: &Options,
    schema: &Schema,
    viewed: &Viewed,
    pruners: &[Pruner],
    bank: &Option<Bank>,
) -> Result<Box<Rewritten>, NoMemory>
    requires within { AreWithin options.now }
    requires program { IsProgramOf schema.now viewed.now.text (plain_program viewed.now.typed.value.program) }
    ensures { IfOk result (λ b. IsRewritingOf
        (with_bank (may (λ p. ⟦<Box<dyn Fn(&KFragment, &Candidate) -> PruneAnswer> as Fn(&KFragment, &Candidate) -> PruneAnswer>⟧.post p.call) pruners.now) bank.now).drops
        (with_bank (may (λ p. ⟦<Box<dyn Fn(&KFragment, &Candidate) -> PruneAnswer> as Fn(&KFragment, &Candidate) -> PruneAnswer>⟧.post p.call) pruners.now) bank.now).keeps
        schema.now (size_in options.now) (budget_in options.now) viewed.now.text (plain_program viewed.now.typed.value.program) b.value) }
{
    held(
        alloc,
        rewrite_past_store(
            alloc,
            schema,
            &viewed.typed,
            viewed.text.as_slice(),
            size_of(options),
            budget_of(options),
            pruners,
            bank,
        ),
    )
}

// What is left of it, in the words of the file, where these are seen again.
fn settled_of(
    alloc: Global,
    map: &ViewMap,
    schema: &Schema,
    source: &[u8],
    file: &File,
    methods: &[Sliced],
    cells: &[Cell],
    stretches: &[Stretch],
    rewritten: &Rewritten,
) -> Result<Settled, NoMemory>
    requires laid { stretches.now ≡ stretches_of cells.now }
    requires file { file_in map.now source.now ≡ Some (file_of file.now) }
    requires grammar { IsInGrammar (plain_program rewritten.now.program) }
    requires written { IsWritten (plain_program rewritten.now.program) }
    ensures answers { IfOk result (λ s. placed.are_answers (record { map = map.now; schema = schema.now; items = file.now.items.now; cells = cells.now })
        0 (placed.slices_with (all_sliced methods.now)) (plain_patches rewritten.now.patches) s.spelled ≡ true) }
    ensures apart { IfOk result (λ s. placed.are_apart 0 (length source.now) (placed.patches_of s.spelled) ≡ true) }
    ensures settled { IfOk result (λ s. IsSettled map.now schema.now source.now (file_of file.now) (plain_program rewritten.now.program).methods
        (slices_in (all_sliced methods.now)) s.spelled s.out) }
{
    let seen = SeenAs {
        map,
        schema,
        items: file.items,
        source,
        cells,
        stretches,
    };
    let spelled = spell(alloc, &seen, methods, rewritten.patches.as_slice())?;
    let read = Source {
        map,
        schema,
        bytes: source,
        items: file.items,
        methods,
        left: &rewritten.program,
    };
    settle(alloc, &read, file, spelled)
}

/// The tokens of the class that slices are seen as. It fails only by want of memory.
pub fn class_of(
    alloc: Global,
    map: &ViewMap,
    schema: &Schema,
    file: &File,
    methods: &[Sliced],
) -> Result<Cells, NoMemory>
    ensures { IfOk result (λ cells. cells ≡ class_cells map.now schema.now (file_of file.now) (all_sliced methods.now)) }
{
    let mut cells = Cells::new(alloc);
    put_class(alloc, map, schema.tables(), file, methods, &mut cells)?;
    Ok(cells)
}

// What is seen is rewritten, and what is left of it is written where it is seen again.
fn plan_viewed(
    alloc: Global,
    options: &Options,
    map: &ViewMap,
    schema: &Schema,
    source: &[u8],
    file: &File,
    viewed: &Viewed,
    pruners: &[Pruner],
    bank: &Option<Bank>,
) -> Result<Plan, NoMemory>
    requires within { AreWithin options.now }
    requires viewed { IsViewed map.now schema.now source.now (file_of file.now) viewed.now }
    ensures { IfOk result (WritesBack
        (with_bank (may (λ p. ⟦<Box<dyn Fn(&KFragment, &Candidate) -> PruneAnswer> as Fn(&KFragment, &Candidate) -> PruneAnswer>⟧.post p.call) pruners.now) bank.now)
        map.now schema.now (size_in options.now) (budget_in options.now) source.now
        (Methods (view_by (file_of file.now) viewed.now) (plain_program viewed.now.typed.value.program))) }
{
    let methods = viewed.found.methods.as_slice();
    let loops = viewed.found.loops.as_slice();
    let rewritten = rewritten_of(alloc, options, schema, viewed, pruners, bank)?;
    let class = class_of(alloc, map, schema, file, methods)?;
    let cells = class.as_slice();
    let laid = lay_out_placed(alloc, cells)?;
    let stretches = laid.stretches.as_slice();
    let settled = settled_of(
        alloc, map, schema, source, file, methods, cells, stretches, &rewritten,
    )?;
    let spelled = settled.spelled.as_slice();
    let verdicts = rewritten.verdicts.as_slice();
    let rep = report_viewed(
        alloc,
        source,
        file,
        methods,
        cells,
        stretches,
        spelled,
        verdicts,
        loops,
        rewritten.dropped,
    )?;
    Ok(Plan {
        status: Status::Ok,
        out: settled.out,
        rep,
    })
}
