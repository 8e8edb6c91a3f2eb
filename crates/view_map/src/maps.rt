// The map of a text, or its first fault.
ghost use Rattle.std.specs.Prelude.{◌≡◌, OnOk, length, map, is_some};
ghost use Rattle.view_map.specs.Constants.{constant_key};
ghost use Rattle.view_map.specs.Fetches.{pattern_key};
ghost use Rattle.view_map.specs.Maps as specs;
ghost use Rattle.view_map.specs.Reading.{Gives};
ghost use Rattle.qbs_base.specs.Memory.{Answers};

use crate::constants::{constant, judge_constant};
use crate::draft::Draft;
use crate::fault::{MapFault, MapRule};
use crate::fetches::fetch;
use crate::keys::Keys;
use crate::model::{QueryKind, Template, ViewMap};
use crate::patterns::pattern;
use crate::reading::{fault_at, first_from, sign};
use crate::tables::table;
use crate::templates::{hide, is_template, template_of, template_or};
use crate::words::is_spelled;
use qbs_base::{Fail, Items};
use schema::Schema;
use std::alloc::Global;
use view_items::{Item, items};

fn no_draft(alloc: Global) -> Draft
    ensures { result ≡ specs.no_draft }
{
    Draft {
        classes: Items::new(alloc),
        fetches: Items::new(alloc),
        constants: Items::new(alloc),
        list: None,
        long: None,
        truth: None,
        texts_binary: false,
    }
}

fn is_given(draft: &Draft, kind: QueryKind) -> bool
    ensures { result ≡ is_some (specs.given draft.now kind) }
{
    match kind {
        QueryKind::List => draft.list.is_some(),
        QueryKind::Long => draft.long.is_some(),
        QueryKind::Boolean => draft.truth.is_some(),
    }
}

fn hides(template: &Template, other: &Option<Template>) -> bool
    ensures { result ≡ specs.hides template.now other.now }
{
    match other {
        None => false,
        Some(other) => hide(template, other),
    }
}

fn is_hidden(draft: &Draft, template: &Template) -> bool
    ensures { result ≡ specs.is_hidden draft.now template.now }
{
    hides(template, &draft.list) || hides(template, &draft.long) || hides(template, &draft.truth)
}

fn judge_template(
    alloc: Global,
    draft: &Draft,
    kind: QueryKind,
    items: &[Item],
    at: usize,
) -> Result<Template, Fail<MapFault>>
    ensures { Gives (λ t. t) result (specs.template_judged draft.now kind items.now at) }
{
    if !is_template(kind, items) {
        return Err(fault_at(MapRule::Unexpected, at));
    }
    let template = template_of(alloc, kind, items)?;
    if is_hidden(draft, &template) {
        return Err(fault_at(MapRule::DoubleName, at));
    }
    Ok(template)
}

/// What stands behind `query` and the like.
#[tactic(auto, unfolding(crate::specs::Maps::template_at))]
fn template<'a>(
    alloc: Global,
    draft: &Draft,
    kind: QueryKind,
    end: usize,
    items: &'a [Item],
) -> Result<(Template, &'a [Item]), Fail<MapFault>>
    ensures { Gives (λ x. (x.0, x.1.now)) result (specs.template_at draft.now kind end items.now) }
{
    let rest = sign("=", end, items)?;
    let (pattern, after) = pattern(true, end, rest)?;
    let after = sign(";", end, after)?;
    let template = judge_template(alloc, draft, kind, pattern, first_from(end, rest))?;
    Ok((template, after))
}

fn put_template(draft: &mut Draft, kind: QueryKind, template: Template)
    ensures { draft.new ≡ specs.with_template draft.old kind template }
{
    match kind {
        QueryKind::List => draft.list = Some(template),
        QueryKind::Long => draft.long = Some(template),
        QueryKind::Boolean => draft.truth = Some(template),
    }
}

fn take_table<'a>(
    alloc: Global,
    schema: &Schema,
    draft: &mut Draft,
    end: usize,
    items: &'a [Item],
) -> Result<&'a [Item], Fail<MapFault>>
    ensures value { Gives (λ rest. (draft.new, rest.now)) result (specs.table_entry schema.now draft.old end items.now) }
    ensures fetches { OnOk result (draft.new.fetches ≡ draft.old.fetches) }
    ensures constants { OnOk result (draft.new.constants ≡ draft.old.constants) }
{
    let (class, rest) = table(alloc, schema, draft.classes.as_slice(), end, items)?;
    draft.classes.push(class)?;
    Ok(rest)
}

fn take_fetch<'a>(
    alloc: Global,
    draft: &mut Draft,
    keys: &mut Keys,
    end: usize,
    items: &'a [Item],
) -> Result<&'a [Item], Fail<MapFault>>
    requires { keys.old ≡ map pattern_key draft.old.fetches }
    ensures value { Gives (λ rest. (draft.new, rest.now)) result (specs.fetch_entry draft.old end items.now) }
    ensures keys { OnOk result (keys.new ≡ map pattern_key draft.new.fetches) }
    ensures constants { OnOk result (draft.new.constants ≡ draft.old.constants) }
{
    let (fetch, rest) = fetch(alloc, draft.classes.as_slice(), keys, end, items)?;
    draft.fetches.push(fetch)?;
    Ok(rest)
}

fn take_constant<'a>(
    alloc: Global,
    draft: &mut Draft,
    keys: &mut Keys,
    end: usize,
    items: &'a [Item],
) -> Result<&'a [Item], Fail<MapFault>>
    requires { keys.old ≡ map constant_key draft.old.constants }
    ensures value { Gives (λ rest. (draft.new, rest.now)) result (specs.constant_entry draft.old end items.now) }
    ensures keys { OnOk result (keys.new ≡ map constant_key draft.new.constants) }
    ensures fetches { OnOk result (draft.new.fetches ≡ draft.old.fetches) }
{
    let (constant, rest) = constant(alloc, end, items)?;
    let constant = judge_constant(alloc, keys, constant)?;
    draft.constants.push(constant)?;
    Ok(rest)
}

fn take_template<'a>(
    alloc: Global,
    draft: &mut Draft,
    kind: QueryKind,
    at: usize,
    end: usize,
    items: &'a [Item],
) -> Result<&'a [Item], Fail<MapFault>>
    ensures value { Gives (λ rest. (draft.new, rest.now)) result (specs.template_entry draft.old kind at end items.now) }
    ensures fetches { OnOk result (draft.new.fetches ≡ draft.old.fetches) }
    ensures constants { OnOk result (draft.new.constants ≡ draft.old.constants) }
{
    if is_given(draft, kind) {
        return Err(fault_at(MapRule::DoubleName, at));
    }
    let (template, rest) = template(alloc, draft, kind, end, items)?;
    put_template(draft, kind, template);
    Ok(rest)
}

fn take_texts<'a>(
    draft: &mut Draft,
    at: usize,
    end: usize,
    items: &'a [Item],
) -> Result<&'a [Item], Fail<MapFault>>
    ensures value { Gives (λ rest. (draft.new, rest.now)) result (specs.texts_entry draft.old at end items.now) }
    ensures fetches { OnOk result (draft.new.fetches ≡ draft.old.fetches) }
    ensures constants { OnOk result (draft.new.constants ≡ draft.old.constants) }
{
    if draft.texts_binary {
        return Err(fault_at(MapRule::DoubleName, at));
    }
    let rest = sign("binary", end, items)?;
    let rest = sign(";", end, rest)?;
    draft.texts_binary = true;
    Ok(rest)
}

/// Takes what begins with an item, and gives what stands behind it. The keys are those of the patterns and the constants.
#[tactic(auto, unfolding(crate::specs::Maps::entry_at))]
fn take_entry<'a>(
    alloc: Global,
    schema: &Schema,
    draft: &mut Draft,
    patterns: &mut Keys,
    constants: &mut Keys,
    end: usize,
    item: &Item,
    rest: &'a [Item],
) -> Result<&'a [Item], Fail<MapFault>>
    requires patterns { patterns.old ≡ map pattern_key draft.old.fetches }
    requires constants { constants.old ≡ map constant_key draft.old.constants }
    ensures value { Gives (λ rest. (draft.new, rest.now)) result (specs.entry_at schema.now draft.old end item.now rest.now) }
    ensures patterns { OnOk result (patterns.new ≡ map pattern_key draft.new.fetches) }
    ensures constants { OnOk result (constants.new ≡ map constant_key draft.new.constants) }
{
    let at = item.from;
    if is_spelled("table", item) {
        take_table(alloc, schema, draft, end, rest)
    } else if is_spelled("fetch", item) {
        take_fetch(alloc, draft, patterns, end, rest)
    } else if is_spelled("constant", item) {
        take_constant(alloc, draft, constants, end, rest)
    } else if is_spelled("query", item) {
        take_template(alloc, draft, QueryKind::List, at, end, rest)
    } else if is_spelled("queryLong", item) {
        take_template(alloc, draft, QueryKind::Long, at, end, rest)
    } else if is_spelled("queryBoolean", item) {
        take_template(alloc, draft, QueryKind::Boolean, at, end, rest)
    } else if is_spelled("texts", item) {
        take_texts(draft, at, end, rest)
    } else {
        Err(fault_at(MapRule::Unexpected, at))
    }
}

/// What all items come to.
fn draft_of(
    alloc: Global,
    schema: &Schema,
    end: usize,
    items: &[Item],
) -> Result<Draft, Fail<MapFault>>
    ensures { Gives (λ d. d) result (specs.entries_at schema.now (length items.now) specs.no_draft end items.now) }
{
    let mut draft = no_draft(alloc);
    let mut patterns = Keys::new(alloc);
    let mut constants = Keys::new(alloc);
    let mut rest = items;
    // Each has an item at least.
    for _ in 0..items.len() {
        let [item, behind @ ..] = rest else {
            break;
        };
        rest = take_entry(
            alloc,
            schema,
            &mut draft,
            &mut patterns,
            &mut constants,
            end,
            item,
            behind,
        )?;
    }
    Ok(draft)
}

fn one_hides(list: &Template, long: &Template, truth: &Template) -> bool
    ensures { result ≡ specs.one_hides list.now long.now truth.now }
{
    hide(list, long) || hide(list, truth) || hide(long, truth)
}

/// The templates, where none hides another.
fn templates(
    alloc: Global,
    end: usize,
    list: Template,
    long: Template,
    truth: Template,
) -> Result<Items<Template>, Fail<MapFault>>
    ensures { Gives (λ ts. ts) result (specs.templates_of end list long truth) }
{
    if one_hides(&list, &long, &truth) {
        return Err(fault_at(MapRule::DoubleName, end));
    }
    let mut templates = Items::new(alloc);
    templates.push(list)?;
    templates.push(long)?;
    templates.push(truth)?;
    Ok(templates)
}

/// The map of what has been read. A template that is left out comes at the end.
#[tactic(auto, unfolding(crate::specs::Maps::map_of_draft))]
fn map_of_draft(alloc: Global, end: usize, draft: Draft) -> Result<ViewMap, Fail<MapFault>>
    ensures { Gives (λ m. m) result (specs.map_of_draft end draft) }
{
    let list = template_or(alloc, QueryKind::List, draft.list)?;
    let long = template_or(alloc, QueryKind::Long, draft.long)?;
    let truth = template_or(alloc, QueryKind::Boolean, draft.truth)?;
    Ok(ViewMap {
        classes: draft.classes,
        fetches: draft.fetches,
        constants: draft.constants,
        templates: templates(alloc, end, list, long, truth)?,
        texts_binary: draft.texts_binary,
    })
}

/// Reads a map of a schema's tables. The fault is the first in the text, and at one place the one of the smallest number. What a fault
/// speaks of, but for `Unexpected`, has been read up to its end: the head of a table up to its body, a member, a constant and a pattern up
/// to its semicolon. `Unexpected` stands at the item with which no map goes on, or at the end, and of a template without the holes of its
/// kind at its first item; `Unknown` at the name; `DoubleName` at the name, at the first item of a pattern, or at the word that begins
/// a template or `texts`; `Mismatch` at the type; `Nullable` at the name of the member. Of two templates of which one is the front of the
/// other the later one has the fault `DoubleName`, at its first item, and one that is left out comes at the end.
#[tactic(auto, unfolding(crate::specs::Maps::map_of))]
pub fn parse_map(alloc: Global, schema: &Schema, bytes: &[u8]) -> Result<ViewMap, Fail<MapFault>>
    ensures { Answers result (specs.map_of schema.now bytes.now) }
{
    let items = items(alloc, bytes)?;
    let draft = draft_of(alloc, schema, bytes.len(), items.as_slice())?;
    map_of_draft(alloc, bytes.len(), draft)
}
