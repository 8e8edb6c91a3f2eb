// A loop where it stands, lowered.
ghost use Rattle.std.specs.Prelude.{◌≡◌, Ok, IfOk, IfErr, map};
ghost use Rattle.java_ast.specs.Reading.{statement};
ghost use Rattle.java_mean.specs.Visible.{type_at};
ghost use Rattle.java_types.specs.Texts.{read_by};
ghost use Rattle.lowering.specs.InCode.Counted.{numbers_in_code};
ghost use Rattle.loop_text.specs.Statements.Fragment as fragment;
ghost use Rattle.lowering.specs.InCode.Locating.{fragment_located};
ghost use Rattle.lowering.specs.Lowers.{lowering_in_code};
ghost use Rattle.lowering.specs.InCode.Reading.{setting_in_code};
ghost use Rattle.loop_setting.specs.Reading.{fragment_in_code};
ghost use Rattle.java_ast.specs.Names.{names_lent};
ghost use Rattle.loop_text.specs.Sites.Reading.{site_of};
ghost use Rattle.java_loops.specs.Kernel.Setting.{setting_of};
ghost use Rattle.loop_text.specs.Sites.Sites as specs;
ghost use Rattle.lowering.specs.InCode.Verdicts.{BreaksNone, BreaksFirst, MayBeLowered, IsLoweredFrom};

use crate::lowering::beside::{lowering_with, needed_in_order};
use crate::lowering::lowered::Lowered;
use crate::numbering::numbers::Numbers;
use crate::places::position::Located;
use crate::rules::judging::judged;
use loop_places::outside::Outside;
use loop_setting::kept::accumulators::accumulators;
use loop_setting::kept::keeping::kept_of;
use loop_setting::kept::live::live_among;
use loop_setting::places::setting::Setting;
use loop_text::loops::counting::kernel_body;
use loop_text::sites::list::{Sites, sites_of};
use qbs_base::{Fail, Name, NoMemory, held};
use schema::Schema;
use std::alloc::Global;

// The lowered fragment of a loop that breaks no rule.
fn lower_unbroken(
    alloc: Global,
    w: &Setting,
    t: &Numbers,
    needed: &[&Name],
    first: u64,
) -> Result<Box<Lowered>, NoMemory>
    requires may { MayBeLowered (setting_in_code w.now) }
    requires unbroken { BreaksNone (setting_in_code w.now) (numbers_in_code t.now) }
    requires needed { names_lent needed.now ≡ fragment.needed_of (fragment_in_code w.now.fragment) }
    ensures { IfOk result (λ l. IsLoweredFrom (setting_in_code w.now) first (lowering_in_code l.value) l.value.first l.value.kept) }
{
    let names = needed_in_order(alloc, w, needed)?;
    let kept = kept_of(alloc, &w.fragment, t.entries.as_slice(), first)?;
    lowering_with(alloc, w, t, needed.len(), names.as_slice(), first, kept)
}

// The lowered fragment of a loop in its setting.
fn lower_setting(alloc: Global, w: &Setting, first: u64) -> Result<Box<Lowered>, Fail<Outside>>
    requires { MayBeLowered (setting_in_code w.now) }
    ensures lowered { IfOk result (λ l. IsLoweredFrom (setting_in_code w.now) first (lowering_in_code l.value) l.value.first l.value.kept) }
    ensures outside { IfErr result (BreaksFirst (setting_in_code w.now)) }
{
    let accs = accumulators(alloc, &w.fragment)?;
    let needed = live_among(alloc, &w.fragment, accs.names.as_slice())?;
    let t = judged(alloc, w, accs.names.as_slice(), needed.as_slice())?;
    Ok(lower_unbroken(alloc, w, &t, needed.as_slice(), first)?)
}

fn setting_there<'a>(schema: &'a Schema, there: &'a Located, sites: &'a Sites<'a>) -> Setting<'a>
    requires { map site_of sites.now ≡ specs.sites_of (statement there.now.looped.now) }
    ensures { setting_in_code result ≡ setting_of schema.now (read_by schema.now) (type_at there.now.types) (fragment_located there.now) }
{
    Setting {
        schema,
        fragment: there.fragment(),
        sites,
    }
}

// The lowered fragment of a loop with these sites.
fn lower_sited(
    alloc: Global,
    schema: &Schema,
    there: &Located,
    sites: &Sites,
) -> Result<Box<Lowered>, Fail<Outside>>
    requires may { MayBeLowered (setting_of schema.now (read_by schema.now) (type_at there.now.types) (fragment_located there.now)) }
    requires sites { map site_of sites.now ≡ specs.sites_of (statement there.now.looped.now) }
    ensures lowered { IfOk result (λ l.
        IsLoweredFrom (setting_of schema.now (read_by schema.now) (type_at there.now.types) (fragment_located there.now)) there.now.first (lowering_in_code l.value) l.value.first l.value.kept) }
    ensures outside { IfErr result (BreaksFirst (setting_of schema.now (read_by schema.now) (type_at there.now.types) (fragment_located there.now))) }
{
    let w = setting_there(&*schema, &*there, &*sites);
    lower_setting(alloc, &w, there.first)
}

/// The lowered fragment of a loop where it stands, and else the rule that it breaks first.
pub fn lower_located(
    alloc: Global,
    schema: &Schema,
    there: &Located,
) -> Result<Box<Lowered>, Fail<Outside>>
    requires { MayBeLowered (setting_of schema.now (read_by schema.now) (type_at there.now.types) (fragment_located there.now)) }
    ensures lowered { IfOk result (λ l.
        IsLoweredFrom (setting_of schema.now (read_by schema.now) (type_at there.now.types) (fragment_located there.now)) there.now.first (lowering_in_code l.value) l.value.first l.value.kept) }
    ensures outside { IfErr result (BreaksFirst (setting_of schema.now (read_by schema.now) (type_at there.now.types) (fragment_located there.now))) }
{
    let sites = held(
        alloc,
        sites_of(alloc, there.looped, kernel_body(there.looped)),
    )?;
    lower_sited(alloc, schema, there, &sites)
}
