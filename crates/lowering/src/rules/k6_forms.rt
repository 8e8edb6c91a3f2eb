// Which updates fit the kernel form.
ghost use Rattle.std.specs.Prelude.{◌≡◌, IfOk, option_copied, map, Some};
ghost use Rattle.java_ast.specs.Reading.{statement};
ghost use Rattle.java_loops.specs.Kernel.KernelForms as specs;
ghost use Rattle.loop_text.specs.Sites.Reading.{form_in_code, site_of};
ghost use Rattle.lowering.specs.InCode.Reading.{setting_in_code};

use java_mean::JavaType;
use loop_setting::places::setting::Setting;
use loop_text::loops::lists::{is_sorted_source, source_in};
use loop_text::sites::bindings::{Binding, binding_at};
use loop_text::sites::list::{Site, place_where};
use loop_text::updates::fitting::{fits_local, is_once, takes_best};
use loop_text::updates::forms::{Form, form_of};
use loop_text::updates::targets::target_of;
use qbs_base::{Name, NoMemory, Span};
use std::alloc::Global;

/// Whether a type is that of sets.
pub fn is_distinct(k: Option<JavaType>) -> bool
    ensures { result ≡ specs.is_distinct k }
{
    match k {
        Some(JavaType::Distinct(_)) => true,
        _ => false,
    }
}

fn first_is_sorted(w: &Setting) -> bool
    ensures { result ≡ specs.first_is_sorted (setting_in_code w.now) (map site_of w.now.sites.now) }
{
    match w.sites.as_slice().split_first() {
        None => false,
        Some((s, _)) => is_sorted_source(source_in(w.fragment.run, s.statement)),
    }
}

fn fits_outer(
    alloc: Global,
    w: &Setting,
    n: usize,
    s: &Site,
    x: &Name,
    form: Form,
) -> Result<bool, NoMemory>
    ensures { IfOk result (λ b. b ≡ specs.fits_outer (setting_in_code w.now) n (site_of s.now) x.now (form_in_code form.entry)) }
{
    match form {
        Form::Adds(_) => {
            Ok(!is_distinct(w.fragment.types.type_of(x)) || (is_once(s) && !first_is_sorted(w)))
        }
        Form::Counts => Ok(is_once(s)),
        Form::Sums(_) => Ok(is_once(s)),
        Form::Takes(c) => takes_best(alloc, w.sites, n, s, x, c),
        Form::Marks(_) => Ok(true),
        Form::Other => Ok(false),
    }
}

fn fits(
    alloc: Global,
    w: &Setting,
    n: usize,
    s: &Site,
    x: &Name,
    b: Binding,
) -> Result<bool, NoMemory>
    ensures { IfOk result (λ r. r ≡ specs.fits (setting_in_code w.now) n (site_of s.now) x.now b) }
{
    match b {
        Binding::Row(_) => Ok(false),
        Binding::Local(d) => Ok(fits_local(w.sites, s, d, form_of(w.sites, n, s.statement))),
        Binding::Outer => fits_outer(alloc, w, n, s, x, form_of(w.sites, n, s.statement)),
    }
}

fn fits_target(
    alloc: Global,
    w: &Setting,
    n: usize,
    s: &Site,
    x: Option<&Name>,
) -> Result<bool, NoMemory>
    ensures { IfOk result (λ r. r ≡ specs.fits_target (setting_in_code w.now) n (site_of s.now) (option_copied x.entry)) }
{
    match x {
        None => Ok(true),
        Some(x) => fits(alloc, w, n, s, x, binding_at(w.sites, n, x)),
    }
}

#[tactic(auto, using(loop_text::proofs::Trees::Rounds::rounds))]
fn broken_form(alloc: Global, w: &Setting, n: usize, s: &Site) -> Result<Option<Span>, NoMemory>
    ensures { IfOk result (λ at. at ≡ specs.broken_form (setting_in_code w.now) n (site_of s.now)) }
{
    let fits = fits_target(alloc, w, n, s, target_of(s.statement))?;
    Ok(place_where(!fits, s.statement.span))
}

/// K6: the first update that has none of the forms, or stands where its form may not stand.
pub fn broken_forms(alloc: Global, w: &Setting) -> Result<Option<Span>, NoMemory>
    ensures { IfOk result (λ at. at ≡ specs.broken_forms (setting_in_code w.now)) }
{
    for (n, s) in w.sites.as_slice().iter().enumerate() {
        if let Some(at) = broken_form(alloc, w, n, s)? {
            return Ok(Some(at));
        }
    }
    Ok(None)
}
