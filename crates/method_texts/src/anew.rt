// The text of a source with some methods written anew.
ghost use Rattle.std.specs.Prelude.{◌≡◌, ◌∷◌, [], ◌++◌, IfOk, OnOk, map};
ghost use Rattle.java_ast.specs.Reading.{method as plain_method, program as plain_program};
ghost use Rattle.method_texts.specs.Anew.{methods_anew, text_anew as text_anew_of};

use crate::calls::has_call;
use crate::texts::method_text;
use java_ast::{Method, Program};
use qbs_base::{Bytes, NoMemory};
use std::alloc::Global;
use text_patches::{TextPatch, TextPatches, with_texts};

// Appends the text of a method, if a call stands in the one in whose place it is written.
fn put_anew(
    alloc: Global,
    patches: &mut TextPatches,
    m: &Method,
    other: &Method,
) -> Result<(), NoMemory>
    ensures { OnOk result (patches.new ≡ patches.old ++ methods_anew (plain_method m.now ∷ []) (plain_method other.now ∷ [])) }
{
    if !has_call(m.body.as_slice()) {
        return Ok(());
    }
    patches.push(TextPatch {
        from: m.span.start,
        to: m.span.end,
        text: method_text(alloc, other)?,
    })
}

#[tactic(auto, using(crate::proofs::Patches::anew))]
fn patches_of(alloc: Global, methods: &[Method], others: &[Method]) -> Result<TextPatches, NoMemory>
    ensures { IfOk result (λ patches. patches ≡ methods_anew (map plain_method methods.now) (map plain_method others.now)) }
{
    let mut patches = TextPatches::new(alloc);
    let mut rest = others;
    for m in methods {
        let Some((other, later)) = rest.split_first() else {
            break;
        };
        put_anew(alloc, &mut patches, m, other)?;
        rest = later;
    }
    Ok(patches)
}

/// The source of the first program in which each of its methods with a call is the one with its number in the second, in canonical layout
/// from its first token to its last. Only want of memory is an error.
pub fn text_anew(
    alloc: Global,
    source: &[u8],
    read: &Program,
    inlined: &Program,
) -> Result<Bytes, NoMemory>
    ensures { IfOk result (λ bytes. bytes ≡ text_anew_of source.now (plain_program read.now) (plain_program inlined.now)) }
{
    let patches = patches_of(alloc, read.methods.as_slice(), inlined.methods.as_slice())?;
    with_texts(alloc, source, patches.as_slice())
}
