// A class of one slice alone, and the class of the method that rewriting left of it.
ghost use Rattle.std.specs.Prelude.{◌≡◌, ◌∷◌, [], IfOk, true, map};
ghost use Rattle.java_ast.specs.Reading.{method as plain_method, program as plain_program};
ghost use Rattle.java_grammar.specs.ReadBack.{IsReadBack};
ghost use Rattle.java_grammar.specs.InGrammar.{IsInGrammar};
ghost use Rattle.java_grammar.specs.Written.{IsWritten};
ghost use Rattle.method_texts.specs.Alone.{alone as alone_of};
ghost use Rattle.view_slices.specs.Reading.{slice as plain_slice};
ghost use Rattle.view_slices.specs.Slices.{file_of};
ghost use Rattle.view_text.specs.Layout.{laid_out};
ghost use Rattle.qbs.specs.SeenAgain.{stood_in, slice_class};

use crate::written::Source;
use java_ast::{Method, Methods, Program};
use java_copies::copy_statements;
use kept_texts::text_for;
use qbs_base::{Bytes, Items, Name, NoMemory, Texts};
use renamed_copies::method_with;
use std::alloc::Global;
use view_rules::push_all_made;
use view_shapes::File;
use view_slices::{put_method, slice_name, within};
use view_statements::{Read, Slice};
use view_text::lay_out;

fn copied(alloc: Global, m: &Method) -> Result<Methods, NoMemory>
    ensures { IfOk result (λ ms. map plain_method ms ≡ plain_method m.now ∷ []) }
{
    let mut methods = Methods::new(alloc);
    let body = copy_statements(alloc, m.body.as_slice())?;
    methods.push(method_with(alloc, m, body)?)?;
    Ok(methods)
}

/// A class with a copy of a method.
pub fn alone(alloc: Global, m: &Method) -> Result<Program, NoMemory>
    ensures { IfOk result (λ p. plain_program p ≡ alone_of (plain_method m.now)) }
{
    Ok(Program {
        package: None,
        imports: Texts::new(alloc),
        public: false,
        name: Name::from_str(alloc, "C")?,
        methods: copied(alloc, m)?,
    })
}

/// The text of the class of one slice, which is seen as the method with a number, counted from 1.
pub fn class_text(
    alloc: Global,
    source: &Source,
    file: &File,
    read: &Read,
    slice: &Slice,
    number: u64,
) -> Result<Bytes, NoMemory>
    ensures { IfOk result (λ text. text ≡ laid_out (slice_class source.now.map.now source.now.schema.now (file_of file.now) number (stood_in read.now (plain_slice slice.now)))) }
{
    let mut cells = Items::new(alloc);
    let w = within(source.map, source.schema.tables(), file, &read.words, slice);
    let class = file.class;
    push_all_made(alloc, &w, class.name, &[b"class", b"C", b"{"], &mut cells)?;
    let name = slice_name(alloc, number)?;
    put_method(alloc, &w, name.as_slice(), slice, &mut cells)?;
    push_all_made(alloc, &w, class.to, &[b"}"], &mut cells)?;
    lay_out(alloc, cells.as_slice())
}

/// Whether a text is one of a program.
pub fn is_text_of(alloc: Global, text: &Bytes, program: &Program) -> Result<bool, NoMemory>
    requires grammar { IsInGrammar (plain_program program.now) }
    requires written { IsWritten (plain_program program.now) }
    ensures { IfOk result (λ is. is ≡ true → IsReadBack text.now (plain_program program.now)) }
{
    let copy = Bytes::from_vec(text.as_slice().to_vec(alloc)?);
    let kept = text_for(alloc, copy, program)?;
    Ok(kept.as_slice() == text.as_slice())
}
