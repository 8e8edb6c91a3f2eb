// The text of a program that keeps what it can of a source.
ghost use Rattle.std.specs.Prelude.{IfOk};
ghost use Rattle.java_ast.specs.Reading.{program as plain_program};
ghost use Rattle.java_grammar.specs.InGrammar.{IsInGrammar};
ghost use Rattle.java_grammar.specs.Written.{IsWritten};
ghost use Rattle.kept_texts.specs.Kept.{IsTextFor};

use crate::reading::is_read_as;
use java_ast::Program;
use java_text::print_program;
use qbs_base::{Bytes, NoMemory};
use std::alloc::Global;

/// The text, if it is read back as the program, and else the program's canonical text. Only want of memory is an error, the stack's too,
/// as for `parse_grammar`.
pub fn text_for(alloc: Global, text: Bytes, program: &Program) -> Result<Bytes, NoMemory>
    requires grammar { IsInGrammar (plain_program program.now) }
    requires written { IsWritten (plain_program program.now) }
    ensures { IfOk result (IsTextFor text (plain_program program.now)) }
{
    let canonical = print_program(alloc, program)?;
    if is_read_as(alloc, text.as_slice(), canonical.as_slice())? {
        Ok(text)
    } else {
        Ok(Bytes::from_vec(canonical.into_vec()))
    }
}
