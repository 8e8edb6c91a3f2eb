// Whether a text is read back as the program of a canonical text.
ghost use Rattle.std.specs.Prelude.{◌≡◌, ◌↔◌, IfOk, IfSome, IsSomeAnd, IsTrue};
ghost use Rattle.java_ast.specs.Reading.{program as plain_program};
ghost use Rattle.java_ast.specs.Tree.{PlainProgram};
ghost use Rattle.java_grammar.specs.InGrammar.{IsInGrammar};
ghost use Rattle.java_grammar.specs.ReadBack.{IsReadBack};
ghost use Rattle.java_grammar.specs.Written.{IsWritten};
ghost use Rattle.java_text.specs.Canonical.{canonical as canonical_of};
ghost use Rattle.kept_texts.specs.Programs.{HasProgram, HasOne};

use java_ast::Program;
use java_lex::lex;
use java_parser::parse_grammar;
use java_text::print_program;
use qbs_base::{Fail, NoMemory};
use std::alloc::Global;

// The program of a text, if it has one.
fn program_of(alloc: Global, text: &[u8]) -> Result<Option<Program>, NoMemory>
    ensures found { IfOk result (λ r. IfSome r (λ p. HasProgram text.now (plain_program p))) }
    ensures only { (x : PlainProgram) → HasProgram text.now x → IfOk result (λ r. IsSomeAnd r (λ p. plain_program p ≡ x)) }
{
    match lex(alloc, text) {
        Ok(tokens) => parse_grammar(alloc, &tokens),
        Err(Fail::Fault(_)) => Ok(None),
        Err(Fail::NoMemory) => Err(NoMemory),
    }
}

// Whether a text has a program. Reading it shows that it has no other one.
fn has_program(alloc: Global, text: &[u8]) -> Result<bool, NoMemory>
    ensures some { (x : PlainProgram) → HasProgram text.now x → IfOk result (λ b. IsTrue b) }
    ensures one { IfOk result (λ b. HasOne text.now) }
{
    let program = program_of(alloc, text)?;
    Ok(program.is_some())
}

// Whether a text is the canonical one of a program.
fn is_text_of(alloc: Global, program: &Program, text: &[u8]) -> Result<bool, NoMemory>
    ensures { IfOk result (λ b. IsTrue b ↔ (canonical_of (plain_program program.now) ≡ text.now)) }
{
    let printed = print_program(alloc, program)?;
    Ok(printed.as_slice() == text)
}

/// Whether a text is read back as the program of which another one is the canonical text. That one is read too, where the text has a program
/// with that canonical text. Only want of memory is an error.
pub fn is_read_as(alloc: Global, text: &[u8], canonical: &[u8]) -> Result<bool, NoMemory>
    ensures { IfOk result (λ b. (p : PlainProgram) → IsInGrammar p → IsWritten p → canonical_of p ≡ canonical.now → IsTrue b ↔ IsReadBack text.now p) }
{
    match program_of(alloc, text)? {
        None => Ok(false),
        Some(program) => {
            if is_text_of(alloc, &program, canonical)? {
                has_program(alloc, canonical)
            } else {
                Ok(false)
            }
        }
    }
}
