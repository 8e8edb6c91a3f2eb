// What a command would write is read again.
ghost use Rattle.std.specs.Prelude.{OnOk};
ghost use Rattle.java_ast.specs.Tree.{PlainProgram};
ghost use Rattle.plans.specs.Opening.{IsProgramOf};

use plans::opening::open_program;
use qbs_base::NoMemory;
use schema::Schema;
use std::alloc::Global;

/// A text is read as a source under a schema. Want of memory is the answer where it can't be: bodies that stand in one another may go deeper, and a
/// query weigh more, than what is read. Whatever is written could be asked for again.
pub fn read_again(alloc: Global, schema: &Schema, text: &[u8]) -> Result<(), NoMemory>
    ensures { OnOk result ((p : PlainProgram) × IsProgramOf schema.now text.now p) }
{
    match open_program(alloc, schema, text) {
        Ok(_typed) => Ok(()),
        Err(_stop) => Err(NoMemory),
    }
}
