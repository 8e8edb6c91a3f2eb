//! That rewritten programs are of the grammar and can be written as texts, as laws. They do nothing.
ghost use Rattle.qbs_base.specs.Values.{Schema};
ghost use Rattle.java_mean.specs.Queries.{Reader};
ghost use Rattle.java_grammar.specs.InGrammar.{IsInGrammar};
ghost use Rattle.java_grammar.specs.Written.{IsWritten};
ghost use Rattle.rewrite_core.specs.Asked.{Place, replaced};
ghost use Rattle.rewrite_core.specs.Asking.{HasAsks};
ghost use Rattle.rewrite_core.specs.Worked.{asking_once};

/// A program in which a loop gives way to the asks that stand for it is a program of the grammar that can be written as a text,
/// where the program with the loop is one: its canonical text has it. The kept statements stood there before, the asks'
/// variables and types are those of the run, their arguments read what the loop and its run read, and the texts of their queries
/// are UTF-8.
pub fn replaced_programs_are_written()
    ensures { (schema : Schema) (reader : Reader schema) (l : Place)
        → HasAsks schema reader.read l.program l.path l.setting l.candidate
        → IsInGrammar l.program
        → IsWritten l.program
        → IsInGrammar (replaced l) × IsWritten (replaced l) }
{}

/// So it is for a worked class whose loop tests a known list: the class in which the loop has given way to its query is of the
/// grammar and can be written.
pub fn a_class_that_asks_is_written()
    ensures { IsInGrammar asking_once × IsWritten asking_once }
{}
