//! What unnesting writes, as laws: the program that is left can be written, and the text is read back as it. They do nothing.
ghost use Rattle.std.specs.Prelude.{ℕ, List};
ghost use Rattle.qbs_base.specs.Values.{Schema};
ghost use Rattle.java_ast.specs.Tree.{PlainProgram};
ghost use Rattle.java_grammar.specs.InGrammar.{IsInGrammar};
ghost use Rattle.java_grammar.specs.ReadBack.{IsReadBack};
ghost use Rattle.java_grammar.specs.Written.{IsWritten};
ghost use Rattle.rewrite_core.specs.Output.{IsSourceOf};
ghost use Rattle.rewrite_core.specs.Patches.{patched_text};
ghost use Rattle.rewrite_core.specs.TriedAsking.{AllMayBeAsked};
ghost use Rattle.rewrite_core.specs.Unnesting.{all_unnested, unnested};

/// A program whose loops are unnested is of the grammar and can be written as a text, where the first one is and can: its canonical text has
/// it. The program with a spread in it need not be of the grammar, since the spread reads its rows, and these may be walked under a name that
/// is never read, as `Long`. But what comes in place of the spread reads only what was visible before the loop.
pub fn unnested_programs_are_written()
    ensures { (schema : Schema) (size budget : ℕ) (p : PlainProgram)
        → AllMayBeAsked schema (all_unnested schema size budget p)
        → IsInGrammar p
        → IsWritten p
        → IsInGrammar (unnested schema size budget p) × IsWritten (unnested schema size budget p) }
{}

/// The source in which the loops that were unnested are replaced is a text of the program that is left, but for places: the loop ends where
/// its spread does, and its run begins where it did.
pub fn unnested_texts_are_read_back()
    ensures { (schema : Schema) (size budget : ℕ) (source : List ℕ) (p : PlainProgram)
        → IsSourceOf source p
        → AllMayBeAsked schema (all_unnested schema size budget p)
        → IsReadBack (patched_text source (all_unnested schema size budget p)) (unnested schema size budget p) }
{}
