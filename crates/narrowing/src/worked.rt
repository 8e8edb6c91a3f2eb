//! A worked program, as a law that computes. It does nothing.
ghost use Rattle.std.specs.Prelude.{◌≡◌, ◌∷◌, [], codes};
ghost use Rattle.sql_ast.specs.Worked.{staff_schema};
ghost use Rattle.spreads.specs.WorkedNarrow.{program_of, declaring, users, users_asked};
ghost use Rattle.narrowing.specs.Narrowing.{patch_of, all_narrowed};
ghost use Rattle.narrowing.specs.Reports.{report_text};
ghost use Rattle.narrowing.specs.Worked.{walks, said_of};

/// The worked walks, of which the last begins at a byte where a query stands for it: what is said of each, and the program in which the first
/// asks for the rows that it wants, in place of its fetch. And the walk of a list that is declared before.
pub fn worked_walks_are_narrowed()
    ensures program { (all_narrowed staff_schema (70 ∷ []) (walks users)).program ≡ walks users_asked }
    ensures walks { (all_narrowed staff_schema (70 ∷ []) (walks users)).walks ≡ said_of }
    ensures patches { (all_narrowed staff_schema (70 ∷ []) (walks users)).patches ≡ patch_of users_asked ∷ [] }
    ensures declared { (all_narrowed staff_schema [] (program_of (declaring users))).program ≡ program_of (declaring users_asked) }
{}

/// What is reported of them.
pub fn worked_walks_are_reported()
    ensures { report_text said_of
        ≡ codes "loop 1:5 narrowed\nloop 3:5 stays Inside\nloop 4:5 stays List\nloop 5:5 stays Body\nloop 6:5 stays Condition\nloop 7:5 stays Covered\nnarrowed 1\n" }
{}
