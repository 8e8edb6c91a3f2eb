//! Laws of unnesting, for the crates above. They do nothing.
ghost use Rattle.std.specs.Prelude.{◌≡◌, ℕ, ◌≤◌, List};
ghost use Rattle.std.specs.declared.option.Option.TheVariants.{Some};
ghost use Rattle.qbs_base.specs.Values.{Schema};
ghost use Rattle.java_ast.specs.Path.{last_of, replaced_at, statement_at};
ghost use Rattle.java_ast.specs.Tree.{Statement, Statements, Nothing, Then, PlainProgram};
ghost use Rattle.java_mean.specs.Keeps.{Keeps};
ghost use Rattle.java_mean.specs.Numbers.{NumbersFit};
ghost use Rattle.java_mean.specs.Queries.{Reader};
ghost use Rattle.java_mean.specs.WellTyped.{IsWellTyped};
ghost use Rattle.java_types.specs.Texts.{read_by};
ghost use Rattle.spreads.specs.Spread.{spread_of};
ghost use Rattle.rewrite_core.specs.Asked.{Place, replaced};
ghost use Rattle.rewrite_core.specs.Asking.{MayBeAsked};
ghost use Rattle.rewrite_core.specs.TriedAsking.{AllMayBeAsked};
ghost use Rattle.rewrite_core.specs.Unnesting.{all_unnested, unnested};
ghost use Rattle.rewrite_core.specs.WorkedUnnesting.{WorkedUnnesting};

/// Others in place of the statement to which a path leads, and of those before it from a number on, make the same program where another
/// statement was put in its place before.
pub fn unnested_is_replaced()
    ensures { (p : PlainProgram) (path : List ℕ) (first : ℕ) (z : Statement) (x : Statements)
        → first ≤ last_of path
        → (s : Statement) → statement_at path p ≡ Some s
        → replaced_at path first x (replaced_at path (last_of path) (Then z Nothing) p) ≡ replaced_at path first x p }
{}

/// A well-typed program keeps what it does where a loop gives way to the asks that stand for its spread, if the spread may be asked for in
/// the program that has it in the loop's place. The program with the spread takes more turns, and isn't compared.
pub fn unnested_loop_keeps()
    ensures { (schema : Schema) (reader : Reader schema) (l : Place) (p : PlainProgram) (s z : Statement)
        → IsWellTyped schema reader.read p
        → NumbersFit p
        → statement_at l.path p ≡ Some s
        → spread_of schema reader.read s ≡ Some z
        → l.program ≡ replaced_at l.path (last_of l.path) (Then z Nothing) p
        → MayBeAsked schema reader.read l.program l.path l.setting l.candidate
        → Keeps p (replaced l) schema }
{}

/// A well-typed program whose literals have 64 bits keeps what it does where all loops are unnested, is well typed, and has literals of
/// 64 bits, if each spread for which a candidate was found may be asked for in the program that has it.
pub fn unnesting_keeps()
    ensures keeps { (schema : Schema) (size budget : ℕ) (p : PlainProgram)
        → IsWellTyped schema (read_by schema) p
        → NumbersFit p
        → AllMayBeAsked schema (all_unnested schema size budget p)
        → Keeps p (unnested schema size budget p) schema }
    ensures typed { (schema : Schema) (size budget : ℕ) (p : PlainProgram)
        → IsWellTyped schema (read_by schema) p
        → NumbersFit p
        → AllMayBeAsked schema (all_unnested schema size budget p)
        → IsWellTyped schema (read_by schema) (unnested schema size budget p) }
    ensures numbers { (schema : Schema) (size budget : ℕ) (p : PlainProgram)
        → IsWellTyped schema (read_by schema) p
        → NumbersFit p
        → AllMayBeAsked schema (all_unnested schema size budget p)
        → NumbersFit (unnested schema size budget p) }
{}

/// The loop of a worked program, which asks for the roles of each user, is unnested: its spread may be asked for, and the program that
/// comes of it asks once and keeps what the first one does.
#[tactic(auto, using(crate::proofs::ComputedUnnesting::worked_unnesting))]
pub fn worked_loops_are_unnested()
    ensures { WorkedUnnesting }
{}
