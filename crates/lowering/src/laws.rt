//! Laws of known queries, for the crates above. They do nothing.
ghost use Rattle.std.specs.Prelude.{ℕ, List};
ghost use Rattle.std.specs.declared.option.Option.{Option};
ghost use Rattle.qbs_base.specs.Values.{Schema};
ghost use Rattle.sql_ast.specs.Tree.{PlainQuery};
ghost use Rattle.java_ast.specs.Tree.{PlainProgram};
ghost use Rattle.java_loops.specs.Kernel.Kernel.{lowering};
ghost use Rattle.java_loops.specs.Kernel.Setting.{Setting};
ghost use Rattle.lowering.specs.Asked.{IsKernelLoop, HasQueriesOf, HasKnownQueries};
ghost use Rattle.lowering.specs.AskedWorked.{AsksForRoles};

/// In a well-typed program whose literals have 64 bits, the known queries of a loop that breaks no rule of the kernel form,
/// where they are queries of the schema, are those that emission asks for.
pub fn known_queries_are_known()
    ensures { (schema : Schema) (read : List ℕ → Option PlainQuery) (p : PlainProgram) (path : List ℕ) (w : Setting)
        → IsKernelLoop schema read p path w
        → HasQueriesOf schema (lowering w)
        → HasKnownQueries schema (lowering w) }
{}

/// A worked loop that tests a known list is of the kernel form, and its known query is one of the schema.
pub fn a_loop_asks_for_roles()
    ensures { (w : Setting) × AsksForRoles w }
{}
