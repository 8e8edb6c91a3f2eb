// A fragment in its program.
ghost use Rattle.std.specs.Prelude.{◌≡◌};
ghost use Rattle.java_ast.specs.Reading.{statements};
ghost use Rattle.java_ast.specs.Names.{with_names, declared_among};
ghost use Rattle.java_mean.specs.Visible.{names_seen};

use java_ast::Stmt;
use java_mean::Scope;
use loop_text::sites::list::Sites;
use schema::Schema;

/// A loop and the run before it: the names that are visible before the run, those that are visible at the loop with
/// their types, the run, the loop, and what stands behind it in its block.
#[derive(Clone, Copy)]
pub struct Fragment<'a> {
    pub visible: &'a Scope<'a>,
    pub types: &'a Scope<'a>,
    pub run: &'a [Stmt],
    pub looped: &'a Stmt,
    pub behind: &'a [Stmt],
    ghost scoped: { names_seen types.now ≡ with_names (names_seen visible.now) (declared_among (statements run.now)) },
}

/// A fragment under a schema, with the sites of its loop.
#[derive(Clone, Copy)]
pub struct Setting<'a> {
    pub schema: &'a Schema,
    pub fragment: Fragment<'a>,
    pub sites: &'a Sites<'a>,
}
