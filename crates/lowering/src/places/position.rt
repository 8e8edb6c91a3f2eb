// A loop where it stands in a program.
ghost use Rattle.std.specs.Prelude.{◌≡◌};
ghost use Rattle.java_ast.specs.Reading.{statements};
ghost use Rattle.java_ast.specs.Names.{with_names, declared_among};
ghost use Rattle.java_mean.specs.Visible.{names_seen};

use java_ast::Stmt;
use java_mean::Scope;

/// A loop and the run before it, with the names that are visible before the run and those that are visible at the loop, what
/// stands behind the loop in its block, and the number of the run's first statement in the block, or of the loop where the run
/// is empty.
#[derive(Drop)]
pub struct Located<'a> {
    pub visible: Scope<'a>,
    pub types: Scope<'a>,
    pub run: &'a [Stmt],
    pub looped: &'a Stmt,
    pub behind: &'a [Stmt],
    pub first: u64,
    ghost scoped: { names_seen types ≡ with_names (names_seen visible) (declared_among (statements run.now)) },
}

/// A loop in its block: the run before it, the loop, what stands behind it, and the number of the run's first statement, or of
/// the loop where the run is empty.
#[derive(Clone, Copy)]
pub struct Spot<'a> {
    pub run: &'a [Stmt],
    pub looped: &'a Stmt,
    pub behind: &'a [Stmt],
    pub first: u64,
}
