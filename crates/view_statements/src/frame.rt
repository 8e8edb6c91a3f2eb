// Where a statement of a slice stands, and what is fixed round it.
ghost use Rattle.std.specs.Prelude.{◌≡◌};
ghost use Rattle.view_statements.specs.Places as specs;

use view_rules::Within;

/// What is fixed while one slice is looked at, with the closing bracket of each item of the file, and the end of the method's body.
#[derive(Drop)]
pub struct Frame<'a> {
    pub within: &'a Within<'a>,
    pub closings: &'a [usize],
    pub end: usize,
}

/// Whether a loop of the slice stands round a statement; whether it is of the slice's own level; whether it stands directly in the block of a
/// for-each; and the literal that is returned where it stands in the for-each of a group.
#[derive(Clone, Copy)]
pub struct Place {
    pub looped: bool,
    pub top: bool,
    pub direct: bool,
    pub found: Option<bool>,
}

/// The slice's own level.
pub fn at_top() -> Place
    ensures { result ≡ specs.at_top }
{
    Place {
        looped: false,
        top: true,
        direct: false,
        found: None,
    }
}

/// In a body that no loop is.
pub fn inside(p: Place) -> Place
    ensures { result ≡ specs.inside p }
{
    Place {
        looped: p.looped,
        top: false,
        direct: false,
        found: p.found,
    }
}

/// Behind a `continue` that is skipped, in the same block.
pub fn beside(p: Place) -> Place
    ensures { result ≡ specs.beside p }
{
    Place {
        looped: p.looped,
        top: false,
        direct: true,
        found: p.found,
    }
}

/// In the body of a loop, directly in the block of a for-each where `direct`.
pub fn in_loop(p: Place, direct: bool) -> Place
    ensures { result ≡ specs.in_loop p direct }
{
    Place {
        looped: true,
        top: false,
        direct,
        found: p.found,
    }
}
