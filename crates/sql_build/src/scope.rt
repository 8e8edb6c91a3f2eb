// The loops that a SELECT sees.
ghost use Rattle.std.specs.Prelude.{◌≡◌};

/// The loops in FROM of a SELECT, and those of the SELECT round it, if there is one.
#[derive(Clone, Copy)]
pub struct Scope<'a> {
    pub own: &'a [u32],
    pub outer: &'a [u32],
}

/// What a SELECT over these loops sees inside of another.
pub fn inside<'a>(own: &'a [u32], outer: Scope<'a>) -> Scope<'a>
    ensures own { result.own.now ≡ own.now }
    ensures outer { result.outer.now ≡ outer.entry.own.now }
{
    Scope {
        own,
        outer: outer.own,
    }
}
