// Which variables of a loop are live, and which names are followed.
ghost use Rattle.std.specs.Prelude.{◌≡◌, ◌||◌, nat_lt};

/// Whether a variable is live: it is visible before the run, or mentioned behind the loop.
pub fn is_live(visible: bool, mentioned: bool) -> bool
    ensures { result ≡ (visible || mentioned) }
{
    visible || mentioned
}

/// Whether names are left to be followed of so many, where this many have been.
pub fn are_left(names: usize, followed: usize) -> bool
    ensures { result ≡ nat_lt followed names }
{
    followed < names
}
