// What is known of an atom.
ghost use Rattle.std.specs.Prelude.{◌≡◌};
ghost use Rattle.deriv_parts.specs.Known as spec;

/// What facts say of an atom.
#[derive(Clone, Copy, PartialEq, Eq)]
pub enum Known {
    Yes,
    No,
    Open,
}

/// Whether it is known to be so.
pub fn is_yes(known: Known) -> bool
    ensures { result ≡ spec.is_yes known }
{
    match known {
        Known::Yes => true,
        Known::No | Known::Open => false,
    }
}

/// Whether what is known says that a literal is false.
pub fn denies(known: Known, holds: bool) -> bool
    ensures { result ≡ spec.denies known holds }
{
    match known {
        Known::Yes => !holds,
        Known::No => holds,
        Known::Open => false,
    }
}
