//! Laws of terms, for the crates above. They do nothing.
ghost use Rattle.tor_terms.specs.Worked.{Worked};

/// Terms are evaluated to these values in a small environment, and others don't fit it.
pub fn worked_terms_have_their_values()
    ensures { Worked }
{}
