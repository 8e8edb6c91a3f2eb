//! Laws of banks of terms, for the crates above. They do nothing.
ghost use Rattle.term_bank.specs.Worked.{Worked};

/// What a bank holds after terms with common parts were put.
pub fn worked_terms_share_their_parts()
    ensures { Worked }
{}
