//! Laws of marks, for the crates above. They do nothing.
ghost use Rattle.std.specs.Prelude.{ℕ};
ghost use Rattle.java_ast.specs.Names.{Names};
ghost use Rattle.call_parts.specs.Marks.{next_number, IsNextNumber};

/// The next number is the first one that is free.
#[tactic(auto, using(crate::proofs::Marks::next_number_is))]
pub fn next_numbers_are_free()
    ensures { (names : Names) (taken : ℕ) → IsNextNumber names taken (next_number names taken) }
{}
