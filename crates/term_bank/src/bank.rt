// Banks of terms.
ghost use Rattle.std.specs.Prelude.{map};
ghost use Rattle.tor_terms.specs.Plain.{tree_of};
ghost use Rattle.term_bank.specs.Banks.{IsBank};

use tor_terms::Term;

/// A bank of terms: each term stands once in it, behind its children.
#[derive(Drop)]
pub struct TermBank {
    pub(crate) terms: Vec<Term>,
    ghost well: { IsBank (map tree_of terms.items) },
}
