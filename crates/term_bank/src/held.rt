// What a bank holds, and what is put into it.
ghost use Rattle.std.specs.Prelude.{◌≡◌, ◌<◌, Some, [], IfOk, IfSome, OnErr, length, slice_get};
ghost use Rattle.tor_terms.specs.Plain.{tree_of};
ghost use Rattle.term_bank.specs.Banks.{IsBank, IsFrontOf, with_term};
ghost use Rattle.term_bank.specs.Held.{terms_in};

use crate::bank::TermBank;
use crate::entering::{enter_parts, find};
use qbs_base::NoMemory;
use std::alloc::Global;
use std::mem;
use tor_terms::{Term, copy_term};

impl TermBank {
    /// A bank of nothing. It takes no memory.
    pub fn new(alloc: Global) -> TermBank
        ensures { terms_in result ≡ [] }
    {
        TermBank {
            terms: Vec::new(alloc),
        }
    }

    /// How many terms it holds. It takes no memory.
    pub fn len(&self) -> usize
        ensures count { result ≡ length (terms_in self.now) }
        ensures well { IsBank (terms_in self.now) }
    {
        self.terms.len()
    }

    /// The place of a term, where it is held.
    pub fn place_of(&self, term: &Term) -> Option<usize>
        ensures { IfSome result (λ n. slice_get (terms_in self.now) n ≡ Some (tree_of term.now)) }
    {
        find(self.terms.as_slice(), term)
    }

    /// The term at a place.
    pub fn term(&self, alloc: Global, number: usize) -> Result<Term, NoMemory>
        requires { number < length (terms_in self.now) }
        ensures { IfOk result (λ t. slice_get (terms_in self.now) number ≡ Some (tree_of t)) }
    {
        copy_term(alloc, &self.terms[number])
    }

    /// Puts a term behind the others, and before it those of its parts that aren't there, children first and the left one before the right.
    /// It gives the place of the term. Only want of memory is an error, and changes nothing.
    pub fn put(&mut self, alloc: Global, term: &Term) -> Result<usize, NoMemory>
        ensures with { IfOk result (λ n. terms_in self.new ≡ with_term (terms_in self.old) (tree_of term.now)) }
        ensures place { IfOk result (λ n. slice_get (terms_in self.new) n ≡ Some (tree_of term.now)) }
        ensures grows { IsFrontOf (terms_in self.old) (terms_in self.new) }
        ensures err { OnErr result (terms_in self.new ≡ terms_in self.old) }
    {
        let mut terms = mem::replace(&mut self.terms, Vec::new(alloc));
        let len = terms.len();
        match enter_parts(alloc, &mut terms, term) {
            Ok(n) => {
                self.terms = terms;
                Ok(n)
            }
            Err(e) => {
                terms.truncate(len);
                self.terms = terms;
                Err(e)
            }
        }
    }
}
