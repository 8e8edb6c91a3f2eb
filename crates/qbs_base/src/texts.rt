// Bytes and texts, which contracts see as lists of bytes.
ghost use Rattle.std.specs.Prelude.{◌≡◌, ◌==◌, ℕ, List, IsUtf8, IfSome, IsSome, IfOk, string_bytes, Some};
ghost use Rattle.std.proofs.Common.{rules};
ghost use Rattle.std.specs.Cmp;
ghost use Rattle.std.specs.Cmp.Lexicographic.{pointwise, slice_cmp, nat_list_eq_equiv, nat_list_cmp_total, texts_ties, texts_po};
ghost use Rattle.std.specs.Ordering.{nat_cmp};

use crate::Items;
use std::alloc::{AllocError, Global};
use std::cmp::Ordering;
use std::marker::Model;

/// Bytes of any kind.
pub type Bytes = Items<u8>;

/// Bytes that are UTF-8.
#[derive(Clone, Drop)]
pub struct Text {
    items: String,
}

impl Model for Text {
    ghost Value = { List ℕ };

    ghost view = { λ a. string_bytes a.items };
}

impl Text {
    pub fn from_string(items: String) -> Text
        ensures { result ≡ string_bytes items }
    {
        Text { items }
    }

    pub fn from_str(alloc: Global, text: &str) -> Result<Text, AllocError>
        ensures { IfOk result (λ t. t ≡ text.now) }
    {
        Ok(Text {
            items: String::from_str(alloc, text)?,
        })
    }

    /// None only where the bytes aren't UTF-8. It takes no memory.
    pub fn from_vec(items: Vec<u8>) -> Option<Text>
        ensures value { IfSome result (λ t. t ≡ items.items) }
        ensures some { IsUtf8 items.items → IsSome result }
        ensures utf8 { IfSome result (λ t. IsUtf8 t) }
    {
        match String::from_utf8(items) {
            Ok(items) => {
                let _ = items.as_str();
                Some(Text { items })
            }
            Err(_) => None,
        }
    }

    pub fn into_vec(self) -> Vec<u8>
        ensures { result.items ≡ self }
    {
        self.items.into_bytes()
    }

    pub fn as_str(&self) -> &str
        ensures { result.now ≡ self.now }
    {
        self.items.as_str()
    }

    pub fn as_slice(&self) -> &[u8]
        ensures { result.now ≡ self.now }
    {
        self.items.as_bytes()
    }
}

impl PartialEq for Text {
    ghost eq = { pointwise ◌==◌ };

    ghost laws = { Cmp.partial_equiv_from_equiv nat_list_eq_equiv };

    fn eq(&self, other: &Text) -> bool {
        self.as_str() == other.as_str()
    }
}

impl Eq for Text {
    ghost laws = { nat_list_eq_equiv };
}

impl PartialOrd for Text {
    ghost partial_cmp = { λ x y. Some (slice_cmp nat_cmp x y) };

    ghost laws = { texts_po };

    fn partial_cmp(&self, other: &Text) -> Option<Ordering> {
        Some(self.cmp(other))
    }
}

impl Ord for Text {
    ghost cmp = { slice_cmp nat_cmp };

    ghost total = { nat_list_cmp_total };

    ghost matches_partial_cmp = { Prim.search rules };

    ghost matches_eq = { texts_ties };

    fn cmp(&self, other: &Text) -> Ordering {
        self.as_str().cmp(other.as_str())
    }
}

/// A name, as of a table, a column, a class, a method or a variable.
pub type Name = Text;

pub type Names = Items<Name>;

pub type Texts = Items<Text>;

/// The words of a command line, without the program's own name.
pub type Words = Items<Text>;
