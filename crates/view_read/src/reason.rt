// Why a statement isn't seen.
use qbs_base::Fail;

/// Why a loop, or the statement round it, isn't seen. The reasons are numbered from 1 in this order.
#[derive(Clone, Copy, PartialEq, Eq)]
pub enum Reason {
    /// Nothing of the file is seen.
    Class,
    /// The member is no method that is seen.
    Member,
    /// A type.
    Type,
    /// A name that isn't in sight, that isn't known, or that isn't free.
    Name,
    Expression,
    Statement,
    /// Boxed values that aren't compared by their values.
    Boxed,
    /// A test for null, or a variable that may be null.
    Null,
    /// A list, a set or a whole row from outside.
    Outside,
    /// The method isn't well typed.
    Typed,
    /// Nothing is fetched or asked.
    Asks,
    /// Texts that the database compares in another way.
    Texts,
}

/// The first failure inside a statement: its reason, and the number of the item where it is.
#[derive(Clone, Copy, PartialEq, Eq)]
pub struct Unseen {
    pub reason: Reason,
    pub at: usize,
}

impl Reason {
    /// Its number, from 1 to 12.
    pub fn number(self) -> u64 {
        match self {
            Reason::Class => 1,
            Reason::Member => 2,
            Reason::Type => 3,
            Reason::Name => 4,
            Reason::Expression => 5,
            Reason::Statement => 6,
            Reason::Boxed => 7,
            Reason::Null => 8,
            Reason::Outside => 9,
            Reason::Typed => 10,
            Reason::Asks => 11,
            Reason::Texts => 12,
        }
    }
}

pub fn miss(reason: Reason, at: usize) -> Fail<Unseen> {
    Fail::Fault(Unseen { reason, at })
}
