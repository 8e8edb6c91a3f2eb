// What is wrong with a fragment that isn't valid.
use thiserror::Error;

/// A sentence that each valid fragment meets. Those of the whole fragment are tried before those of
/// each accumulator, and the number of conditions last.
#[derive(Clone, Copy, Debug, PartialEq, Eq, Error)]
pub enum Sentence {
    /// There are at most 256 loops, 8 accumulators, 24 atoms, 9 entries, and 16 formulas in a pool.
    #[error("too many parts")]
    Size,
    /// Every loop, atom, entry, known list and accumulator that is named by a number is there.
    #[error("a number names nothing")]
    Names,
    /// A comparison has a field among its operands, any other test is of a field.
    #[error("an atom without a field")]
    Operands,
    /// A flag that is read is declared inside the loops at which it is read, and reads no flag.
    #[error("a flag that is none, or that reads a flag")]
    Flags,
    /// Limits have 63 bits and stand in fragments of one loop, beside a sort only with what is
    /// appended whole; sets, counts and sums have one loop, and that of a set isn't sorted.
    #[error("a limit, a sort or a loop that an update does not allow")]
    Limits,
    /// Every chain is strictly increasing and not longer than three, its base is below its length,
    /// and it has one guard for each loop.
    #[error("a chain is not valid")]
    Chain,
    /// Only a flag has a base above 0 or is kept by its opposite.
    #[error("an accumulator that is no flag has a base or is kept by its opposite")]
    Base,
    /// A guard reads loops of its chain up to its level, a pool and an element loops of the chain.
    #[error("a guard, a pool or an element reads a loop that is not round it")]
    Loops,
    /// A guard reads a flag only at the level of its declaration, behind the flag's own guard.
    #[error("a flag is read out of its place")]
    Reading,
    /// An accumulator starts with what its update asks for, and adds and compares fields.
    #[error("an accumulator that does not start rightly")]
    Start,
    /// There are at most 4096 conditions.
    #[error("too many conditions")]
    Conditions,
}
