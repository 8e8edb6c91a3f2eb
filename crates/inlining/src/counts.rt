// How many statements may still be written, and what a walk over statements answers.
ghost use Rattle.inlining.specs.Walked.{IsSpent};

/// The last number that was taken for a mark, how many more statements may be written, and how many more blocks may stand in one another:
/// the stack is memory too.
#[derive(Clone, Copy)]
pub struct Counts {
    pub taken: u64,
    pub left: u64,
    pub deep: u32,
}

/// Whether what comes in place of something is pushed, or has more statements than may be written.
#[derive(Clone, Copy)]
pub enum Walked {
    Pushed,
    Full,
}

/// Takes one of the statements that may still be written, if there is one.
pub fn spend(counts: &mut Counts) -> Walked
    ensures { IsSpent result counts.old counts.new }
{
    if counts.left == 0 {
        return Walked::Full;
    }
    counts.left -= 1;
    Walked::Pushed
}
