//! Laws of the chains that a fragment has for the variables of its loops. They do nothing.
ghost use Rattle.java_loops.specs.Walks.ChainLaws.{FormulasAreTests, FormulasStay, BeginningsMatch, StartsSuit, AtomsFit, UpdatesFit, ColumnsFit, PartsOfLoopsFit, StatementsAreRuns, BlocksAreRuns, FlagsAreRuns, LoopsAreRuns, AccumulatorsAreRuns, AccumulatorsEndAs, TurnsEndAs, FragmentsEndAs};
ghost use Rattle.java_loops.specs.Walks.ChainExample.{WorkedChains, WorkedRuns};

/// Where the store and the fragment hold the same, a condition has a truth value, and its formula holds
/// where the condition is true, or false where the formula is that of its negation. A formula stays that
/// of its condition where more gets numbers.
pub fn formulas_are_tests()
    ensures tests { FormulasAreTests }
    ensures stay { FormulasStay }
{}

/// Where a fragment begins, the store and the world that it is given hold the same, valid starts suit their
/// updates, and the atoms, updates and columns that stand for conditions and statements fit.
pub fn fragments_begin()
    ensures matches { BeginningsMatch }
    ensures starts { StartsSuit }
    ensures atoms { AtomsFit }
    ensures updates { UpdatesFit }
    ensures columns { ColumnsFit }
    ensures parts { PartsOfLoopsFit }
{}

/// What loops and branches make of one variable is what the fragment's run makes of its list: both are
/// none exactly where a count or a sum leaves 64 bits. The run is of one statement, of a block, of the
/// turns of a loop, or of the whole loop; and all variables together become what the fragment ends with.
pub fn chains_are_runs()
    ensures statements { StatementsAreRuns }
    ensures blocks { BlocksAreRuns }
    ensures loops { LoopsAreRuns }
    ensures accumulators { AccumulatorsAreRuns }
    ensures ends { AccumulatorsEndAs }
    ensures turns_end { TurnsEndAs }
    ensures fragments { FragmentsEndAs }
{}

/// After a statement, the flags of the block that it sets have the truth of their own runs.
pub fn flags_are_runs()
    ensures { FlagsAreRuns }
{}

/// A loop with branches, a flag, an entry value and a known list is one of these nests: it has the chains of
/// its fragment, and on the worked tables both end alike.
pub fn worked_loop_has_chains()
    ensures chains { WorkedChains }
    ensures runs { WorkedRuns }
{}
