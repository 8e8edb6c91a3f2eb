//! Worked views, as laws that compute. They do nothing.
ghost use Rattle.view_slices.specs.Worked.{WorkedBounds, WorkedColumns, WorkedConstants, WorkedGroups, WorkedHeads, WorkedLoops, WorkedNested, WorkedParameters, WorkedRows, WorkedSearches, WorkedWidths};

/// What a slice in the block of a loop sets is printed, since the loop's condition names it before.
#[tactic(auto, using(crate::proofs::Computed::loops))]
pub fn what_is_named_before_in_a_loop_is_printed()
    ensures { WorkedLoops }
{}

/// Columns of a row from outside are parameters.
#[tactic(auto, using(crate::proofs::Computed::columns))]
pub fn columns_from_outside_are_parameters()
    ensures { WorkedColumns }
{}

/// A slice whose loop gave way is one again, with what it returns.
#[tactic(auto, using(crate::proofs::Computed::groups))]
pub fn what_gave_way_is_read_again()
    ensures { WorkedGroups }
{}

/// What a slice doesn't name is no parameter, since it may be null.
#[tactic(auto, using(crate::proofs::Computed::parameters))]
pub fn parameters_are_named()
    ensures { WorkedParameters }
{}

/// A literal or a name of a column of another width is none of the source's.
#[tactic(auto, using(crate::proofs::Computed::widths))]
pub fn statements_keep_their_widths()
    ensures { WorkedWidths }
{}

/// A `final` variable that is named behind a slice stays one.
#[tactic(auto, using(crate::proofs::Computed::constants))]
pub fn constants_stay()
    ensures { WorkedConstants }
{}

/// A statement that asks stands in place of others in the body of one that is kept.
#[tactic(auto, using(crate::proofs::Computed::nested))]
pub fn what_gave_way_inside_is_read_again()
    ensures { WorkedNested }
{}

/// A declaration that asks begins as the source's does.
#[tactic(auto, using(crate::proofs::Computed::heads))]
pub fn declarations_that_ask_keep_their_heads()
    ensures { WorkedHeads }
{}

/// What is from outside names each row in sight.
#[tactic(auto, using(crate::proofs::Computed::rows))]
pub fn rows_in_sight_are_named()
    ensures { WorkedRows }
{}

/// A group that is kept is a slice again beside one that gave way.
#[tactic(auto, using(crate::proofs::Computed::searches))]
pub fn kept_groups_are_read_again()
    ensures { WorkedSearches }
{}

/// A slice that is empty, prints or is handed a value twice, or has a long name isn't of the source.
#[tactic(auto, using(crate::proofs::Computed::bounds))]
pub fn slices_of_the_source_have_a_bound()
    ensures { WorkedBounds }
{}
