//! What a checker that is closed shows.

ghost use Rattle.ec_rup.specs.Reached.{ClosedLeavesNoneOut};

/// A closed checker leaves no truth of the clause list that it began with but those that were
/// forbidden.
pub fn closed_leaves_none_out()
    ensures { ClosedLeavesNoneOut }
{}
