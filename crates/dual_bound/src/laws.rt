//! The law of dual bounds. The function is its contract: it does nothing.
ghost use Rattle.dual_bound.specs.Bound.{MeetingPlansCostTheDualBound};

/// Each plan of a node that meets the limits costs at least the dual bound of shares of cuts, where
/// each cut is the one of a limit that is in force for all plans of the node.
pub fn meeting_plans_cost_the_dual_bound()
    ensures { MeetingPlansCostTheDualBound }
{}
