//! Dual bounds: from multipliers of cuts, a lower bound on what each plan of a node costs that meets
//! the limits, with the prices of stations paid once.
//!
//! Proved: the bound is exact, with no memory taken; it is at most the price of each plan of the
//! node that meets the limits, where the limit of each cut is in force for all plans of the node.
//!
//! Said by: `leaf_bound`; `meeting_plans_cost_the_dual_bound`.
#![tactic(auto)]

mod laws;
mod leaf;
mod weighing;

pub use cut_pool::Share;
pub use laws::meeting_plans_cost_the_dual_bound;
pub use leaf::leaf_bound;
