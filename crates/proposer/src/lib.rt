//! What proposes to a search. At a node it proposes a displacement that refutes it, candidates that
//! are forced, multipliers for a dual bound by the node's linear program, displacements for more cuts,
//! candidates that the bound fixes, a plan to offer, and the candidate to split the node on. It keeps
//! the linear program and the inverse of the upper plan of each node on the path to the present one,
//! so that a node below another begins with what is known there. A call goes through a bounded number
//! of rounds and pivots; memory is that of at most 257 nodes and 512 cuts.
//!
//! Proved: no call goes wrong, whatever node it is told, and each ends; what it hands over has the
//! shapes that exact calls ask for: limits, candidates and cuts by numbers that there are,
//! displacements and plans with an entry for each unknown or candidate, and multipliers within the
//! bounds of a log. Nothing is proved of how good it is.
//!
//! Said by: `Proposer`: `refuting`, `forced`, `bound`, `bound_by`, `separate`, `split`, `offer`.
#![tactic(auto)]

mod bound_by;
mod fixing;
mod forced;
mod level;
mod levels;
mod links;
mod live_cuts;
mod nodes;
mod relaxation;
mod rounded_plan;
mod splitting;
mod watch;

pub use bound_by::BoundBy;
pub use forced::Forced;
pub use nodes::Proposer;
pub use separation::Proposal;
