//! Cuts: what a displacement asks of each plan that meets a limit, as a covering inequality over the
//! candidates with coefficients below 2^24, and a pool of them.
//!
//! Proved: the coefficients and the bound of a cut are those of its definition; in each plan that
//! meets the limit the coefficients of the chosen candidates sum to at least the bound; the power of
//! two that divides a cut is the least one; a pool has no two cuts of the same limit and displacement.
//!
//! Said by: `cut_of`, `cut_into`; `meeting_plans_satisfy_cuts`, `shifts_are_least`; `CutPool::add`,
//! `CutPool::len`.
#![tactic(auto)]

mod cut;
mod laws;
mod pool;
mod share;

pub use cut::{Cut, cut_into, cut_of};
pub use laws::{meeting_plans_satisfy_cuts, shifts_are_least};
pub use pool::CutPool;
pub use share::Share;
