//! Multipliers for the cuts of a pool, which make a dual bound of a node: a cutting plane method
//! over the dual simplex, in fixed point.
//!
//! Proved: the divisor and the multipliers are within the bounds of a log, and only cuts are named
//! whose limit has no owner or one that each plan of the node chooses; nothing is proposed only where
//! the pool has no such cut. How high the bound is isn't proved.
//!
//! Said by: `ascend`, clauses `dual`, `none`; `dual_of`, clause `dual`.
#![tactic(auto)]

mod ascent;
mod dual;
mod multipliers;
mod naming;
mod relaxation;

pub use ascent::{ascend, dual_of};
pub use cut_pool::Share;
pub use dual::Dual;
pub use relaxation::{RelaxationEnd, price_shift, scaled_price, scaled_prices};
