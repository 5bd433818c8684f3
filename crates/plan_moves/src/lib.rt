//! Plans that candidates are added to and taken out of, in fixed point: what is left where one after
//! the other, or a whole station with its candidates, is taken out, each where the limits in force
//! bear it, or one limit does. It proposes plans to offer, and small plans that meet a limit alone.
//!
//! Proved: no call goes wrong, whatever it is given: no index out of range, no overflow, no zero
//! divisor.
//!
//! Said by: safety alone; its numbers are proposals, which `kernel_tests` compares with exact
//! fractions on small cases.
#![tactic(auto)]

mod moved_plan;
mod station_moves;
mod witness_finder;

pub use moved_plan::MovedPlan;
pub use station_moves::StationMoves;
pub use witness_finder::{Rest, WitnessFinder};
