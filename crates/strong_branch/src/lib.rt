//! Strong branching, which proposes the candidate that the search splits on: each is tried on both
//! sides for a few pivots of the dual simplex, and the one that lifts the bound most on both is
//! kept with the tableaus of its sides. Numbers are fixed point with 32 fractional bits.
//!
//! Proved: no call goes wrong, whatever it is given: no index out of range, no overflow, and each
//! ends.
//!
//! Said by: safety alone; its numbers are proposals, which `kernel_tests` compares with exact
//! fractions on small cases.
#![tactic(auto)]

mod branching;
mod probe;

pub use branching::Branching;
pub use probe::{Probe, SplitSide};
