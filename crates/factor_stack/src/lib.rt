//! The two chains of a limit under a plan that changes, one candidate at a time, and goes back.
//!
//! Proved: a stack holds the plan and, of each of the two chains, the rows up to and including its
//! stop; its verdict is the defined one of its plan; a change is refused for want of memory alone and
//! then leaves all as before; an undo gives what was stored before that change, bit for bit, without
//! memory; a change computes at most the places from the first one that the candidate touches on.
//!
//! Said by: `FactorStack::new`, `change`, `undo`, `verdict`.
#![tactic(auto)]

mod chain;
mod compute;
mod factors;
mod first_place;
mod held;
mod rows;
mod run;
mod stack;
mod steps;

use chain::Chain;
use factors::Factors;
use held::{Held, Saved};
pub use stack::FactorStack;
pub use steps::Steps;
