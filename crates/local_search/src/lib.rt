//! A local search for cheap plans: candidates are added at random or in pairs that check each other,
//! or a station is changed for another, and then one station and one candidate after the other is
//! taken out, as long as the limits in force bear it. Fixed point says what they bear; each plan that
//! is kept was certified by exact verdicts.
//!
//! Proved: the plan that it hands over is certified and costs no more than the one that it was
//! given; there is no first plan only where the plan of all candidates isn't certified; no call goes
//! wrong, and each ends. How cheap the plan is isn't proved.
//!
//! Said by: `first_plan`, clauses `certified`, `none`; `improve`, clauses `certified`, `no_dearer`.
#![tactic(auto)]

mod improvement;
mod offer;
mod order;
mod partners;
mod random;
mod walk;

pub use improvement::{first_plan, improve};
