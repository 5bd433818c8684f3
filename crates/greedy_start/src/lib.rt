//! A first plan: what is left where first whole stations that cost something, and then the candidates
//! of a network are taken out one after the other, the dearest first, each one where the plan stays
//! certified.
//!
//! Proved: a first plan is certified; there is none only where the plan of all candidates isn't
//! certified.
//!
//! Said by: `start`, clauses `certified`, `none`.
#![tactic(auto)]

mod deletion;
mod first_plan;
mod offer;
mod stations;
mod unmet;

pub use first_plan::start;
pub use unmet::unmet_limit;
