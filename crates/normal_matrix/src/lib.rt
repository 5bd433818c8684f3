//! The normal matrix of a plan, exact while candidates come and go. After `new` no call takes
//! memory.
//!
//! Proved: the normal matrix of a plan stays exact while candidates come and go; the energy of a
//! displacement is its quadratic form; entries times `alpha` are below 2^91.
//!
//! Said by: `Normal`; `energy_is_the_form_of_the_normal_matrix`, `entries_are_small`.
//!
//! Caller: `set_candidate` of `pivot_chain/src/plan.rt`.
#![tactic(auto)]

mod change;
mod laws;
mod normal;
mod sums;

pub use laws::{energy_is_the_form_of_the_normal_matrix, entries_are_small};
pub use normal::Normal;
