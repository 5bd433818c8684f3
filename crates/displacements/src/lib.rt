//! Displacements that break a limit under a plan: whether one does, and which is proposed.
//!
//! Proved: energy, load and what breaks a limit are exact; what is proposed breaks the limit, and
//! nothing is proposed only where no displacement by 1 in one unknown breaks it.
//!
//! Said by: `energy`, `load`, `breaks` of `geo_model`; `propose`.
#![tactic(auto)]

mod proposal;

pub use geo_model::{breaks, energy, load};
pub use proposal::propose;
