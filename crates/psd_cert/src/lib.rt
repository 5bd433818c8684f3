//! Certificates by dominance: made from the lower chain of a matrix, checked step by step, and
//! sound for all lists of whole numbers.
//!
//! Proved: a certificate by dominance is made from the lower chain wherever that doesn't stop, and
//! checked step by step; one that holds proves its form nowhere negative.
//!
//! Said by: `SquareCert::make`, `step_holds`, `holds`.
#![tactic(auto)]

mod lower;
mod sizes;
mod square_cert;
mod step;

pub use sizes::fits;
pub use square_cert::{SquareCert, holds};
pub use step::step_holds;
