//! The laws between loads and covariances: a load stays below a multiple of the energy at every
//! displacement exactly where the covariance matrix of its forms stays below a bound. All here is
//! proved of the definitions in `specs/`, which upper crates cite; nothing runs.
#![tactic(auto)]

mod laws;

pub use laws::{eigenvalues_bound_forms, energies_bound_covariances};
