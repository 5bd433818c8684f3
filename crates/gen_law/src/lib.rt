//! Laws by which generated networks meet their limits: the energy of each kind of row as a square,
//! how large its coefficients and weights are, and what bounds it. Nothing runs.
//!
//! Proved: the form of a row is the sum of the terms of its equation; energies by kind; the
//! coefficients of directions along far lines and the weights of generated networks are small; a
//! row whose energy the others bear fourfold has a redundancy number of a fifth.
//!
//! Said by: `rows_are_sums_of_terms`, `energies_by_kind`, `far_directions_are_small`,
//! `generated_weights`, `squares_of_forms`, `rest_bears_row`.
#![tactic(auto)]

mod numbers;
mod rows;

pub use numbers::{far_directions_are_small, generated_weights, rest_bears_row, squares_of_forms};
pub use rows::{energies_by_kind, rows_are_sums_of_terms};
