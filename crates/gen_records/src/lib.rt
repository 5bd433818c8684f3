//! The records of the tables that are generated from a seed.
//!
//! Proved: a seed gives nine points and 28 candidates, and each draw is one of the numbers below
//! its bound.
//!
//! Said by: `generated_records_are_counted`, `draws_are_below_their_bounds`.
#![tactic(auto)]

mod counts;

pub use counts::{draws_are_below_their_bounds, generated_records_are_counted};
