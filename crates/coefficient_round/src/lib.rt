//! The whole numbers that stand for the coefficients of distances and directions (times 10000,
//! lines in mm) and for weights (of standard deviations in hundredths). No call takes memory.
//!
//! Proved: coefficients and weights are the whole numbers that their inequalities allow.
//!
//! Said by: `dist_coef`, `dir_coef`, `weight_of`; `distance_coefficients_are_rounded`,
//! `directions_and_weights_are_nearest`.
//!
//! Caller: `distance_parts` of `design_rows/src/line.rt`.
#![tactic(auto)]

mod direction;
mod distance;
mod laws;
mod line;
mod units;
mod weight;

pub use direction::dir_coef;
pub use distance::dist_coef;
pub use laws::{directions_and_weights_are_nearest, distance_coefficients_are_rounded};
pub use line::length_squared;
pub use weight::weight_of;
