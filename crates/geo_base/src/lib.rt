//! Exact division, shifts, roots, and `NoMemory`, the one answer that has no cause. Each call
//! equals its formula under its condition and takes no memory.
//!
//! Proved: floor, ceiling, nearest number, root, shift and exponent equal their formulas, and are
//! the only numbers that meet their inequalities.
//!
//! Said by: the six calls; `rounded_quotients_are_unique`,
//! `shifts_exponents_and_roots_are_unique`.
//!
//! Caller: `weight_of` of `coefficient_round/src/weight.rt`.
#![tactic(auto)]

mod division;
mod grid;
mod laws;
mod no_memory;
mod root;

pub use division::{ceil_div, floor_div, nearest};
pub use grid::{grid_exponent, shift_floor};
pub use laws::{rounded_quotients_are_unique, shifts_exponents_and_roots_are_unique};
pub use no_memory::NoMemory;
pub use root::root_floor;
