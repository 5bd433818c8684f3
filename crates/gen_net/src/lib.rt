//! Test networks that are generated from a seed: a points table and a candidates table, whose
//! coordinates, limits, ends and prices are drawn.
//!
//! Proved: the texts of both tables are those of the definition, for every seed.
//!
//! Said by: `gen_points`, `gen_candidates`.
#![tactic(auto)]

mod candidates;
mod draws;
mod fields;
mod points;

pub use candidates::gen_candidates;
pub use points::gen_points;

#[cfg(test)]
mod tests;
