//! The unknowns of both tables by their numbers, and the weighted rows of a candidate.
//!
//! Proved: the unknowns in the order of their numbers, which all differ, each found at its number
//! and nothing else; the rows of an accepted candidate are those of the observation equations,
//! within the bounds of a network's rows.
//!
//! Said by: `Columns::number`, `Columns::find`, `rows_of`; `unknowns_differ`,
//! `rows_are_within_bounds`.
//!
//! Caller: `candidate_of` of `net_build/src/candidates.rt`.
#![tactic(auto)]

mod columns;
mod entries;
mod equations;
mod laws;
mod line;
mod numbering;
mod rows;
mod term;

pub use columns::Columns;
pub use laws::{rows_are_counted, rows_are_within_bounds, unknowns_differ};
pub use rows::rows_of;
