//! The network of both tables with its limits, or the count that is too large.
//!
//! Proved: the network of both tables is the defined one and keeps the bounds of networks; a fault
//! comes exactly where there are more than 64 unknowns, or else more than 512 rows, with their
//! count; with each other value its limits keep the bounds of limits; its grid matrices stay below
//! 2^71 beside the diagonal.
//!
//! Said by: `build`, clauses `answer`, `bounds`; `built_networks_are_networks`,
//! `built_limits_bear_values`, `built_grids_are_small`.
//!
//! Caller: `accept` of `geoplan/src/load.rt`.
#![tactic(auto)]

mod candidates;
mod counts;
mod grid_law;
mod laws;
mod network;
mod point_limits;
mod redundancy;

pub use grid_law::built_grids_are_small;
pub use laws::{built_limits_bear_values, built_networks_are_networks};
pub use network::build;
