//! A network in fixed point, with its unknowns scaled, and what its limits bear under shares of the
//! candidates: by the inverse of a normal matrix, which is kept while candidates are taken out or
//! added. It proposes which limits are broken, in which direction, and which candidates can't be
//! spared. A plan's price has that of each station that it pays once.
//!
//! Proved: no call goes wrong, whatever it is given: no index out of range, no overflow, no zero
//! divisor.
//!
//! Said by: safety alone; its numbers are proposals, which `kernel_tests` compares with exact
//! fractions on small cases.
#![tactic(auto)]

mod bearing;
mod marks;
mod network;
mod stations;

pub use bearing::Bearing;
pub use marks::{Mark, Marks};
pub use network::ScaledNetwork;
pub use stations::CostlyStations;
