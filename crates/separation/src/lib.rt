//! Separation, which proposes cuts: displacements whose cuts the shares of the candidates break. For
//! each limit the weakest direction under the shares is found, and again where some candidates that
//! give more than the cut can count are taken out: a candidate whose coefficient reaches the bound
//! counts no more than that. Numbers are fixed point with 32 fractional bits.
//!
//! Proved: no call goes wrong, whatever it is given: no index out of range, no overflow, no zero
//! divisor; a proposal names a limit of the network, and its displacement has an entry for each
//! unknown.
//!
//! Said by: `propose`, clause `proposals`; its numbers are proposals, which `kernel_tests` compares
//! with exact fractions on small cases.
#![tactic(auto)]

mod dropping;
mod proposal;
mod rounded_direction;
mod separator;
mod sought;

pub use proposal::{Proposal, displacement_of};
pub use separator::Separation;
pub use sought::Sought;
