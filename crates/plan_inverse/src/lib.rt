//! The inverse of the scaled normal matrix of a plan, and how it changes where a candidate is
//! taken out or added: what a limit bears then is known without another factor. It proposes what
//! can be spared and what can't. Numbers are fixed point with 32 fractional bits.
//!
//! Proved: no call goes wrong, whatever it is given: no index out of range, no overflow, no zero
//! divisor.
//!
//! Said by: safety alone; its numbers are proposals, which `kernel_tests` compares with exact
//! fractions on small cases.
#![tactic(auto)]

mod change;
mod inverse;
mod limit_matrix;

pub use change::InverseChange;
pub use inverse::Inverse;
pub use limit_matrix::LimitMatrix;
