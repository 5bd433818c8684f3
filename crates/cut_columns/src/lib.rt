//! The cuts of the pool that are looked at first, stored by candidate: what each of them reaches
//! under a plan is one pass over whole numbers, and under shares one over fixed point with 28
//! fractional bits. It proposes cuts that are broken.
//!
//! Proved: no call goes wrong, whatever it is given: no index out of range, no overflow, no zero
//! divisor.
//!
//! Said by: safety alone; its numbers are proposals, which `kernel_tests` compares with exact
//! fractions on small cases.
#![tactic(auto)]

mod broken;
mod columns;

pub use broken::Broken;
pub use columns::CutColumns;
