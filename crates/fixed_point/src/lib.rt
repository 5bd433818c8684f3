//! Numbers in fixed point, with 32 fractional bits in an `i64`, and rows of them: what kernels
//! that only propose to the search compute in. Sums and products that pass 64 bits wrap around,
//! quotients stop at the greatest number. No call takes memory.
//!
//! Proved: no call goes wrong, whatever it is given: no index out of range, no overflow, no zero
//! divisor.
//!
//! Said by: safety alone; its numbers are proposals, which `kernel_tests` compares with exact
//! fractions on small cases.
//!
//! Caller: `clear_place` of `dual_simplex/src/table.rt`.
#![tactic(auto)]

mod divisor;
mod number;
mod row;
mod sizes;

pub use divisor::Divisor;
pub use number::{ONE, product, quotient, ratio, root, root_of_ratio};
pub use row::{divide_row, dot, negate_row, subtract_scaled};
pub use sizes::Sizes;
