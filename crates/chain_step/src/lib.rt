//! One step of an interval chain, row by row: the tests of a first row, and what its pivot leaves of
//! the rows below it.
//!
//! Proved: a step leaves of each row what the chain's own step leaves; after `t` steps the row of place
//! `k` is row `k - t` of the matrix that the chain has then; equal first rows of two matrices give equal
//! first rows of their chains.
//!
//! Said by: `take_step`, `take_steps`, `stop_of`; `equal_first_rows_give_equal_chains`.
#![tactic(auto)]

mod arithmetic;
mod divisor;
mod first_row;
mod laws;
mod left_side;
mod side;
mod step;
mod steps;
mod stop;

pub use arithmetic::{PIVOT_SIZE, product};
pub use first_row::is_zero_row;
pub use laws::equal_first_rows_give_equal_chains;
pub use left_side::left_gaps;
pub use side::Side;
pub use step::take_step;
pub use steps::take_steps;
pub use stop::stop_of;
