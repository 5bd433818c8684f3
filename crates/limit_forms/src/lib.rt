//! The form of a limit under a plan, and the rows of its two grid matrices, between which the form
//! lies.
//!
//! Proved: the rows that the code writes are those of the two grid matrices, between which the
//! form lies; the verdict of the chains on them decides the limit, in any network; entries below
//! 2^109, diagonals of the chains below 2^61.
//!
//! Said by: `grid_row`, `form_entry`; `grid_matrices_surround_the_form`,
//! `grid_verdicts_decide_limits`, `grid_matrices_are_small`, `grid_chains_stay_low`.
//!
//! Caller: `write_rows` of `pivot_chain/src/grids.rt`.
#![tactic(auto)]

mod exponents;
mod form;
mod grid;
mod laws;
mod order;
mod row;

pub use exponents::full_diagonals;
pub use form::form_entry;
pub use grid::LimitGrid;
pub use laws::{
    entries_beside_the_diagonal_are_small, first_grid_rows_depend_on_their_entries,
    form_is_energy_less_load, grid_chains_stay_low, grid_matrices_are_small,
    grid_matrices_surround_the_form, grid_verdicts_decide_limits,
};
pub use row::grid_row;
