//! Definitions and laws over whole numbers and symmetric matrices of them; nothing runs. Upper
//! crates cite its words in clauses and its lemmas in proofs.
//!
//! Proved: completing the square; rounding with slack bounds a form from below and above; where
//! the lower chain doesn't stop, the form is nowhere negative; where the upper one stops, over at
//! most 64 rows whose diagonals stay low (as those of grid matrices do), it is negative somewhere;
//! a certificate by dominance proves its form nowhere negative.
//!
//! Said by: `pivot_completes_the_square`, `slack_covers_the_rounding`, `lower_chain_is_sound`,
//! `upper_chain_refutes`, `verdicts_are_sound`, `certificate_is_sound` and further laws.
#![tactic(auto)]

mod certificates;
mod chains;
mod forms;
mod grids;
mod laws;

pub use certificates::{certificate_is_sound, lower_chain_is_a_certificate};
pub use chains::{
    diagonals_stay_low, lower_chain_is_sound, pivot_keeps_sizes, upper_chain_refutes,
    verdicts_are_sound,
};
pub use forms::{
    first_rows_are_rounded_alone, pivot_completes_the_square, slack_covers_the_rounding,
};
pub use grids::{grid_verdicts_are_sound, packed_forms_are_sums_of_squares};
pub use laws::{products_keep_the_order, sums_go_together, whole_numbers_are_a_ring};
