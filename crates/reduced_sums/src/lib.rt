//! The sums that a dual bound is made of, from the reduced prices of the candidates in a place each:
//! what forms a bound for the search and what checks one for the replay both stand on it.
//!
//! Proved: the reduced prices are written exactly, the divisor times the prices first and then what
//! each share takes off; from those that shares leave and from what the shares pay the bound is that
//! of the definition, with no memory taken.
//!
//! Said by: `write_prices`; `take_off`; `bound_of_sums`.
#![tactic(auto)]

mod bound;
mod reduced;
mod sums;

pub use bound::bound_of_sums;
pub use reduced::{take_off, write_prices};
